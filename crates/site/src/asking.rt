//! The questions that the site asks itself, and the message that it sends.
ghost use Rattle.std.specs.Prelude.{◌≡◌, ◌+◌, ◌*◌, ◌<◌, ◌≤◌, true, length, MatchResult, nat_lt, slice_set};
ghost use Rattle.site.specs.States.{IsMember, IsPair, MemberFails, PairFails, made_with, with_count};

use crate::faults::Fault;
use crate::records::Site;
use entries::{Entry, Message};
use numbers::{ControllerNumber, Member, Refusal};
use std::ops::Range;

impl Site {
    // Whether the site is made, with memory of these lengths. The count is asked too: the definitions
    // speak of any record, and so of one that no make left.
    pub(crate) fn is_made<E>(&self, books: &[Entry<E>], pool: &[Message<E>]) -> bool
        ensures value { result ≡ made_with self.now (length books.now) (length pool.now) }
        ensures few { result ≡ true → length pool.now ≤ 65535 }
    {
        self.made
            && books.len() == self.n as usize * self.cap as usize
            && pool.len() == self.pool as usize
            && self.count <= self.pool
    }

    // A controller's part of the books, of cap entries. It is a range, and not lent to a closure:
    // a slip has no drop, so none could capture it, and what one leaves of a cabinet is not known.
    pub(crate) fn part(&self, me: Member) -> Range<usize>
        ensures start { result.start ≡ me.number.number * self.now.cap }
        ensures end { result.end ≡ me.number.number * self.now.cap + self.now.cap }
        ensures within { result.end ≤ me.n * self.now.cap }
    {
        let cap = self.cap as usize;
        let start = me.index() * cap;
        start..start + cap
    }

    // Whether the pool has room for one more message.
    pub(crate) fn has_room<E>(&self, pool: &[Message<E>]) -> bool
        ensures { result ≡ nat_lt self.now.count (length pool.now) }
    {
        (self.count as usize) < pool.len()
    }

    // Controller i of this site.
    pub(crate) fn member<E>(
        &self,
        books: &[Entry<E>],
        pool: &[Message<E>],
        i: ControllerNumber,
    ) -> Result<Member, Fault>
        ensures { MatchResult result (λ m. IsMember self.now (length books.now) (length pool.now) i m) (λ e. MemberFails self.now (length books.now) (length pool.now) i e) }
    {
        if !self.is_made(books, pool) {
            return Err(Fault::at_controller(Refusal::NotMade, i));
        }
        Member::new(i, self.n).map_err(|refusal| Fault::at_controller(refusal, i))
    }

    // Controllers i and b of this site, which are two.
    pub(crate) fn pair<E>(
        &self,
        books: &[Entry<E>],
        pool: &[Message<E>],
        i: ControllerNumber,
        b: ControllerNumber,
    ) -> Result<(Member, Member), Fault>
        ensures { MatchResult result (λ m. IsPair self.now (length books.now) (length pool.now) i b m) (λ e. PairFails self.now (length books.now) (length pool.now) i b e) }
    {
        let me = self.member(books, pool, i)?;
        let other = Member::new(b, self.n).map_err(|refusal| Fault::at_controller(refusal, i))?;
        if i == b {
            return Err(Fault::at_controller(Refusal::NoSuchController, i));
        }
        Ok((me, other))
    }

    // Puts a message at the end of the pool.
    pub(crate) fn send<E: Copy>(&mut self, pool: &mut [Message<E>], message: Message<E>)
        requires { (self.old.count < length pool.old) × (self.old.count < 65535) }
        ensures site { self.new ≡ with_count self.old (self.old.count + 1) }
        ensures pool { pool.new ≡ slice_set pool.old self.old.count message }
    {
        pool[self.count as usize] = message;
        self.count += 1;
    }
}
