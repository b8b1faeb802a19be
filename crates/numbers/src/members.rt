//! A member: a controller number that is below n, where n is at most 7.
ghost use Rattle.std.specs.Prelude.{◌≡◌, ◌<◌, ◌≤◌, true, false, take, MatchResult};
ghost use Rattle.numbers.specs.Refusals.{refusal};

use crate::refusals::Refusal;
use crate::views::ControllerNumber;

/// A controller of a site of n. Whoever has a member may rely on its number without a test.
#[derive(Clone, Copy, PartialEq, Eq, Debug)]
pub struct Member {
    number: ControllerNumber,
    n: u16,
    ghost below: { number.number < n },
    ghost few: { n ≤ 7 },
}

impl Member {
    ghost use Rattle.numbers.specs.Members.{is_member};

    /// The controller of that number in a site of n; refused where the number is not below n.
    pub fn new(number: ControllerNumber, n: u16) -> Result<Member, Refusal>
        ensures { MatchResult result (λ m. (is_member n number ≡ true) × ((m.number ≡ number) × (m.n ≡ n))) (λ e. (is_member n number ≡ false) × (e ≡ refusal 2)) }
    {
        if number.number >= n || n > 7 {
            return Err(Refusal::NoSuchController);
        }
        Ok(Member { number, n })
    }

    /// The controller number, which is below n.
    pub fn number(self) -> ControllerNumber
        ensures { result ≡ self.number }
    {
        self.number
    }

    /// How many controllers the site has, 7 at most.
    pub fn n(self) -> u16
        ensures value { result ≡ self.n }
        ensures few { result ≤ 7 }
    {
        self.n
    }

    /// The first n of a table of seven, which are those of the site's controllers.
    pub fn of_site<A>(self, table: &[A; 7]) -> &[A]
        ensures { result.now ≡ take self.n table.now }
    {
        &table[..self.n as usize]
    }

    /// The number as an index into a table of seven.
    pub fn index(self) -> usize
        ensures value { result ≡ self.number.number }
        ensures few { result < 7 }
    {
        self.number.number as usize
    }
}
