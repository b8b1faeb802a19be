//! A strip: records in bytes that the caller lends, seven parts of slots that are filled in order.
ghost use Rattle.std.specs.Prelude.{◌≡◌, ℕ, ◌+◌, ◌<◌, ◌≤◌, true, if◌then◌else◌, length, replicate, Some, None, Ok, Err, IfSome, Decides, MatchOption, MatchResult};
ghost use Rattle.numbers.specs.Records.{row_of};
ghost use Rattle.numbers.specs.Refusals.{refusal};
ghost use Rattle.cabinet.specs.Cells.{fresh, cell_at, is_worn, put_cells};
ghost use Rattle.cabinet.specs.Slots.{slots_in, filled, part, part_cell, PartForm, StripSize, Countable, StripForm, Counted, next_slot, put_bytes};

use crate::cabinets::Cabinet;
use crate::faults::Worn;
use crate::parts::{filled_slots, is_in_form, last_record};
use crate::slots::write_views;
use numbers::{CellRecord, Refusal};
use std::array::from_fn;

/// A cabinet in bytes that the caller lends: seven equal parts, one a cell, each of slots of eight bytes. A put fills the
/// first empty slot of its cell's part, and the writes left are the empty slots.
#[derive(Drop)]
pub struct Strip<'a> {
    bytes: &'a mut [u8],
    // whether the bytes are in form; a flag beside them, since they stay lent where they are not
    sound: bool,
    // how many slots of each part are filled, so that no call has to search; zeros of 56 bytes or more whose number is no
    // strip's, which are not counted
    counts: [usize; 7],
    ghost seven: { length counts ≡ 7 },
    ghost counted: { Countable (length bytes.now) → Counted counts bytes.now },
    ghost uncounted: { (Countable (length bytes.now) → ⊥) → counts ≡ replicate 7 0 },
    ghost tells: { Decides sound (StripForm bytes.now) },
}

impl<'a> Strip<'a> {
    ghost use Rattle.cabinet.specs.Strips.{bytes_in, cells_in};

    /// Whether the bytes are in form; refused with BadForm where they are not.
    pub fn check(bytes: &[u8]) -> Result<(), Refusal>
        ensures { MatchResult result (λ _. StripForm bytes.now) (λ e. (StripForm bytes.now → ⊥) × (e ≡ refusal 17)) }
    {
        match strip_counts(bytes) {
            Some(_) => Ok(()),
            None => Err(Refusal::BadForm),
        }
    }

    /// The strip of these bytes, unchanged; where they are not in form, all its cells are worn. The bytes are only read
    /// while the strip is made: they are lent for reading from first to last.
    pub fn new(bytes: &'a mut [u8]) -> Strip<'a>
        ensures kept { bytes_in result ≡ bytes.old }
        ensures lent { result.bytes.ghost_name ≡ bytes.entry.ghost_name }
        ensures tells { Decides result.sound (StripForm bytes.old) }
    {
        let read = &*bytes;
        let counts = bounded_counts(read);
        let sound = bytes_are_in_form(read, &counts);
        Strip {
            bytes,
            sound,
            counts,
        }
    }

    // The part of a cell; none where the bytes are not in form, or for a cell of 7 or more.
    fn part(&self, cell: u16) -> Option<&[u8]>
        ensures cell { MatchOption result (cell_at (cells_in self.now) cell ≡ fresh 0) (λ p. cell_at (cells_in self.now) cell ≡ part_cell p.now) }
        ensures place { IfSome result (λ p. (self.now.sound ≡ true) × (cell < 7) × (p.now ≡ part (bytes_in self.now) cell)) }
        ensures form { IfSome result (λ p. PartForm p.now) }
        ensures size { IfSome result (λ p. length p.now ≤ 8192) }
    {
        if !self.sound || cell >= 7 {
            return None;
        }
        Some(part_of(self.bytes, cell as usize))
    }

    // How many slots of a cell's part are filled.
    fn filled(&self, cell: u16, slots: &[u8]) -> usize
        requires { (self.now.sound ≡ true) × (cell < 7) × (slots.now ≡ part (bytes_in self.now) cell) }
        ensures value { result ≡ filled slots.now }
        ensures bound { result ≤ slots_in slots.now }
    {
        self.counts[cell as usize]
    }

    // Where the first empty slot of a cell begins; none where the cell has no writes left.
    fn first_empty(&self, cell: u16) -> Option<usize>
        ensures place { result ≡ (if is_worn (cells_in self.now) cell then None else Some (next_slot (bytes_in self.now) cell)) }
        ensures part { IfSome result (λ _. (self.now.sound ≡ true) × (cell < 7) × (filled (part (bytes_in self.now) cell) < slots_in (part (bytes_in self.now) cell))) }
        ensures room { IfSome result (λ at. at + 8 ≤ length (bytes_in self.now)) }
    {
        let part = self.part(cell)?;
        let n = self.filled(cell, part);
        if n == part.len() / 8 {
            return None;
        }
        Some(cell as usize * part.len() + 8 * n)
    }

    /// The writes left of a cell, its empty slots; none for a cell of 7 or more.
    pub fn left(&self, cell: u16) -> u16
        ensures { result ≡ (cell_at (cells_in self.now) cell).left }
    {
        let Some(part) = self.part(cell) else {
            return 0;
        };
        (part.len() / 8 - self.filled(cell, part)) as u16
    }
}

// The part of a cell.
fn part_of(bytes: &[u8], cell: usize) -> &[u8]
    requires { cell < 7 }
    ensures { result.now ≡ part bytes.now cell }
{
    let size = bytes.len() / 7;
    &bytes[cell * size..cell * size + size]
}

// How many slots of each part are filled.
fn filled_counts(bytes: &[u8]) -> [usize; 7]
    ensures seven { length result ≡ 7 }
    ensures counted { Counted result bytes.now }
{
    from_fn(|cell| filled_slots(part_of(bytes, cell)))
}

// Whether all seven parts are in form; the counts of their filled slots are known.
fn parts_are_in_form(bytes: &[u8], counts: &[usize; 7]) -> bool
    requires { Counted counts.now bytes.now }
    ensures { Decides result ((c : ℕ) → c < 7 → PartForm (part bytes.now c)) }
{
    (0..7).all(|cell| is_in_form(part_of(bytes, cell), counts[cell]))
}

// Whether a strip can have so many bytes: a multiple of 56, from 56 to 57,344.
fn is_strip_size(n: usize) -> bool
    ensures { Decides result (StripSize n) }
{
    n % 56 == 0 && (56..=57_344).contains(&n)
}

// How many slots of each part are filled; none where a part is not in form.
fn part_counts(bytes: &[u8]) -> Option<[usize; 7]>
    ensures seven { IfSome result (λ counts. length counts ≡ 7) }
    ensures counted { IfSome result (λ counts. Counted counts bytes.now) }
    ensures form { MatchOption result (((c : ℕ) → c < 7 → PartForm (part bytes.now c)) → ⊥) (λ _. (c : ℕ) → c < 7 → PartForm (part bytes.now c)) }
{
    let counts = filled_counts(bytes);
    if !parts_are_in_form(bytes, &counts) {
        return None;
    }
    Some(counts)
}

// The same of bytes that are as many as a strip's; none where they are not. Their number is asked first, so that bytes
// that are no strip are not gone through.
fn strip_counts(bytes: &[u8]) -> Option<[usize; 7]>
    ensures seven { IfSome result (λ counts. length counts ≡ 7) }
    ensures counted { IfSome result (λ counts. Counted counts bytes.now) }
    ensures form { MatchOption result (StripForm bytes.now → ⊥) (λ _. StripForm bytes.now) }
{
    if is_strip_size(bytes.len()) {
        part_counts(bytes)
    } else {
        None
    }
}

// How many slots of each part are filled, in form or not. Bytes whose number is no strip's are not gone through, since
// they may be as long as memory: they get zeros, which are right of fewer than 56, where no part has a slot.
#[tactic(auto, using(crate::proofs::Strips::no_slot))]
fn bounded_counts(bytes: &[u8]) -> [usize; 7]
    ensures seven { length result ≡ 7 }
    ensures counted { Countable (length bytes.now) → Counted result bytes.now }
    ensures uncounted { (Countable (length bytes.now) → ⊥) → result ≡ replicate 7 0 }
{
    if is_strip_size(bytes.len()) {
        filled_counts(bytes)
    } else {
        [0; 7]
    }
}

// Whether the bytes are as many as a strip's, and all seven parts are in form; where they are as many, the counts of their
// filled slots are known.
fn bytes_are_in_form(bytes: &[u8], counts: &[usize; 7]) -> bool
    requires { StripSize (length bytes.now) → Counted counts.now bytes.now }
    ensures { Decides result (StripForm bytes.now) }
{
    is_strip_size(bytes.len()) && parts_are_in_form(bytes, counts)
}

impl<'a> Cabinet for Strip<'a> {
    ghost use Rattle.cabinet.specs.Strips.{bytes_in, cells_in, strip_seven};

    ghost cells = { strip_seven };

    fn held(&self, cell: u16) -> CellRecord {
        match self.part(cell) {
            Some(part) => last_record(part, self.filled(cell, part)),
            None => CellRecord::zero(),
        }
    }

    fn worn(&self, cell: u16) -> bool {
        self.first_empty(cell).is_none()
    }

    // Fills the first empty slot of the cell's part; every other byte stays. Until its first byte is written, after
    // the seven that are lent, the slot is empty.
    fn put(&mut self, cell: u16, new: CellRecord) -> Result<(), Worn>
        ensures result { result ≡ (if is_worn (cells_in self.old) cell then Err (record { cell = cell }) else Ok tt) }
        ensures after { cells_in self.new ≡ put_cells (cells_in self.old) cell (row_of new) }
        ensures bytes { bytes_in self.new ≡ put_bytes self.old.sound (bytes_in self.old) cell (row_of new) }
        ensures form { self.new.sound ≡ self.old.sound }
        ensures lent { self.new.bytes.ghost_name ≡ self.old.bytes.ghost_name }
    {
        let Some(at) = self.first_empty(cell) else {
            return Err(Worn { cell });
        };
        write_views(&mut self.bytes[at + 1..at + 8], new.row());
        self.bytes[at] = 1;
        self.counts[cell as usize] += 1;
        Ok(())
    }
}
