//! One slot of a strip: a cell record as eight bytes, and back.
ghost use Rattle.std.specs.Prelude.{◌≡◌, ◌+◌, ◌*◌, ◌/◌, ◌%◌, true, false, [], ◌∷◌, length, drop, MatchResult};
ghost use Rattle.numbers.specs.Records.{row_of};
ghost use Rattle.numbers.specs.Refusals.{refusal};
ghost use Rattle.numbers.specs.Rows.{row_ok};
ghost use Rattle.numbers.specs.Views.{view_of, view_ok};
ghost use Rattle.cabinet.specs.Slots.{slot_bytes, slot_ok, row_in, OneToOne};

use numbers::{CellRecord, Refusal, Row, View};

/// The bytes of the filled slot with this record. Filled slots and records match one to one.
pub fn slot_of(new: CellRecord) -> [u8; 8]
    ensures bytes { result ≡ slot_bytes (row_of new) }
    ensures matched { OneToOne }
{
    let mut slot = [1; 8];
    write_views(&mut slot[1..8], new.row());
    slot
}

/// Writes the seven bytes of a filled slot that come after its first, in two stores of four bytes. The second begins
/// with the last byte of the first.
pub fn write_views(memory: &mut [u8], row: Row)
    requires size { length memory.old ≡ 7 }
    requires kept { row_ok row ≡ true }
    ensures { memory.new ≡ drop 1 (slot_bytes row) }
{
    write_four(&mut memory[0..4], in_three(row.current) * 256);
    write_four(&mut memory[3..7], in_three(row.promised) * 256);
}

/// The record of a filled slot; refused where the bytes are not eight or are no filled slot.
pub fn read_slot(slot: &[u8]) -> Result<CellRecord, Refusal>
    ensures { MatchResult result (λ x. (length slot.now ≡ 8) × (slot_ok slot.now ≡ true) × (row_of x ≡ row_in slot.now)) (λ e. (length slot.now ≡ 8 → slot_ok slot.now ≡ false) × (e ≡ refusal 17)) }
{
    let &[1, a, b, c, d, e, f, 0] = slot else {
        return Err(Refusal::BadForm);
    };
    let current = view_in(a, b, c);
    let promised = view_in(d, e, f);
    CellRecord::try_from(Row { current, promised })
}

// The number of three bytes that a view is: two for its count, and its controller.
fn in_three(view: View) -> u32
    requires { view_ok view ≡ true }
    ensures { result ≡ view.count.number * 256 + view.controller.number }
{
    view.count.number as u32 * 256 + view.controller.number as u32
}

// Writes a number as four bytes, highest first.
fn write_four(memory: &mut [u8], number: u32)
    requires { length memory.old ≡ 4 }
    ensures { memory.new ≡ number / 16777216 ∷ number / 65536 % 256 ∷ number / 256 % 256 ∷ number % 256 ∷ [] }
{
    *memory.as_mut_array().unwrap() = number.to_be_bytes();
}

// The view of a count in two bytes, highest first, and a controller.
fn view_in(high: u8, low: u8, controller: u8) -> View
    ensures { result ≡ view_of (high * 256 + low) controller }
{
    View::of(u16::from_be_bytes([high, low]), u16::from(controller))
}
