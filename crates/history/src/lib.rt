// The history: records of eight words in a ring of slots. Each function is public because our own crates call it, with
// slots and a cursor that they know to be in range.
#![tactic(auto)]

ghost use Rattle.std.specs.Prelude.{false, ◌≡◌, ◌+◌, ◌*◌, ◌%◌, ◌<◌, ◌≤◌, min, length};
ghost use Rattle.std.proofs.lemmas.List.Edits.{sets};
ghost use Rattle.machine.specs.Loans.{SameLoans};
ghost use Rattle.machine.specs.Setup.{slots_of};
ghost use Rattle.machine.specs.State.{with_memory};
ghost use Rattle.history.specs.BadRecords.{malformed};
ghost use Rattle.history.specs.Inside.Slots.{CursorPlaced, data_restored, history_of};
ghost use Rattle.history.specs.Recording.{restored};
ghost use Rattle.history.specs.Records.{entry_in};
ghost use Rattle.history.specs.Ring.{advanced, previous, pushed, retreated};

pub use bad_records::is_malformed;
use machine::{Cursor, Setup, Status};

mod bad_records;
mod records;

// What a record holds: the register with its old value, the granules with their old tags and their old data, and the old status.
// Register 32 is none, and what is not in use is zero.
#[derive(Clone, Copy, Debug, PartialEq, Eq)]
pub struct Entry {
    pub register: u64,
    pub granules: usize,
    pub saved: bool,
    pub tags: [u8; 2],
    pub status: Status,
    pub value: u64,
    pub first: usize,
    pub data: [u64; 4],
}

fn slot_after(next: usize, slots: usize) -> usize
    requires { next < slots }
    ensures { result ≡ (next + 1) % slots }
{
    if next + 1 == slots { 0 } else { next + 1 }
}

#[tactic(auto, unfolding(crate::specs::Ring::previous))]
fn slot_before(next: usize, slots: usize) -> usize
    requires { next < slots }
    ensures { result ≡ previous slots next }
{
    if next == 0 { slots - 1 } else { next - 1 }
}

fn one_more(held: usize, slots: usize) -> usize
    requires { held ≤ slots }
    ensures { result ≡ min (held + 1) slots }
{
    if held == slots { slots } else { held + 1 }
}

// The cursor after a record is written.
#[tactic(auto, unfolding(crate::specs::Ring::advanced))]
pub fn advance(cursor: Cursor, slots: usize) -> Cursor
    requires next_lt_slots { cursor.next < slots }
    requires held_le_slots { cursor.held ≤ slots }
    ensures { result ≡ advanced slots cursor }
{
    Cursor {
        next: slot_after(cursor.next, slots),
        held: one_more(cursor.held, slots),
    }
}

// The cursor after a step back.
#[tactic(auto, unfolding(crate::specs::Ring::retreated))]
pub fn retreat(cursor: Cursor, slots: usize) -> Cursor
    requires next_lt_slots { cursor.next < slots }
    requires le_held { 1 ≤ cursor.held }
    ensures { result ≡ retreated slots cursor }
{
    Cursor {
        next: slot_before(cursor.next, slots),
        held: cursor.held - 1,
    }
}

// Stores a record's words one by one: an array that is copied is laid on the stack first, which each step would pay.
fn write(part: &mut [u64], words: [u64; 8])
    requires { 8 ≤ length part.old }
    ensures { part.new ≡ sets part.old 0 words }
{
    let [word, value, first, a, b, c, d, last] = words;
    part[0] = word;
    part[1] = value;
    part[2] = first;
    part[3] = a;
    part[4] = b;
    part[5] = c;
    part[6] = d;
    part[7] = last;
}

// Writes a record into the slot at the cursor, if there is one, and moves the cursor on.
pub fn push(history: &mut [u64], cursor: &mut Cursor, part: [u64; 8])
    requires { CursorPlaced (slots_of (length history.old)) cursor.old }
    ensures { history_of history.new cursor.new ≡ pushed part (history_of history.old cursor.old) }
{
    let slots = history.len() / 8;
    if slots == 0 {
        return;
    }
    // read once: behind the stores it would be read again
    let place = *cursor;
    write(&mut history[8 * place.next..], part);
    *cursor = advance(place, slots);
}

// Puts back the data that a record holds, if it holds any.
#[tactic(auto, using(memory::proofs::Lists::back_part))]
fn restore_data(bytes: &mut [u8], entry: Entry)
    requires granules_bound { entry.granules ≤ 2 }
    requires granules_in_bounds { 16 * (entry.first + entry.granules) ≤ length bytes.old }
    ensures { bytes.new ≡ data_restored entry bytes.old }
{
    if entry.saved {
        let at = 16 * entry.first;
        memory::restore(&mut bytes[at..], entry.granules, entry.data);
    }
}

// Puts back what a record holds: data, tags, the register and the status.
#[tactic(auto, using(crate::proofs::Rules::accepted), unfolding(crate::specs::Recording::restored, crate::specs::Records::entry_in))]
pub fn restore(setup: &mut Setup<'_>, part: &[u64])
    requires in_bounds { 8 ≤ length part.now }
    requires part_value { malformed (length setup.old.tags.now) part.now ≡ false }
    requires bytes_len { length setup.old.bytes.now ≡ 16 * length setup.old.tags.now }
    ensures loans { SameLoans setup.old setup.new }
    ensures state { with_memory setup.new.machine setup.new.bytes.now setup.new.tags.now
        ≡ restored (entry_in part.now) (with_memory setup.old.machine setup.old.bytes.now setup.old.tags.now) }
    ensures cursor { setup.new.machine.cursor ≡ setup.old.machine.cursor }
{
    let entry = Entry::of_words(part);
    restore_data(setup.bytes, entry);
    memory::restore_tags(setup.tags, entry.first, entry.granules, entry.tags);
    let registers = &mut setup.machine.registers;
    registers.write(entry.register, entry.value);
    registers.status = entry.status;
}
