// LDG and the stores. Each is judged, recorded and carried out in one pass; nothing is written before the last refusal is excluded.
ghost use Rattle.std.specs.Prelude.{◌≡◌, ◌+◌, ◌*◌, ◌%◌, ◌^◌, ◌<◌, ◌≤◌, true, length, if◌then◌else◌, ◌==◌, slice_index};
ghost use Rattle.std.proofs.lemmas.List.Edits.{sets};
ghost use Rattle.bits.specs.Fields.{bits_at};
ghost use Rattle.isa.specs.Decoding.{decode_of, ldg_at, stgp_at, tag_store_at};
ghost use Rattle.memory.specs.Sizes.{sizes_ok};
ghost use Rattle.machine.specs.Loans.{SameLoans};
ghost use Rattle.instructions.specs.Inside.Effects.{new_bytes, new_tags, writes};
ghost use Rattle.history.specs.Recording.{entry_for, old_word};
ghost use Rattle.execution.specs.Inside.Taking.{Took, change_in, decoded_taken, loaded_in, op_in, recorded, state_in, store_taken, zeroed_if};
ghost use Rattle.execution.specs.Simulation.{standing, well_formed};

use super::register_words;
use history::Entry;
use instructions::{accesses, tag_load};
use isa::{Mode, decoder};
use machine::{Code, Setup};
use tag::Tag;

// What becomes of the data of a store's granules.
#[derive(Clone, Copy)]
enum DataChange {
    Kept,
    Zeroed,
    Pair(u64, u64),
}

// A store: its mode, base register and amount, how many granules it names, their tag, and what becomes of their data.
#[derive(Clone, Copy)]
struct Store {
    mode: Mode,
    n: u64,
    amount: u64,
    granules: usize,
    tag: Tag,
    change: DataChange,
}

// The value that LDG gives its register, or the refusal.
fn loaded(setup: &Setup<'_>, w: u64) -> Result<u64, Code>
    requires { sizes_ok setup.now.machine.settings.base (16 * length setup.now.tags.now) (length setup.now.tags.now) ≡ true }
    ensures { result ≡ loaded_in w (state_in setup.now) }
{
    let t = bits::field(w, 0, 5);
    let n = bits::field(w, 5, 5);
    let amount = decoder::signed(bits::field(w, 12, 9), 256);
    let settings = setup.machine.settings;
    let rn = setup.machine.registers.x_or_sp(n);
    let i = accesses::place_load(settings, setup.tags.len(), n, rn, amount)?;
    let tag = tag_load::load(settings, setup.tags, i);
    Ok(tag.put_in(setup.machine.registers.x_or_zero(t)))
}

// LDG.
#[inline(always)]
fn ldg(setup: &mut Setup<'_>, w: u64, history: &mut [u64]) -> Result<(), Code>
    requires { well_formed (standing setup.old history.old) ≡ true }
    ensures loans { SameLoans setup.old setup.new }
    ensures taken { let after = standing setup.new history.new in
        Took result (decoded_taken (Some (ldg_at w))) (standing setup.old history.old) after }
{
    let v = loaded(setup, w)?;
    register_words::set(setup, machine::or_none(bits::field(w, 0, 5)), v, history);
    Ok(())
}

// A word of old data, 0 where it is not in use.
fn old_word(bytes: &[u8], at: usize, used: bool) -> u64
    requires { used ≡ true → at + 8 ≤ length bytes.now }
    ensures { result ≡ old_word used bytes.now at }
{
    if used {
        bits::load_word(&bytes[at..])
    } else {
        0
    }
}

// The old tag byte of a granule, 0 where it is not in use.
fn old_tag(tags: &[u8], i: usize, used: bool) -> u8
    requires { used ≡ true → i < length tags.now }
    ensures { result ≡ (if used then slice_index tags.now i else 0) }
{
    if used { tags[i] } else { 0 }
}

// What a store is about to change: a register and granules, with their data or without.
fn entry_for(setup: &Setup<'_>, register: u64, granules: usize, first: usize, saves: bool) -> Entry
    requires le_granules { 1 ≤ granules }
    requires granules_bound { granules ≤ 2 }
    requires granules_in_bounds { first + granules ≤ length setup.now.tags.now }
    requires bytes_len { length setup.now.bytes.now ≡ 16 * length setup.now.tags.now }
    ensures { result ≡ entry_for register granules first saves (state_in setup.now) }
{
    let two = 1 < granules;
    let at = 16 * first;
    let second = old_tag(setup.tags, first + 1, two);
    Entry {
        register,
        granules,
        saved: saves,
        tags: [setup.tags[first], second],
        status: setup.machine.registers.status,
        value: setup.machine.registers.x_or_sp(register),
        first,
        data: [
            old_word(setup.bytes, at, saves),
            old_word(setup.bytes, at + 8, saves),
            old_word(setup.bytes, at + 16, saves && two),
            old_word(setup.bytes, at + 24, saves && two),
        ],
    }
}

// Records a register and granules, with their data or without.
#[inline(always)]
fn record(
    setup: &mut Setup<'_>,
    register: u64,
    granules: usize,
    first: usize,
    saves: bool,
    history: &mut [u64],
)
    requires register_bound { register ≤ 32 }
    requires le_granules { 1 ≤ granules }
    requires granules_bound { granules ≤ 2 }
    requires granules_in_bounds { first + granules ≤ length setup.old.tags.now }
    requires formed { well_formed (standing setup.old history.old) ≡ true }
    ensures loans { SameLoans setup.old setup.new }
    ensures taken { standing setup.new history.new ≡ recorded register granules first saves (standing setup.old history.old) }
{
    if history.len() < 8 {
        return;
    }
    let entry = entry_for(setup, register, granules, first, saves);
    history::push(history, &mut setup.machine.cursor, entry.words());
}

// Changes the data of granules from first on.
fn change_data(bytes: &mut [u8], first: usize, granules: usize, change: DataChange)
    requires le_granules { 1 ≤ granules }
    requires granules_in_bounds { 16 * (first + granules) ≤ length bytes.old }
    ensures { bytes.new ≡ sets bytes.old (16 * first) (new_bytes (change_in change) granules) }
{
    let at = 16 * first;
    match change {
        DataChange::Kept => {},
        DataChange::Zeroed => memory::zero(&mut bytes[at..], granules),
        DataChange::Pair(low, high) => memory::store_pair(&mut bytes[at..], low, high),
    }
}

// Gives granules from first on a tag, or leaves theirs.
fn tag_if(tags: &mut [u8], first: usize, granules: usize, tagged: bool, tag: Tag)
    requires le_granules { 1 ≤ granules }
    requires granules_bound { granules ≤ 2 }
    requires granules_in_bounds { first + granules ≤ length tags.old }
    ensures { tags.new ≡ sets tags.old first (new_tags granules tagged tag.value) }
{
    if tagged {
        memory::store_tags(tags, first, granules, tag.value);
    }
}

// Whether data is written.
fn writes(change: DataChange) -> bool
    ensures { result ≡ writes (change_in change) }
{
    match change {
        DataChange::Kept => false,
        DataChange::Zeroed | DataChange::Pair(_, _) => true,
    }
}

// Judges a store, records it and carries it out. It is compiled for each of the four tag stores and for STGP.
#[inline(always)]
fn carry_out(setup: &mut Setup<'_>, e: Store, history: &mut [u64]) -> Result<(), Code>
    requires register_bound { e.n < 32 }
    requires amount_whole { e.amount % 16 ≡ 0 }
    requires le_granules { 1 ≤ e.granules }
    requires granules_bound { e.granules ≤ 2 }
    requires formed { well_formed (standing setup.old history.old) ≡ true }
    ensures loans { SameLoans setup.old setup.new }
    ensures taken { let after = standing setup.new history.new in
        Took result (store_taken e) (standing setup.old history.old) after }
{
    let settings = setup.machine.settings;
    let rn = setup.machine.registers.x_or_sp(e.n);
    let address = accesses::address_of(e.mode, rn, e.amount);
    let first = accesses::place(settings, setup.tags.len(), e.n, rn, address, e.granules)?;
    let register = accesses::writeback_to(e.mode, e.n);
    record(
        setup,
        register,
        e.granules,
        first,
        writes(e.change),
        history,
    );
    change_data(setup.bytes, first, e.granules, e.change);
    tag_if(setup.tags, first, e.granules, settings.access, e.tag);
    let value = rn.wrapping_add(e.amount);
    setup.machine.registers.write(register, value);
    Ok(())
}

// A tag store, of which it is known what becomes of the data: two granules if bit 23 is one.
#[inline(always)]
fn tag_store_with(
    setup: &mut Setup<'_>,
    mode: Mode,
    change: DataChange,
    w: u64,
    history: &mut [u64],
) -> Result<(), Code>
    requires change { change_in change ≡ zeroed_if (bits_at w 22 1 == 1) }
    requires formed { well_formed (standing setup.old history.old) ≡ true }
    ensures loans { SameLoans setup.old setup.new }
    ensures taken { let after = standing setup.new history.new in
        Took result (decoded_taken (Some (tag_store_at (op_in w) mode w))) (standing setup.old history.old) after }
{
    let t = bits::field(w, 0, 5);
    let e = Store {
        mode,
        n: bits::field(w, 5, 5),
        amount: decoder::signed(bits::field(w, 12, 9), 256),
        granules: 1,
        tag: Tag::of(setup.machine.registers.x_or_sp(t)),
        change,
    };
    if bits::field(w, 23, 1) == 1 {
        carry_out(setup, Store { granules: 2, ..e }, history)
    } else {
        carry_out(setup, e, history)
    }
}

// STG, STZG, ST2G, STZ2G: the data is zeroed if bit 22 is one. So each of the four is compiled by itself: a run of them takes a tenth less.
#[inline(always)]
fn tag_store(setup: &mut Setup<'_>, mode: Mode, w: u64, history: &mut [u64]) -> Result<(), Code>
    requires { well_formed (standing setup.old history.old) ≡ true }
    ensures loans { SameLoans setup.old setup.new }
    ensures taken { let after = standing setup.new history.new in
        Took result (decoded_taken (Some (tag_store_at (op_in w) mode w))) (standing setup.old history.old) after }
{
    if bits::field(w, 22, 1) == 1 {
        tag_store_with(setup, mode, DataChange::Zeroed, w, history)
    } else {
        tag_store_with(setup, mode, DataChange::Kept, w, history)
    }
}

// STGP. The tag is that of the address, not of the base register.
#[inline(always)]
pub(crate) fn stgp(
    setup: &mut Setup<'_>,
    mode: Mode,
    w: u64,
    history: &mut [u64],
) -> Result<(), Code>
    requires { well_formed (standing setup.old history.old) ≡ true }
    ensures loans { SameLoans setup.old setup.new }
    ensures taken { let after = standing setup.new history.new in
        Took result (decoded_taken (Some (stgp_at mode w))) (standing setup.old history.old) after }
{
    let t = bits::field(w, 0, 5);
    let t2 = bits::field(w, 10, 5);
    let n = bits::field(w, 5, 5);
    let amount = decoder::signed(bits::field(w, 15, 7), 64);
    let registers = &setup.machine.registers;
    let address = accesses::address_of(mode, registers.x_or_sp(n), amount);
    let low = registers.x_or_zero(t);
    let high = registers.x_or_zero(t2);
    let e = Store {
        mode,
        n,
        amount,
        granules: 1,
        tag: Tag::of(address),
        change: DataChange::Pair(low, high),
    };
    carry_out(setup, e, history)
}

// LDG and the tag stores, whose bits 31:24 are known: bit 21 is one, and bits 11:10 are the mode or, for LDG, zero.
#[inline(always)]
pub(crate) fn memory_tags(setup: &mut Setup<'_>, w: u64, history: &mut [u64]) -> Result<(), Code>
    requires w_bound { w < 2 ^ 32 }
    requires w_value { bits_at w 24 8 ≡ 0xD9 }
    requires formed { well_formed (standing setup.old history.old) ≡ true }
    ensures loans { SameLoans setup.old setup.new }
    ensures taken { let after = standing setup.new history.new in
        Took result (decoded_taken (decode_of w)) (standing setup.old history.old) after }
{
    let mode = bits::field(w, 10, 2);
    if bits::field(w, 21, 1) == 0 {
        Err(Code::Undefined)
    } else if mode != 0 {
        tag_store(setup, decoder::mode_of(mode), w, history)
    } else if bits::field(w, 22, 2) == 1 {
        ldg(setup, w, history)
    } else {
        Err(Code::Undefined)
    }
}
