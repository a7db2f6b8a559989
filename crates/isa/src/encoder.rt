// The word of a form, and whether its fields are in range.
ghost use Rattle.std.specs.Prelude.{◌≡◌, true, ◌+◌, ◌*◌, ◌^◌, ◌<◌};
ghost use Rattle.bits.specs.Fields.{bits_at};
ghost use Rattle.isa.specs.Encoding.{amount_in, fields_fit};
ghost use Rattle.isa.specs.Words.{add_sub_bits, two_source_bits, tag_store_bits, mode_bits, stgp_bits, granule_count, word_of};

use super::{AddSubOp, Form, Mode, TagStoreOp, TwoSourceOp};

// Whether an amount is a whole number of granules, from `low` below zero to `high`.
fn amount_in(low: u64, high: u64, amount: u64) -> bool
    ensures { result ≡ amount_in low high amount }
{
    amount.is_multiple_of(16) && (amount <= high || amount.wrapping_neg() <= low)
}

// Whether each field of a form is in its range.
pub(crate) fn fits(f: Form) -> bool
    ensures { result ≡ fields_fit f }
{
    match f {
        Form::AddSub {
            d,
            n,
            amount,
            offset,
            ..
        } => d <= 31 && n <= 31 && offset <= 15 && amount_in(0, 1008, amount),
        Form::TwoSource { d, n, m, .. } => d <= 31 && n <= 31 && m <= 31,
        Form::Ldg { t, n, amount } | Form::TagStore { t, n, amount, .. } => {
            t <= 31 && n <= 31 && amount_in(4096, 4080, amount)
        }
        Form::Stgp {
            t,
            t2,
            n,
            amount,
            ..
        } => t <= 31 && t2 <= 31 && n <= 31 && amount_in(1024, 1008, amount),
    }
}

// Fixed bits, as the table has them.

fn add_sub_bits(op: AddSubOp) -> u64
    ensures { result ≡ add_sub_bits op }
{
    match op {
        AddSubOp::Addg => 0x9180_0000,
        AddSubOp::Subg => 0xD180_0000,
    }
}

fn two_source_bits(op: TwoSourceOp) -> u64
    ensures { result ≡ two_source_bits op }
{
    match op {
        TwoSourceOp::Subp => 0x9AC0_0000,
        TwoSourceOp::Subps => 0xBAC0_0000,
        TwoSourceOp::Irg => 0x9AC0_1000,
        TwoSourceOp::Gmi => 0x9AC0_1400,
    }
}

fn tag_store_bits(op: TagStoreOp) -> u64
    ensures { result ≡ tag_store_bits op }
{
    match op {
        TagStoreOp::Stg => 0xD920_0000,
        TagStoreOp::Stzg => 0xD960_0000,
        TagStoreOp::St2g => 0xD9A0_0000,
        TagStoreOp::Stz2g => 0xD9E0_0000,
    }
}

fn mode_bits(mode: Mode) -> u64
    ensures { result ≡ mode_bits mode }
{
    match mode {
        Mode::Post => 1,
        Mode::Pre => 3,
        Mode::Offset => 2,
    }
}

fn stgp_bits(mode: Mode) -> u64
    ensures { result ≡ stgp_bits mode }
{
    match mode {
        Mode::Post => 0x6880_0000,
        Mode::Pre => 0x6980_0000,
        Mode::Offset => 0x6900_0000,
    }
}

// A word whose bits 9:0 are zero, with its two low registers, at 9:5 and 4:0.
fn with_registers(high: u64, n: u64, d: u64) -> u32
    requires high_bound { high < 2 ^ 32 }
    requires high_value { bits_at high 0 10 ≡ 0 }
    requires n_bound { n < 32 }
    requires d_bound { d < 32 }
    ensures { result ≡ high + n * 2 ^ 5 + d }
{
    bits::put(bits::put(high, 5, 5, n), 0, 5, d) as u32
}

fn add_sub_word(op: AddSubOp, d: u64, n: u64, amount: u64, offset: u64) -> u32
    requires { fields_fit (Form.AddSub op d n amount offset) ≡ true }
    ensures { result ≡ word_of (Form.AddSub op d n amount offset) }
{
    let w = bits::put(add_sub_bits(op), 16, 6, bits::field(amount, 4, 6));
    with_registers(bits::put(w, 10, 4, offset), n, d)
}

fn two_source_word(op: TwoSourceOp, d: u64, n: u64, m: u64) -> u32
    requires { fields_fit (Form.TwoSource op d n m) ≡ true }
    ensures { result ≡ word_of (Form.TwoSource op d n m) }
{
    with_registers(bits::put(two_source_bits(op), 16, 5, m), n, d)
}

// LDG and the tag stores; the mode of LDG is 0.
fn memory_tags_word(fixed: u64, mode: u64, t: u64, n: u64, amount: u64) -> u32
    requires fixed_bound { fixed < 2 ^ 32 }
    requires fixed_value { bits_at fixed 0 21 ≡ 0 }
    requires mode_bound { mode < 4 }
    requires t_bound { t < 32 }
    requires n_bound { n < 32 }
    ensures { result ≡ fixed + granule_count 9 amount * 2 ^ 12 + mode * 2 ^ 10 + n * 2 ^ 5 + t }
{
    let w = bits::put(fixed, 12, 9, bits::field(amount, 4, 9));
    with_registers(bits::put(w, 10, 2, mode), n, t)
}

fn stgp_word(mode: Mode, t: u64, t2: u64, n: u64, amount: u64) -> u32
    requires { fields_fit (Form.Stgp mode t t2 n amount) ≡ true }
    ensures { result ≡ word_of (Form.Stgp mode t t2 n amount) }
{
    let w = bits::put(stgp_bits(mode), 15, 7, bits::field(amount, 4, 7));
    with_registers(bits::put(w, 10, 5, t2), n, t)
}

// The word of a form whose fields are in range.
pub(crate) fn word(f: Form) -> u32
    requires { fields_fit f ≡ true }
    ensures { result ≡ word_of f }
{
    match f {
        Form::AddSub {
            op,
            d,
            n,
            amount,
            offset,
        } => add_sub_word(op, d, n, amount, offset),
        Form::TwoSource { op, d, n, m } => two_source_word(op, d, n, m),
        Form::Ldg { t, n, amount } => memory_tags_word(0xD960_0000, 0, t, n, amount),
        Form::TagStore {
            op,
            mode,
            t,
            n,
            amount,
        } => memory_tags_word(tag_store_bits(op), mode_bits(mode), t, n, amount),
        Form::Stgp {
            mode,
            t,
            t2,
            n,
            amount,
        } => stgp_word(mode, t, t2, n, amount),
    }
}
