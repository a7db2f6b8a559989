// The forms of a word whose bits 31:22 are known. The module is public because `execution` calls `signed` and `mode_of`.
ghost use Rattle.std.specs.Prelude.{◌≡◌, ◌*◌, ◌<◌, ◌≤◌};
ghost use Rattle.bits.specs.Fields.{bits_at};
ghost use Rattle.isa.specs.Decoding.{signed_amount, two_source_at, tag_store_at, stgp_at};
ghost use Rattle.isa.specs.Inside.DecodingBranches.{add_sub_branch, two_source_branch, subps_branch, ldg_branch, mode_of, mode_branch, if_bit21};

use super::{AddSubOp, Form, Mode, TagStoreOp, TwoSourceOp};

// The bytes of a signed count of granules in a field of 2 * half values.
pub fn signed(imm: u64, half: u64) -> u64
    requires imm_bound { imm < 2 * half }
    requires half_bound { half ≤ 256 }
    ensures { result ≡ signed_amount half imm }
{
    if imm < half {
        imm << 4
    } else {
        ((2 * half - imm) << 4).wrapping_neg()
    }
}

// ADDG, SUBG: bits 15:14 are zero.
pub(crate) fn add_sub(op: AddSubOp, w: u64) -> Option<Form>
    ensures { result ≡ add_sub_branch op w }
{
    if bits::field(w, 14, 2) != 0 {
        return None;
    }
    Some(Form::AddSub {
        op,
        d: bits::field(w, 0, 5),
        n: bits::field(w, 5, 5),
        amount: bits::field(w, 16, 6) << 4,
        offset: bits::field(w, 10, 4),
    })
}

fn registers(op: TwoSourceOp, w: u64) -> Form
    ensures { result ≡ two_source_at op w }
{
    Form::TwoSource {
        op,
        d: bits::field(w, 0, 5),
        n: bits::field(w, 5, 5),
        m: bits::field(w, 16, 5),
    }
}

// SUBP, IRG, GMI: bit 21 is zero, and bits 15:10 tell them apart.
pub(crate) fn two_source(w: u64) -> Option<Form>
    ensures { result ≡ if_bit21 w 0 (two_source_branch (bits_at w 10 6) w) }
{
    if bits::field(w, 21, 1) != 0 {
        return None;
    }
    match bits::field(w, 10, 6) {
        0 => Some(registers(TwoSourceOp::Subp, w)),
        4 => Some(registers(TwoSourceOp::Irg, w)),
        5 => Some(registers(TwoSourceOp::Gmi, w)),
        _ => None,
    }
}

// SUBPS: bits 21 and 15:10 are zero.
pub(crate) fn subps(w: u64) -> Option<Form>
    ensures { result ≡ if_bit21 w 0 (subps_branch (bits_at w 10 6) w) }
{
    let is_subps = bits::field(w, 21, 1) == 0 && bits::field(w, 10, 6) == 0;
    is_subps.then_some(registers(TwoSourceOp::Subps, w))
}

// LDG has the fixed bits of STZG.
fn ldg(op: TagStoreOp, w: u64) -> Option<Form>
    ensures { result ≡ ldg_branch op w }
{
    match op {
        TagStoreOp::Stzg => Some(Form::Ldg {
            t: bits::field(w, 0, 5),
            n: bits::field(w, 5, 5),
            amount: signed(bits::field(w, 12, 9), 256),
        }),
        _ => None,
    }
}

fn tag_store(op: TagStoreOp, mode: Mode, w: u64) -> Form
    ensures { result ≡ tag_store_at op mode w }
{
    Form::TagStore {
        op,
        mode,
        t: bits::field(w, 0, 5),
        n: bits::field(w, 5, 5),
        amount: signed(bits::field(w, 12, 9), 256),
    }
}

// The mode of bits 11:10 that are not zero.
pub fn mode_of(mode: u64) -> Mode
    ensures { result ≡ mode_of mode }
{
    match mode {
        1 => Mode::Post,
        3 => Mode::Pre,
        _ => Mode::Offset,
    }
}

// LDG and the tag stores: bit 21 is one, and bits 11:10 are the mode or, for LDG, zero.
pub(crate) fn memory_tags(op: TagStoreOp, w: u64) -> Option<Form>
    ensures { result ≡ if_bit21 w 1 (mode_branch (bits_at w 10 2) op w) }
{
    if bits::field(w, 21, 1) == 0 {
        return None;
    }
    match bits::field(w, 10, 2) {
        0 => ldg(op, w),
        mode => Some(tag_store(op, mode_of(mode), w)),
    }
}

pub(crate) fn stgp(mode: Mode, w: u64) -> Form
    ensures { result ≡ stgp_at mode w }
{
    Form::Stgp {
        mode,
        t: bits::field(w, 0, 5),
        t2: bits::field(w, 10, 5),
        n: bits::field(w, 5, 5),
        amount: signed(bits::field(w, 15, 7), 64),
    }
}
