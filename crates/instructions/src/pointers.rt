// ADDG, SUBG, SUBP, SUBPS and GMI: pointers and their tags.
ghost use Rattle.std.specs.Prelude.{◌≡◌, ◌<◌};
ghost use Rattle.instructions.specs.RegisterWords.{add_sub_result, chosen_or0, difference, difference_flags, extended, moved, with_tag_bit};

use isa::AddSubOp;
use machine::Settings;
use tag::Tag;

fn moved_by(op: AddSubOp, v: u64, amount: u64) -> u64
    ensures { result ≡ moved op v amount }
{
    match op {
        AddSubOp::Addg => v.wrapping_add(amount),
        AddSubOp::Subg => v.wrapping_sub(amount),
    }
}

fn choose_or_0(settings: Settings, start: Tag, offset: u8) -> Tag
    ensures { result.value ≡ chosen_or0 settings start.value offset settings.exclude }
{
    if settings.access {
        tag::choose(start, offset, settings.exclude)
    } else {
        Tag { value: 0 }
    }
}

// ADDG, SUBG. The start tag is that of the operand before the sum.
pub fn add_sub(settings: Settings, op: AddSubOp, operand: u64, amount: u64, offset: u64) -> u64
    requires { offset < 16 }
    ensures { result ≡ add_sub_result settings op operand amount offset }
{
    let sum = moved_by(op, operand, amount);
    let chosen = choose_or_0(settings, Tag::of(operand), offset as u8);
    chosen.put_in(sum)
}

// A pointer sign-extended from bit 55.
fn extend(v: u64) -> u64
    ensures { result ≡ extended v }
{
    let low = bits::field(v, 0, 56);
    if bits::field(v, 55, 1) == 1 {
        low + 0xff00_0000_0000_0000
    } else {
        low
    }
}

// SUBP, SUBPS: the difference of two pointers.
pub fn subtract(a: u64, b: u64) -> u64
    ensures { result ≡ difference a b }
{
    extend(a).wrapping_sub(extend(b))
}

// SUBPS: NZCV of the difference of two pointers. V is never set: the operands have 56 significant bits.
#[tactic(auto, using(crate::proofs::Differences::no_overflow))]
pub fn flags(a: u64, b: u64) -> u8
    ensures value { result ≡ difference_flags a b }
    ensures upper_bound { result < 16 }
{
    let left = extend(a);
    let right = extend(b);
    let result = left.wrapping_sub(right);
    let n = bits::field(result, 63, 1) as u8;
    let z = u8::from(result == 0);
    let c = u8::from(right <= left);
    n * 8 + z * 4 + c * 2
}

// GMI: a mask with the bit of a pointer's tag set.
pub fn insert(mask: u64, pointer: u64) -> u64
    ensures { result ≡ with_tag_bit mask pointer }
{
    bits::put(mask, u64::from(Tag::of(pointer).value), 1, 1)
}
