// Lines of text made from templates, in which a capital letter stands for a field. What is public has a `requires` where another
// crate of ours calls it with a row or a buffer that it knows to be in range.
#![tactic(auto)]

ghost use Rattle.std.specs.Prelude.{◌≡◌, ◌+◌, ◌≤◌, ◌<◌, length};
ghost use Rattle.std.proofs.lemmas.List.Edits.{sets};
ghost use Rattle.templates.specs.FieldText.{decimal, amount_text, register_text};
ghost use Rattle.templates.specs.Inside.Putting.{Puts};
ghost use Rattle.templates.specs.Templates.{template_at, piece_of, register_of, text_as, filled};

pub mod reader;

// The registers in the order in which a line names them, the amount modulo 2^64, and the tag offset.
#[derive(Clone, Copy, Debug, Default, PartialEq, Eq)]
pub struct Fields {
    pub first: u64,
    pub second: u64,
    pub third: u64,
    pub amount: u64,
    pub offset: u64,
}

// What a byte of a template stands for.
#[derive(Clone, Copy, Debug, PartialEq, Eq)]
pub(crate) enum Piece {
    Literal,
    SpRegister,
    ZeroRegister,
    Amount,
    TagOffset,
}

// The templates, one for each shape of a line.
const TEMPLATES: [&[u8]; 28] = [
    b"addg A, B, #I, #J\n",
    b"subg A, B, #I, #J\n",
    b"subp X, B, C\n",
    b"subps X, B, C\n",
    b"irg A, B, Z\n",
    b"gmi X, B, Z\n",
    b"ldg X, [B]\n",
    b"ldg X, [B, #I]\n",
    b"stg A, [B], #I\n",
    b"stg A, [B, #I]!\n",
    b"stg A, [B]\n",
    b"stg A, [B, #I]\n",
    b"stzg A, [B], #I\n",
    b"stzg A, [B, #I]!\n",
    b"stzg A, [B]\n",
    b"stzg A, [B, #I]\n",
    b"st2g A, [B], #I\n",
    b"st2g A, [B, #I]!\n",
    b"st2g A, [B]\n",
    b"st2g A, [B, #I]\n",
    b"stz2g A, [B], #I\n",
    b"stz2g A, [B, #I]!\n",
    b"stz2g A, [B]\n",
    b"stz2g A, [B, #I]\n",
    b"stgp X, Y, [C], #I\n",
    b"stgp X, Y, [C, #I]!\n",
    b"stgp X, Y, [C]\n",
    b"stgp X, Y, [C, #I]\n",
];

// The template of a row.
fn template_at(row: usize) -> &'static [u8]
    requires { row < 28 }
    ensures { result.now ≡ template_at row }
{
    TEMPLATES[row]
}

// What a byte of a template stands for.
#[tactic(auto, unfolding(crate::specs::Templates::piece_of))]
pub(crate) fn piece_of(l: u8) -> Piece
    ensures { result ≡ piece_of l }
{
    match l {
        b'A'..=b'C' => Piece::SpRegister,
        b'I' => Piece::Amount,
        b'J' => Piece::TagOffset,
        b'X'..=b'Z' => Piece::ZeroRegister,
        _ => Piece::Literal,
    }
}

// The register that a letter names.
#[tactic(auto, unfolding(crate::specs::Templates::register_of))]
fn register_of(l: u8, f: Fields) -> u64
    ensures { result ≡ register_of l f }
{
    match l {
        b'A' | b'X' => f.first,
        b'B' | b'Y' => f.second,
        _ => f.third,
    }
}

// The digit of a number below ten.
fn digit(v: u64) -> u8
    requires { v < 10 }
    ensures { result ≡ 48 + v }
{
    b'0' + v as u8
}

// Each function that puts a text at at answers the place behind it.

// Puts a decimal number, which has at most 20 digits.
#[tactic(auto, using(crate::proofs::Decimals::decimal_one, crate::proofs::Decimals::tenth_short))]
fn put_decimal(out: &mut [u8], at: usize, v: u64) -> usize
    requires { at + 20 ≤ length out.old }
    ensures { Puts out.old at (decimal v) result out.new }
{
    if v < 10 {
        out[at] = digit(v);
        return at + 1;
    }
    let last = put_decimal(out, at, v / 10);
    out[last] = digit(v % 10);
    last + 1
}

// Puts an amount modulo 2^64, with its sign.
#[tactic(auto, unfolding(crate::specs::FieldText::amount_text))]
fn put_amount(out: &mut [u8], at: usize, v: u64) -> usize
    requires { at + 21 ≤ length out.old }
    ensures { Puts out.old at (amount_text v) result out.new }
{
    if v < 1 << 63 {
        put_decimal(out, at, v)
    } else {
        out[at] = b'-';
        put_decimal(out, at + 1, v.wrapping_neg())
    }
}

fn put_name(out: &mut [u8], at: usize, name: &[u8]) -> usize
    requires { at + length name.now ≤ length out.old }
    ensures { Puts out.old at name.now result out.new }
{
    text::put_bytes(out, at, name);
    at + name.len()
}

// Puts a register's name.
#[tactic(auto, unfolding(crate::specs::FieldText::register_text))]
fn put_register(out: &mut [u8], at: usize, r: u64, zero: bool) -> usize
    requires { at + 21 ≤ length out.old }
    ensures { Puts out.old at (register_text zero r) result out.new }
{
    if r < 31 {
        out[at] = b'x';
        put_decimal(out, at + 1, r)
    } else if zero {
        put_name(out, at, b"xzr")
    } else {
        put_name(out, at, b"sp")
    }
}

// Puts what a byte of a template stands for.
#[tactic(auto, unfolding(crate::specs::Templates::text_as))]
fn put_piece(out: &mut [u8], at: usize, l: u8, f: Fields) -> usize
    requires { at + 21 ≤ length out.old }
    ensures { Puts out.old at (text_as (piece_of l) l f) result out.new }
{
    match piece_of(l) {
        Piece::Literal => {
            out[at] = l;
            at + 1
        },
        Piece::SpRegister => put_register(out, at, register_of(l, f), false),
        Piece::ZeroRegister => put_register(out, at, register_of(l, f), true),
        Piece::Amount => put_amount(out, at, f.amount),
        Piece::TagOffset => put_decimal(out, at, f.offset),
    }
}

// Puts the line of a row's template at the start of out, and answers its length.
pub fn put_line(out: &mut [u8], row: usize, f: Fields) -> usize
    requires out_len { length out.old ≡ 504 }
    requires row_bound { row < 28 }
    ensures value { result ≡ length (filled (template_at row) f) }
    ensures out_after { out.new ≡ sets out.old 0 (filled (template_at row) f) }
{
    let mut at = 0;
    for &l in template_at(row) {
        at = put_piece(out, at, l, f);
    }
    at
}
