// Reads the fields of a text by a template: loosely, since whoever asks writes the line anew to see whether it is that text.
ghost use Rattle.std.specs.Prelude.{ℕ, List, ◌≡◌, ◌+◌, ◌∷◌, get_or, drop, option_and_then};
ghost use Rattle.templates.specs.Inside.Matching.{no_fields, row_from};
ghost use Rattle.templates.specs.Inside.Reading.{Got, IsRead, read_decimal, read_register, negative, read_amount, read_as, with_register, set_as, read_by};
ghost use Rattle.templates.specs.Templates.{templates};

use super::{Fields, Piece};

// The row of the template that reads a text, with the fields that it reads.
#[derive(Clone, Copy, Debug, PartialEq, Eq)]
pub struct Reading {
    pub row: usize,
    pub fields: Fields,
}

// A number that is read, and the text behind it.
#[derive(Clone, Copy)]
struct Number<'a> {
    value: u64,
    rest: &'a [u8],
}

// What reading on by one byte of a template comes to: the text behind what was read, and the fields.
#[derive(Clone, Copy)]
struct Turn<'a> {
    rest: &'a [u8],
    fields: Fields,
}

// The byte at at, and 0 behind the end.
fn byte_at(s: &[u8], at: usize) -> u8
    ensures { result ≡ get_or s.now at 0 }
{
    s.get(at).copied().unwrap_or(0)
}

// A text without its first so many bytes.
fn behind(s: &[u8], count: usize) -> &[u8]
    ensures { result.now ≡ drop count s.now }
{
    s.get(count..).unwrap_or(b"")
}

// The number whose digits a text begins with.
#[tactic(auto, unfolding(crate::specs::Inside::Reading::read_decimal))]
fn decimal(s: &[u8]) -> Number<'_>
    ensures { IsRead result.value result.rest.now (read_decimal 0 s.now) }
{
    let mut value = 0;
    let mut rest = s;
    while let Some((&b, others)) = rest.split_first() {
        if 999_999_999_999_999_999 < value || !b.is_ascii_digit() {
            break;
        }
        value = value * 10 + u64::from(b - b'0');
        rest = others;
    }
    Number { value, rest }
}

// The register whose name a text begins with.
#[tactic(auto, unfolding(crate::specs::Inside::Reading::read_register))]
fn register(s: &[u8]) -> Number<'_>
    ensures { IsRead result.value result.rest.now (read_register s.now) }
{
    if byte_at(s, 0) == b's' {
        Number {
            value: 31,
            rest: behind(s, 2),
        }
    } else if byte_at(s, 1) == b'z' {
        Number {
            value: 31,
            rest: behind(s, 3),
        }
    } else {
        decimal(behind(s, 1))
    }
}

// The amount that a text begins with, with its sign, modulo 2^64.
#[tactic(auto, unfolding(crate::specs::Inside::Reading::read_amount))]
fn amount(s: &[u8]) -> Number<'_>
    ensures { IsRead result.value result.rest.now (read_amount s.now) }
{
    if byte_at(s, 0) == b'-' {
        let n = decimal(behind(s, 1));
        Number {
            value: n.value.wrapping_neg(),
            rest: n.rest,
        }
    } else {
        decimal(s)
    }
}

// The field of a kind that a text begins with.
#[tactic(auto, unfolding(crate::specs::Inside::Reading::read_as))]
fn field(s: &[u8], piece: Piece) -> Number<'_>
    ensures { IsRead result.value result.rest.now (read_as piece s.now) }
{
    match piece {
        Piece::Literal => Number { value: 0, rest: s },
        Piece::SpRegister | Piece::ZeroRegister => register(s),
        Piece::Amount => amount(s),
        Piece::TagOffset => decimal(s),
    }
}

#[tactic(auto, unfolding(crate::specs::Inside::Reading::with_register))]
fn with_register(l: u8, v: u64, f: Fields) -> Fields
    ensures { result ≡ with_register l v f }
{
    match l {
        b'A' | b'X' => Fields { first: v, ..f },
        b'B' | b'Y' => Fields { second: v, ..f },
        b'C' | b'Z' => Fields { third: v, ..f },
        _ => f,
    }
}

// The fields with the one set that a letter names.
#[tactic(auto, unfolding(crate::specs::Inside::Reading::set_as))]
fn with_field(piece: Piece, l: u8, v: u64, f: Fields) -> Fields
    ensures { result ≡ set_as piece l v f }
{
    match piece {
        Piece::Literal => f,
        Piece::SpRegister | Piece::ZeroRegister => with_register(l, v, f),
        Piece::Amount => Fields { amount: v, ..f },
        Piece::TagOffset => Fields { offset: v, ..f },
    }
}

// Reads on by one byte of a template.
#[tactic(auto, unfolding(crate::specs::Inside::Reading::read_by))]
fn read_on(s: &[u8], l: u8, f: Fields) -> Option<Turn<'_>>
    ensures { (t : List ℕ) → read_by (l ∷ t) s.now f ≡ option_and_then (λ turn. read_by t turn.rest.now turn.fields) result }
{
    let piece = super::piece_of(l);
    if piece == Piece::Literal {
        (l == byte_at(s, 0)).then_some(Turn {
            rest: behind(s, 1),
            fields: f,
        })
    } else {
        let n = field(s, piece);
        Some(Turn {
            rest: n.rest,
            fields: with_field(piece, l, n.value, f),
        })
    }
}

// Reads a text by a template.
#[tactic(auto, unfolding(crate::specs::Inside::Reading::read_by))]
fn read_by(s: &[u8], template: &[u8]) -> Option<Fields>
    ensures { result ≡ read_by template.now s.now no_fields }
{
    let mut rest = s;
    let mut fields = Fields::default();
    for &l in template {
        let turn = read_on(rest, l, fields)?;
        rest = turn.rest;
        fields = turn.fields;
    }
    Some(fields)
}

// The first template that reads a text.
#[tactic(auto, unfolding(crate::specs::Inside::Matching::row_from))]
pub fn first_row(s: &[u8]) -> Option<Reading>
    ensures { result ≡ row_from templates s.now 0 }
{
    for (row, template) in super::TEMPLATES.iter().enumerate() {
        if let Some(fields) = read_by(s, template) {
            return Some(Reading { row, fields });
        }
    }
    None
}
