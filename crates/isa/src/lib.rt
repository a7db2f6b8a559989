// The instruction words of the memory tagging extension: their forms, the decoder and the encoder.
#![tactic(auto)]

ghost use Rattle.std.specs.Prelude.{◌≡◌};
ghost use Rattle.isa.specs.Decoding.{decoded_code, decode_of};
ghost use Rattle.isa.specs.Encoding.{encoded_code, encoded_word, encode_of};

pub mod decoder;
mod encoder;

// Where a store takes its address from the base register, and when the register moves.
#[derive(Clone, Copy, Debug, PartialEq, Eq)]
pub enum Mode {
    Post,
    Pre,
    Offset,
}

// A sum or difference of a pointer and an amount, with a tag offset.
#[derive(Clone, Copy, Debug, PartialEq, Eq)]
pub enum AddSubOp {
    Addg,
    Subg,
}

// An operation on two source registers.
#[derive(Clone, Copy, Debug, PartialEq, Eq)]
pub enum TwoSourceOp {
    Subp,
    Subps,
    Irg,
    Gmi,
}

// A tag store of one or two granules, zeroing the data or not.
#[derive(Clone, Copy, Debug, PartialEq, Eq)]
pub enum TagStoreOp {
    Stg,
    Stzg,
    St2g,
    Stz2g,
}

// An instruction with its fields. d, n, m, t and t2 are register numbers; amounts are bytes, modulo 2^64.
#[derive(Clone, Copy, Debug, PartialEq, Eq)]
pub enum Form {
    AddSub {
        op: AddSubOp,
        d: u64,
        n: u64,
        amount: u64,
        offset: u64,
    },
    TwoSource {
        op: TwoSourceOp,
        d: u64,
        n: u64,
        m: u64,
    },
    Ldg {
        t: u64,
        n: u64,
        amount: u64,
    },
    TagStore {
        op: TagStoreOp,
        mode: Mode,
        t: u64,
        n: u64,
        amount: u64,
    },
    Stgp {
        mode: Mode,
        t: u64,
        t2: u64,
        n: u64,
        amount: u64,
    },
}

// The form of a word, or none.
pub fn decode(w: u32) -> Option<Form>
    ensures { result ≡ decode_of w }
{
    let word = u64::from(w);
    match bits::field(word, 22, 10) {
        0x246 => decoder::add_sub(AddSubOp::Addg, word),
        0x346 => decoder::add_sub(AddSubOp::Subg, word),
        0x26B => decoder::two_source(word),
        0x2EB => decoder::subps(word),
        0x364 => decoder::memory_tags(TagStoreOp::Stg, word),
        0x365 => decoder::memory_tags(TagStoreOp::Stzg, word),
        0x366 => decoder::memory_tags(TagStoreOp::St2g, word),
        0x367 => decoder::memory_tags(TagStoreOp::Stz2g, word),
        0x1A2 => Some(decoder::stgp(Mode::Post, word)),
        0x1A6 => Some(decoder::stgp(Mode::Pre, word)),
        0x1A4 => Some(decoder::stgp(Mode::Offset, word)),
        _ => None,
    }
}

// The code of a word: 0 for one of the forms, 2 for any other.
pub fn word_code(w: u32) -> u32
    ensures { result ≡ decoded_code (decode_of w) }
{
    match decode(w) {
        Some(_) => 0,
        None => 2,
    }
}

// The word of a form, or none where a field is out of range.
#[tactic(auto, unfolding(crate::specs::Encoding::encode_of))]
pub fn encode(f: Form) -> Option<u32>
    ensures { result ≡ encode_of f }
{
    encoder::fits(f).then(|| encoder::word(f))
}

// The code of a form: 0 where it has a word, 8 for a field out of range.
pub fn form_code(f: Form) -> u32
    ensures { result ≡ encoded_code (encode_of f) }
{
    match encode(f) {
        Some(_) => 0,
        None => 8,
    }
}

// The word of a form, or 0 where a field is out of range.
pub fn form_word(f: Form) -> u32
    ensures { result ≡ encoded_word (encode_of f) }
{
    encode(f).unwrap_or(0)
}
