// Fields of a number by shifts and masks, and the bytes of a word.
// Each function is public because the other crates call it with places that they know to be in range.
#![tactic(auto)]

ghost use Rattle.std.specs.Prelude.{◌≡◌, ◌+◌, ◌^◌, ◌<◌, ◌≤◌, length};
ghost use Rattle.std.proofs.lemmas.List.Edits.{sets};
ghost use Rattle.bits.specs.Fields.{bits_at, with_bits};
ghost use Rattle.bits.specs.LittleEndian.{bytes_of, word_from};

// Bits low + width - 1 down to low of w.
pub fn field(w: u64, low: u64, width: u64) -> u64
    requires low_bound { low < 64 }
    requires width_bound { width < 64 }
    ensures { result ≡ bits_at w low width }
{
    (w >> low) & ((1 << width) - 1)
}

// w with v in place of bits low + width - 1 down to low.
pub fn put(w: u64, low: u64, width: u64, v: u64) -> u64
    requires width_bound { low + width < 64 }
    requires v_bound { v < 2 ^ width }
    ensures { result ≡ with_bits w low width v }
{
    let above = low + width;
    ((w >> above) << above) | (v << low) | field(w, 0, low)
}

// Stores a word in the first eight bytes, little-endian.
pub fn store_word(part: &mut [u8], v: u64)
    requires { 8 ≤ length part.old }
    ensures { part.new ≡ sets part.old 0 (bytes_of v) }
{
    let bytes = v.to_le_bytes();
    part[..8].copy_from_slice(&bytes);
}

// The word of the first eight bytes, little-endian.
pub fn load_word(part: &[u8]) -> u64
    requires { 8 ≤ length part.now }
    ensures { result ≡ word_from part.now }
{
    u64::from_le_bytes([
        part[0], part[1], part[2], part[3], part[4], part[5], part[6], part[7],
    ])
}
