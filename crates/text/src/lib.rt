// Texts of keys and hex numbers: a key, a number of a fixed count of lower-case digits, and a line of both, each read at a place
// of a text and put at one. What has a `requires` is public because the other crates call it with places that they know to be
// in range and with counts of digits that they fix.
#![tactic(auto)]

ghost use Rattle.std.specs.Prelude.{cond, ◌≡◌, ◌+◌, ◌≤◌, ◌<◌, length, drop};
ghost use Rattle.std.proofs.lemmas.List.Edits.{sets};
ghost use Rattle.text.specs.Hex.{digit_value, digit_of, read_hex, hex_digits, digits_text};
ghost use Rattle.text.specs.Lines.{starts, room_for, framed, line_at, line_text, digits_line};

// A line that stands at a place: its number, and the place after it.
#[derive(Clone, Copy, Debug, PartialEq, Eq)]
pub struct Line {
    pub value: u64,
    pub next: usize,
}

// The number of a lower-case hex digit; no other byte has one.
#[tactic(auto, unfolding(crate::specs::Hex::digit_value))]
fn value(b: u8) -> Option<u64>
    ensures { result ≡ digit_value b }
{
    match b {
        b'0'..=b'9' => Some(u64::from(b - b'0')),
        b'a'..=b'f' => Some(u64::from(b - b'a' + 10)),
        _ => None,
    }
}

// The hex digit of a number.
#[tactic(auto, unfolding(crate::specs::Hex::digit_of))]
fn digit(v: u64) -> u8
    requires { v < 16 }
    ensures { result ≡ digit_of v }
{
    if v < 10 {
        b'0' + v as u8
    } else {
        b'a' + (v as u8 - 10)
    }
}

// The number that the n bytes from at on spell, if they spell one.
pub fn hex_at(s: &[u8], at: usize, n: usize) -> Option<u64>
    requires n_in_bounds { at + n ≤ length s.now }
    requires n_bound { n ≤ 16 }
    ensures { result ≡ read_hex n 0 (drop at s.now) }
{
    let mut v = 0;
    for &b in &s[at..at + n] {
        v = v * 16 + value(b)?;
    }
    Some(v)
}

// Whether the key stands at at.
pub fn key_at(s: &[u8], at: usize, key: &[u8]) -> bool
    requires { at + length key.now ≤ length s.now }
    ensures { result ≡ starts key.now (drop at s.now) }
{
    for (i, k) in key.iter().enumerate() {
        if *k != s[at + i] {
            return false;
        }
    }
    true
}

// Whether the key, n bytes and a line feed stand at at.
#[tactic(auto, unfolding(crate::specs::Lines::framed))]
fn frame(s: &[u8], at: usize, key: &[u8], n: usize) -> bool
    requires { n ≤ 16 }
    ensures { result ≡ framed key.now n s.now at }
{
    let size = key.len() + n + 1;
    size <= s.len() && at <= s.len() - size && key_at(s, at, key) && s[at + key.len() + n] == b'\n'
}

// The line at at: the key, n digits of a number of at most most, a line feed. The place may be any; the count of digits is the
// caller's and fits a number.
#[tactic(auto, using(crate::proofs::Framing::frame_fits))]
pub fn line_at(s: &[u8], at: usize, key: &[u8], n: usize, most: u64) -> Option<Line>
    requires { n ≤ 16 }
    ensures { result ≡ line_at key.now n most s.now at }
{
    if !frame(s, at, key, n) {
        return None;
    }
    let digits = at + key.len();
    let value = hex_at(s, digits, n)?;
    let next = digits + n + 1;
    if value <= most {
        Some(Line { value, next })
    } else {
        None
    }
}

// Puts the last n hex digits of v at at.
pub fn put_hex(out: &mut [u8], at: usize, n: usize, v: u64)
    requires { at + n ≤ length out.old }
    ensures { out.new ≡ sets out.old at (hex_digits n v) }
{
    let mut rest = v;
    for i in (0..n).rev() {
        out[at + i] = digit(rest % 16);
        rest /= 16;
    }
}

// Puts the bytes of t at at, one by one: `copy_from_slice` would make the archives for C need another name from outside.
pub fn put_bytes(out: &mut [u8], at: usize, t: &[u8])
    requires { at + length t.now ≤ length out.old }
    ensures { out.new ≡ sets out.old at t.now }
{
    for (i, b) in t.iter().enumerate() {
        out[at + i] = *b;
    }
}

// Puts the bytes of t at at if they fit in the room left there, and answers whether they did.
#[tactic(auto, unfolding(crate::specs::Lines::room_for))]
pub fn put_if_room(out: &mut [u8], at: usize, t: &[u8]) -> bool
    ensures value { result ≡ room_for out.old at t.now }
    ensures out_after { out.new ≡ cond result (sets out.old at t.now) out.old }
{
    if out.len() < at || out.len() - at < t.len() {
        return false;
    }
    put_bytes(out, at, t);
    true
}

// Puts the digit of the low four bits of each byte of t at at.
fn put_digits(out: &mut [u8], at: usize, t: &[u8])
    requires { at + length t.now ≤ length out.old }
    ensures { out.new ≡ sets out.old at (digits_text t.now) }
{
    for (i, b) in t.iter().enumerate() {
        out[at + i] = digit(u64::from(*b % 16));
    }
}

// Puts the line of a number of n digits at at, and answers the place after it.
#[tactic(auto, using(crate::proofs::Writing::line_put))]
pub fn put_line(out: &mut [u8], at: usize, key: &[u8], n: usize, v: u64) -> usize
    requires { at + (length key.now + n + 1) ≤ length out.old }
    ensures value { result ≡ at + (length key.now + n + 1) }
    ensures out_after { out.new ≡ sets out.old at (line_text key.now n v) }
{
    put_bytes(out, at, key);
    let digits = at + key.len();
    put_hex(out, digits, n, v);
    out[digits + n] = b'\n';
    digits + n + 1
}

// Puts the line of one digit for each byte of t at at, and answers the place after it.
#[tactic(auto, using(crate::proofs::Writing::digits_line_put))]
pub fn put_digits_line(out: &mut [u8], at: usize, key: &[u8], t: &[u8]) -> usize
    requires { at + (length key.now + length t.now + 1) ≤ length out.old }
    ensures value { result ≡ at + (length key.now + length t.now + 1) }
    ensures out_after { out.new ≡ sets out.old at (digits_line key.now t.now) }
{
    put_bytes(out, at, key);
    let digits = at + key.len();
    put_digits(out, digits, t);
    out[digits + t.len()] = b'\n';
    digits + t.len() + 1
}
