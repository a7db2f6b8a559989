// The lines of a session, read and put. What has a `requires` is public because the other crates call it with buffers that have
// room for all lines.
#![tactic(auto)]

ghost use Rattle.std.specs.Prelude.{◌&&◌, ◌++◌, ◌≡◌, ◌+◌, ◌≤◌, ◌<◌, leb, length, set};
ghost use Rattle.std.proofs.lemmas.List.Edits.{sets};
ghost use Rattle.session_lines.specs.Inside.Buffers.{Counted, parsed_by};
ghost use Rattle.session_lines.specs.LineFormats.{format_of, line_for, lines_from};
ghost use Rattle.session_lines.specs.Parsing.{ended, line_of, parsed};

use text::Line;

// The first line that is wrong, missing, unended or extra, by its number from 1.
#[derive(Clone, Copy, Debug, PartialEq, Eq)]
pub struct BadLine {
    pub number: usize,
}

// How a line is written: its key with the '=', how many hex digits its number has, and the largest number.
#[derive(Clone, Copy)]
struct Format {
    key: &'static [u8],
    digits: usize,
    most: u64,
}

// The format of the line with index i.
fn nth_format(i: usize) -> Format
    ensures key { result.key.now ≡ (format_of i).key }
    ensures digits { result.digits ≡ (format_of i).digits }
    ensures most { result.most ≡ (format_of i).most }
{
    let (key, digits, most): (&'static [u8], usize, u64) = match i {
        0 => (b"base=", 16, u64::MAX),
        1 => (b"granules=", 4, 0x400),
        2 => (b"access=", 1, 1),
        3 => (b"exclude=", 4, 0xffff),
        4 => (b"seed=", 4, 0xffff),
        5 => (b"x0=", 16, u64::MAX),
        6 => (b"x1=", 16, u64::MAX),
        7 => (b"x2=", 16, u64::MAX),
        8 => (b"sp=", 16, u64::MAX),
        _ => (b"word=", 8, 0xffff_ffff),
    };
    Format { key, digits, most }
}

// The line at at, of the format of the line with index i.
pub fn nth_line(s: &[u8], at: usize, i: usize) -> Option<Line>
    ensures { result ≡ line_of (format_of i) s.now at }
{
    let format = nth_format(i);
    text::line_at(s, at, format.key, format.digits, format.most)
}

// Whether the text may end at at, before the line with index i, and does.
fn ends(s: &[u8], at: usize, i: usize) -> bool
    ensures { result ≡ leb 9 i && ended s.now at }
{
    9 <= i && s.len() <= at
}

// Keeps the number of the line with index i.
fn keep(front: &mut [u64; 9], words: &mut [u32; 256], i: usize, value: u64)
    requires i_bound { i < 265 }
    requires value_bound { value ≤ (format_of i).most }
    ensures { front.new ++ words.new ≡ set (front.old ++ words.old) i value }
{
    if i < 9 {
        front[i] = value;
    } else {
        words[i - 9] = value as u32;
    }
}

// Reads the lines, and answers how many there are; the numbers of the nine go into front and the words into words.
pub fn parse(s: &[u8], front: &mut [u64; 9], words: &mut [u32; 256]) -> Result<usize, BadLine>
    ensures counted { Counted result }
    ensures words_after { parsed_by result (front.new ++ words.new) ≡ parsed s.now }
{
    let mut at = 0;
    for i in 0..265 {
        if ends(s, at, i) {
            return Ok(i);
        }
        let line = nth_line(s, at, i).ok_or(BadLine { number: i + 1 })?;
        keep(front, words, i, line.value);
        at = line.next;
    }
    if s.len() <= at {
        Ok(265)
    } else {
        Err(BadLine { number: 266 })
    }
}

// Puts the line of a number, of the format of the line with index i, at at, and answers the place after it.
fn put_nth_line(out: &mut [u8], at: usize, i: usize, v: u64) -> usize
    requires { at + length (line_for (format_of i) v) ≤ length out.old }
    ensures value { result ≡ at + length (line_for (format_of i) v) }
    ensures out_after { out.new ≡ sets out.old at (line_for (format_of i) v) }
{
    let format = nth_format(i);
    text::put_line(out, at, format.key, format.digits, v)
}

// Puts the lines of numbers, the nine and words, at the start of out, and answers their length.
pub fn put_lines(out: &mut [u8], v: &[u64]) -> usize
    requires { length (lines_from 0 v.now) ≤ length out.old }
    ensures value { result ≡ length (lines_from 0 v.now) }
    ensures out_after { out.new ≡ sets out.old 0 (lines_from 0 v.now) }
{
    let mut at = 0;
    for (i, value) in v.iter().enumerate() {
        at = put_nth_line(out, at, i, *value);
    }
    at
}
