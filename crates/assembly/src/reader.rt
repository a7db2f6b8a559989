// Reads the numbers of a .s file.
ghost use Rattle.std.specs.Prelude.{◌≡◌, ◌≤◌, length};
ghost use Rattle.session_lines.specs.LineFormats.{format_of};
ghost use Rattle.session_lines.specs.Parsing.{line_of};
ghost use Rattle.listing.specs.Reading.{read_of};
ghost use Rattle.assembly.specs.Assembling.{content_at, front_content, numbers_from, word_content};
ghost use Rattle.assembly.specs.Inside.Numbers.{Few, read_by};
ghost use Rattle.assembly.specs.SourceLines.{lines_of};

use super::Refusal;
use super::lines::{Lines, passed_over};

// What a line says.
#[derive(Clone, Copy, Debug, PartialEq, Eq)]
enum Content {
    Passed,
    Number(u64),
    Unexpected,
}

// What a line says if it is to be the line of a session's start with index i.
fn front_content(line: &[u8], i: usize) -> Content
    ensures { result ≡ front_content (length line.now) (line_of (format_of i) line.now 0) }
{
    match session_lines::nth_line(line, 0, i) {
        Some(found) if found.next == line.len() => Content::Number(found.value),
        _ => Content::Unexpected,
    }
}

// What a line says if it is to be a listing line.
fn word_content(line: &[u8]) -> Content
    ensures { result ≡ word_content (read_of line.now) }
{
    match listing::read_line(line) {
        Ok(word) => Content::Number(u64::from(word)),
        Err(_) => Content::Unexpected,
    }
}

// What a line says where i numbers were read.
#[tactic(auto, unfolding(crate::specs::Assembling::content_at))]
fn content_of(line: &[u8], i: usize) -> Content
    ensures { result ≡ content_at i line.now }
{
    if passed_over(line) {
        return Content::Passed;
    }
    match i {
        0..=8 => front_content(line, i),
        9..=264 => word_content(line),
        _ => Content::Unexpected,
    }
}

// Reads the lines, puts the numbers of those that count into numbers, and answers how many there are.
pub(crate) fn read_numbers(s: &[u8], numbers: &mut [u64; 265]) -> Result<usize, Refusal>
    requires { length s.now ≤ 1048576 }
    ensures few { Few result }
    ensures numbers_after { read_by result numbers.new ≡ numbers_from 1 0 0 (lines_of s.now) }
{
    let mut at = 0;
    let mut number = 1;
    let mut i = 0;
    for line in Lines(s) {
        match content_of(line, i) {
            Content::Passed => {},
            Content::Number(v) => {
                numbers[i] = v;
                i += 1;
            },
            Content::Unexpected => {
                return Err(Refusal::Wrong {
                    number,
                    expected: i,
                    at,
                });
            },
        }
        at += line.len();
        number += 1;
    }
    if i < 9 {
        return Err(Refusal::Wrong {
            number,
            expected: i,
            at,
        });
    }
    Ok(i)
}
