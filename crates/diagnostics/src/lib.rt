// What the programs that convert a file share: they read it, and write the text that it is converted to on standard output, or on standard
// error why there is none, which is the line and what was expected there (docs/MANUAL.md).
#![tactic(auto)]

ghost use Rattle.assembly.specs.Answers.{LendableText};

use assembly::{Refusal, lines};

// One byte more than the largest file has, so that a larger one is seen.
const ROOM: usize = 0x10_0001;

// What a file has behind the nine lines: a session words, a .s file listing lines.
#[derive(Clone, Copy, Debug, PartialEq, Eq)]
pub enum Source {
    Session,
    Listing,
}

// Tells a line's number, and the line that starts at at.
fn tell_line(rt: &HostRuntime, text: &[u8], number: usize, at: usize) {
    let _ = eprint!(rt; "line {number}");
    let line = lines::line_at(text, at);
    if line.is_empty() {
        stdio::tell(rt, b" is missing\n");
        return;
    }
    if lines::is_ended(line) {
        stdio::tell(rt, b": ");
    } else {
        stdio::tell(rt, b" is not ended: ");
    }
    stdio::tell(rt, lines::without_feed(line));
    stdio::tell(rt, b"\n");
}

// What is expected where so many numbers were read.
fn expected_text(source: Source, expected: usize) -> &'static [u8] {
    match (expected, source) {
        (0, _) => b"expected: base= and 16 lower-case hexadecimal digits\n",
        (1, _) => b"expected: granules= and 4 lower-case hexadecimal digits, at most 0400\n",
        (2, _) => b"expected: access= and 0 or 1\n",
        (3, _) => b"expected: exclude= and 4 lower-case hexadecimal digits\n",
        (4, _) => b"expected: seed= and 4 lower-case hexadecimal digits\n",
        (5, _) => b"expected: x0= and 16 lower-case hexadecimal digits\n",
        (6, _) => b"expected: x1= and 16 lower-case hexadecimal digits\n",
        (7, _) => b"expected: x2= and 16 lower-case hexadecimal digits\n",
        (8, _) => b"expected: sp= and 16 lower-case hexadecimal digits\n",
        (265, _) => b"expected: the end, after 256 words\n",
        (_, Source::Session) => {
            b"expected: word= and 8 lower-case hexadecimal digits, or the end\n"
        },
        (_, Source::Listing) => {
            b"BADLINE, expected: a listing line, as stg x0, [x0], #16, or the end\n"
        },
    }
}

// Tells why a text was refused.
fn tell(rt: &HostRuntime, source: Source, text: &[u8], why: Refusal) {
    match why {
        Refusal::Wrong {
            number,
            expected,
            at,
        } => {
            tell_line(rt, text, number, at);
            stdio::tell(rt, expected_text(source, expected));
        },
        Refusal::Undefined { number, at } => {
            tell_line(rt, text, number, at);
            stdio::tell(
                rt,
                b"UNDEFINED, expected: the word of a modelled instruction\n",
            );
        },
        Refusal::TooLarge => stdio::tell(rt, b"more than 1048576 bytes\n"),
    }
}

// Reads into the room, and hands on what was read.
fn read_into<F: FnOnce(&[u8])>(rt: &HostRuntime, room: &mut [u8], failed: &[u8], convert: F)
    requires { F.IsAlwaysCallable convert }
    ensures { (input : _) × F.post convert input tt }
{
    let n = stdio::read(rt, room, failed);
    convert(&room[..n]);
}

// Lends the array as a slice, here where its type says how long it is.
fn lend<F: FnOnce(&[u8])>(rt: &HostRuntime, room: &mut [u8; ROOM], failed: &[u8], convert: F)
    requires { F.IsAlwaysCallable convert }
    ensures { (input : _) × F.post convert input tt }
{
    read_into(rt, room, failed, convert);
}

// Reads standard input, and hands it to what converts it. A read that fails is told by the line failed.
pub fn with_input<F: FnOnce(&[u8])>(rt: &HostRuntime, failed: &[u8], convert: F)
    requires { F.IsAlwaysCallable convert }
    ensures { (input : _) × F.post convert input tt }
{
    let mut room = [0; ROOM];
    lend(rt, &mut room, failed, convert);
}

// Writes the text that out begins with, or tells why the input was refused. A program calls it with its answer and the buffer that the
// answer speaks of. That bytes are written no contract can say.
pub fn report(
    rt: &HostRuntime,
    source: Source,
    answer: Result<usize, Refusal>,
    input: &[u8],
    out: &[u8],
    failed: &[u8],
)
    requires { LendableText answer out.now }
{
    match answer {
        Ok(n) => stdio::write(&stdio::open(rt), &out[..n], failed),
        Err(why) => tell(rt, source, input, why),
    }
}
