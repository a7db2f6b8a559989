// A session as a .s file, which has its words as lines of A64 text, and back, on bytes.
#![tactic(auto)]

ghost use Rattle.std.specs.Prelude.{◌≡◌};
ghost use Rattle.assembly.specs.Answers.{LendableText, answered, answer_for};
ghost use Rattle.assembly.specs.Assembling.{assembled, session_of};
ghost use Rattle.assembly.specs.Listing.{listed};

pub mod lines;
mod lister;
mod reader;

// The bytes that a file may have.
const MOST: usize = 0x10_0000;

// Why there is no text. A line's number is from 1; expected tells what had to stand there, by how many numbers stand before it: 0 to 8
// a line of a session's start, 9 to 264 a word, 265 the end. The line starts at at, or is missing there if the text ends.
#[derive(Clone, Copy, Debug, PartialEq, Eq)]
pub enum Refusal {
    Wrong {
        number: usize,
        expected: usize,
        at: usize,
    },
    // a word that is no modelled instruction, in a good session
    Undefined {
        number: usize,
        at: usize,
    },
    // more than 1,048,576 bytes
    TooLarge,
}

// Puts the session of a .s file at the start of out, and answers its length.
pub fn assemble(input: &[u8], out: &mut [u8; 3732]) -> Result<usize, Refusal>
    ensures lendable_text { LendableText result out.new }
    ensures out_after { answered result out.new ≡ answer_for (session_of (assembled input.now)) out.old }
{
    if MOST < input.len() {
        return Err(Refusal::TooLarge);
    }
    let mut numbers = [0; 265];
    let n = reader::read_numbers(input, &mut numbers)?;
    Ok(session_lines::put_lines(out, &numbers[..n]))
}

// Puts the listing of a session at the start of out, its nine lines and a line of A64 text for each word, and answers its length.
pub fn list(input: &[u8], out: &mut [u8; 25748]) -> Result<usize, Refusal>
    ensures lendable_text { LendableText result out.new }
    ensures out_after { answered result out.new ≡ answer_for (listed input.now) out.old }
{
    if MOST < input.len() {
        return Err(Refusal::TooLarge);
    }
    let mut front = [0; 9];
    let mut words = [0; 256];
    match session_lines::parse(input, &mut front, &mut words) {
        Ok(n) => lister::list_numbers(input, &front, &words[..n - 9], out),
        Err(bad) => Err(Refusal::Wrong {
            number: bad.number,
            expected: bad.number - 1,
            at: lines::behind_lines(input, bad.number - 1),
        }),
    }
}
