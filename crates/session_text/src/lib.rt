// The session program's work on bytes: what it prints for what it reads.
#![tactic(auto)]

ghost use Rattle.std.specs.Prelude.{List, ◌≡◌, ℕ, length};
ghost use Rattle.std.proofs.lemmas.List.Edits.{sets};
ghost use Rattle.session_text.specs.Inside.Buffers.{Printed};
ghost use Rattle.session_text.specs.Session.{Lendable, ReadOf, answer_text};

mod printer;
mod runner;

use runner::Start;

// Puts what is printed for a whole input at the start of out, and answers its length.
fn answer_whole(input: &[u8], out: &mut [u8; 1134]) -> usize
    ensures { Printed result out.old out.new (answer_text input.now) }
{
    let mut front = [0; 9];
    let mut words = [0; 256];
    match session_lines::parse(input, &mut front, &mut words) {
        Ok(n) => runner::run(Start::of(&front), &words[..n - 9], out),
        Err(line) => printer::put_bad(out, line.number),
    }
}

// Puts what is printed for an input at the start of out, and answers its length. Of the input, 3,733 bytes are enough: room holds
// those that were read. A number of them above 3,733 counts as 3,733.
pub fn answer(room: &[u8; 3733], read: usize, out: &mut [u8; 1134]) -> usize
    ensures lendable { Lendable result out.new }
    ensures by_index { (input : List ℕ) → ReadOf room.now read input → result ≡ length (answer_text input) }
    ensures by_index_2 { (input : List ℕ) → ReadOf room.now read input
        → out.new ≡ sets out.old 0 (answer_text input) }
{
    answer_whole(&room[..read.min(3733)], out)
}
