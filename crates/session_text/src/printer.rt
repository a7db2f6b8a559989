// Prints what a session comes to. Each function answers the place behind what it put.
ghost use Rattle.std.specs.Prelude.{◌≡◌, ◌+◌, ◌≤◌, length};
ghost use Rattle.std.proofs.lemmas.List.Edits.{sets};
ghost use Rattle.session_text.specs.Printing.{answer_lines, bad_text, register_lines, report_text};

use machine::{Code, Registers};
use simulator::Ran;

// Puts the number of a wrong line at the start of out.
#[tactic(auto, unfolding(crate::specs::Printing::bad_text))]
pub(crate) fn put_bad(out: &mut [u8], number: usize) -> usize
    requires { 9 ≤ length out.old }
    ensures value { result ≡ 9 }
    ensures out_after { out.new ≡ sets out.old 0 (bad_text number) }
{
    text::put_line(out, 0, b"bad=", 4, number as u64)
}

// Puts how many words were done and the code at the start of out.
fn put_answer(out: &mut [u8], count: usize, code: Code) -> usize
    requires { 17 ≤ length out.old }
    ensures value { result ≡ 17 }
    ensures out_after { out.new ≡ sets out.old 0 (answer_lines count code) }
{
    let at = text::put_line(out, 0, b"done=", 4, count as u64);
    text::put_line(out, at, b"code=", 1, u64::from(u32::from(code)))
}

// Puts X0, X1, X2 and SP at at.
fn put_registers(out: &mut [u8], at: usize, x: &[u64; 32]) -> usize
    requires { at + 80 ≤ length out.old }
    ensures value { result ≡ at + 80 }
    ensures out_after { out.new ≡ sets out.old at (register_lines x.now) }
{
    let x1 = text::put_line(out, at, b"x0=", 16, x[0]);
    let x2 = text::put_line(out, x1, b"x1=", 16, x[1]);
    let sp = text::put_line(out, x2, b"x2=", 16, x[2]);
    text::put_line(out, sp, b"sp=", 16, x[31])
}

// Puts what is printed of a run at the start of out.
pub(crate) fn put_report(out: &mut [u8], ran: Ran, registers: &Registers, tags: &[u8]) -> usize
    requires { 110 + length tags.now ≤ length out.old }
    ensures value { result ≡ 110 + length tags.now }
    ensures out_after { out.new ≡ sets out.old 0 (report_text ran.count ran.code registers.now tags.now) }
{
    let x0 = put_answer(out, ran.count, ran.code);
    let nzcv = put_registers(out, x0, &registers.x);
    let digits = text::put_line(out, nzcv, b"nzcv=", 1, u64::from(registers.status.nzcv));
    text::put_digits_line(out, digits, b"tags=", tags)
}
