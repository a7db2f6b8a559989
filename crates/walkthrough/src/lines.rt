// The lines that the walkthrough writes to standard output.
use machine::{Code, Setup};
use simulator::PlayError;
use stdio::Output;

fn write(to: &Output<'_>, bytes: &[u8]) {
    stdio::write(to, bytes, b"walkthrough: cannot write standard output");
}

// The start of a run's line: how many words were done.
pub(crate) fn write_run(to: &Output<'_>, count: usize) {
    let mut out = *b"run, 0 words done";
    text::put_hex(&mut out, 5, 1, count as u64);
    write(to, &out);
}

// The start of a step's line: its word.
pub(crate) fn write_step(to: &Output<'_>, word: u32) {
    let mut out = *b"step 00000000";
    text::put_hex(&mut out, 5, 8, u64::from(word));
    write(to, &out);
}

// The start of a step back's line.
pub(crate) fn write_back(to: &Output<'_>) {
    write(to, b"back");
}

fn code_number(code: Code) -> u64 {
    u64::from(u32::from(code))
}

// The rest of a call's line: its code, and X0 and the tag bytes after it.
pub(crate) fn write_after(to: &Output<'_>, code: Code, setup: &Setup<'_>) {
    let mut out = *b": code 0, x0 = 0000000000000000, tags 00 00 00 00\n";
    text::put_hex(&mut out, 7, 1, code_number(code));
    text::put_hex(&mut out, 15, 16, setup.machine.registers.x[0]);
    for (i, tag) in setup.tags.iter().take(4).enumerate() {
        text::put_hex(&mut out, 38 + 3 * i, 2, u64::from(*tag));
    }
    write(to, &out);
}

// The same after a step or a step back.
pub(crate) fn write_answer(to: &Output<'_>, answer: Result<(), Code>, setup: &Setup<'_>) {
    write_after(to, answer.err().unwrap_or(Code::Done), setup);
}

// Where X0 left its block, and the tag byte there.
pub(crate) fn write_place(to: &Output<'_>, setup: &Setup<'_>) {
    let mut out = *b"left its block at x0 = 0000000000000000, where the tag byte is 00\n";
    text::put_hex(&mut out, 23, 16, setup.machine.registers.x[0]);
    if let Some(tag) = setup.tags.get(2) {
        text::put_hex(&mut out, 63, 2, u64::from(*tag));
    }
    write(to, &out);
}

// A list of calls: its code, how many calls were played, the code of each, and X0 after them.
pub(crate) fn write_list(
    to: &Output<'_>,
    played: Result<usize, PlayError>,
    codes: &[Code; 8],
    setup: &Setup<'_>,
) {
    let mut out =
        *b"list: code 0, 0 calls played with codes 0 0 0 0 0 0 0 0, x0 = 0000000000000000\n";
    text::put_hex(&mut out, 11, 1, u64::from(simulator::play_code(played)));
    text::put_hex(&mut out, 14, 1, played.unwrap_or(0) as u64);
    for (i, code) in codes.iter().enumerate() {
        text::put_hex(&mut out, 40 + 2 * i, 1, code_number(*code));
    }
    text::put_hex(&mut out, 62, 16, setup.machine.registers.x[0]);
    write(to, &out);
}
