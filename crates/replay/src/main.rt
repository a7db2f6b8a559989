// Plays a script from standard input on the machine and writes what each call answers and the state (docs/MANUAL.md,
// "Replaying a script").
#![tactic(auto)]

use calls::{CallList, MOST_CALLS, MOST_TAKEN};
use kinds::AnswerKind;
use lines::{MOST_DATA, MOST_HISTORY, MOST_LISTED, MOST_TAGS};
use player::Player;
use playing::Playing;
use writer::Writer;

mod answers;
mod calls;
mod kinds;
mod lines;
mod memories;
mod player;
mod playing;
mod reader;
mod simulation;
mod writer;

// One byte more than the longest script has, so that a longer one is seen.
const ROOM: usize = 0x40_0001;

// The number of a script's first wrong line.
fn first_wrong_line(script: &[u8]) -> Option<usize> {
    let index = script
        .split_inclusive(|byte| *byte == b'\n')
        .position(|line| reader::read(line).is_none())?;
    Some(index + 1)
}

// Writes the number of a wrong line, or 0 for a script that is too long.
fn write_bad(rt: &HostRuntime, number: usize) {
    let mut writer = Writer::new(rt);
    writer.put(AnswerKind::Bad, &[number as u64]);
    writer.flush();
}

// Plays a script that has no wrong line.
fn play(script: &[u8], playing: &mut Playing<'_>) {
    for line in script.split_inclusive(|byte| *byte == b'\n') {
        if let Some(line) = reader::read(line) {
            playing.play(line);
        }
    }
    playing.finish();
}

fn play_fresh(rt: &HostRuntime, script: &[u8]) {
    let mut tags = [0u8; MOST_TAGS];
    let mut data = [0u8; MOST_DATA];
    let mut history = [0u64; MOST_HISTORY];
    let mut list = [0u32; MOST_LISTED];
    let mut calls = [simulator::Call::Back; MOST_CALLS];
    let mut words = [0u32; MOST_TAKEN];
    let player = Player::new(&mut tags, &mut data, &mut history, &mut list);
    let calls = CallList::new(&mut calls, &mut words);
    let mut playing = Playing::new(player, calls, Writer::new(rt));
    play(script, &mut playing);
}

fn replay(rt: &HostRuntime, input: &mut [u8; ROOM]) {
    let n = stdio::read(rt, input, b"replay: cannot read standard input");
    if n == ROOM {
        write_bad(rt, 0);
        return;
    }
    let script = &input[..n];
    match first_wrong_line(script) {
        Some(number) => write_bad(rt, number),
        None => play_fresh(rt, script),
    }
}

fn main(rt: HostRuntime) {
    let mut input = [0u8; ROOM];
    replay(&rt, &mut input);
}
