// Runs a workload from standard input on the simulator, and writes how much was done and a checksum of the end
// (docs/MANUAL.md, "The benchmark").
#![tactic(auto)]

ghost use Rattle.std.specs.Prelude.{◌≡◌};
ghost use Rattle.checksum.specs.Checksum.{with_numbers};

use machine::{Code, Setup};
use rounds::{Answers, Lists};
use simulator::Call;
use stdio::Output;
use workload::{Head, MOST_CALLS, MOST_GRANULES, MOST_SLOTS, MOST_WORDS, ROOM};

mod rounds;
mod workload;

// What became of a workload: how many words and steps back were done, and a checksum of all that the rounds left.
#[derive(Clone, Copy)]
struct End {
    done: u64,
    sum: u64,
}

fn memories_sum(sum: u64, tags: &[u8], bytes: &[u8], history: &[u64]) -> u64
    ensures { result ≡ with_numbers (with_numbers (with_numbers sum tags.now) bytes.now) history.now }
{
    let sum = checksum::with_numbers(sum, tags);
    let sum = checksum::with_numbers(sum, bytes);
    checksum::with_numbers(sum, history)
}

fn state_sum(setup: &Setup<'_>, history: &[u64]) -> u64 {
    let status = setup.machine.registers.status;
    let cursor = setup.machine.cursor;
    let sum = checksum::with_numbers(0, &setup.machine.registers.x);
    let sum = checksum::with_numbers(sum, &[status.nzcv, status.rgsr]);
    let sum = checksum::with_number(sum, u64::from(status.seed));
    let sum = checksum::with_numbers(sum, &[cursor.next as u64, cursor.held as u64]);
    memories_sum(sum, setup.tags, setup.bytes, history)
}

// Goes through a workload's rounds on as many granules and slots as it asks for.
fn measure(head: &Head, lists: Lists<'_>, answers: &mut Answers) -> End {
    let mut bytes = [0; 16 * MOST_GRANULES];
    let mut tags = [0; MOST_GRANULES];
    let mut history = [0; 8 * MOST_SLOTS];
    let history = &mut history[..8 * head.slots];
    let mut setup = Setup {
        machine: head.machine,
        bytes: &mut bytes[..16 * head.granules],
        tags: &mut tags[..head.granules],
    };
    let done = rounds::all_rounds(head, lists, answers, &mut setup, history);
    End {
        done,
        sum: state_sum(&setup, history),
    }
}

// Goes through a workload, unless the bytes are none.
fn bench(input: &[u8]) -> Option<End> {
    let mut words = [0; MOST_WORDS];
    let mut calls = [Call::Back; MOST_CALLS];
    let mut answers = Answers {
        codes: [Code::Done; MOST_CALLS],
        counts: [0; MOST_CALLS],
    };
    let head = workload::read(input, &mut words)?;
    let count = workload::put_calls(&head, &mut calls);
    let lists = Lists {
        words: &words[..head.words],
        calls: &calls[..count],
    };
    Some(measure(&head, lists, &mut answers))
}

fn write(to: &Output<'_>, bytes: &[u8]) {
    stdio::write(to, bytes, b"bench: cannot write standard output");
}

fn write_end(to: &Output<'_>, end: End) {
    let mut out = *b"words=0000000000000000\nchecksum=0000000000000000\n";
    text::put_hex(&mut out, 6, 16, end.done);
    text::put_hex(&mut out, 32, 16, end.sum);
    write(to, &out);
}

fn main(rt: HostRuntime) {
    let to = stdio::open(&rt);
    let mut input = [0; ROOM];
    let bytes = stdio::read(&rt, &mut input, b"bench: cannot read standard input");
    match bench(&input[..bytes]) {
        Some(end) => write_end(&to, end),
        None => write(&to, b"bad\n"),
    }
}
