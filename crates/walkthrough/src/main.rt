// A pointer walks over its block and goes too far; steps back show where it left the block
// (docs/MANUAL.md, "Using the library").
#![tactic(auto)]

use isa::{Form, Mode, TagStoreOp};
use machine::{Code, Machine, Setup};
use simulator::Call;
use stdio::Output;

mod lines;

// A bound for the loops, so that each is proved to end. None makes so many calls.
const MOST_CALLS: usize = 8;

// A machine on base 0x1000. X0 points to a block of two granules, with tag 5; X1 to the next block, with tag 9.
fn start() -> Machine {
    let mut machine = machine::fresh(0x1000);
    machine.registers.write(0, 0x0500_0000_0000_1000);
    machine.registers.write(1, 0x0900_0000_0000_1020);
    machine
}

// The word of a tag store that takes its address and its tag from register n.
fn tag_store(op: TagStoreOp, mode: Mode, n: u64, amount: u64) -> u32 {
    isa::form_word(Form::TagStore {
        op,
        mode,
        t: n,
        n,
        amount,
    })
}

// Tags both blocks, each with the tag of its pointer.
fn tag_blocks(to: &Output<'_>, setup: &mut Setup<'_>, history: &mut [u64]) {
    let words = [
        tag_store(TagStoreOp::St2g, Mode::Offset, 0, 0), // ST2G X0, [X0]
        tag_store(TagStoreOp::St2g, Mode::Offset, 1, 0), // ST2G X1, [X1]
    ];
    let ran = simulator::run(setup, &words, history);
    lines::write_run(to, ran.count);
    lines::write_after(to, ran.code, setup);
}

// Tags granule after granule through X0, until a step is refused.
fn walk(to: &Output<'_>, setup: &mut Setup<'_>, history: &mut [u64]) {
    let word = tag_store(TagStoreOp::Stg, Mode::Post, 0, 16); // STG X0, [X0], #16
    for _ in 0..MOST_CALLS {
        let step = simulator::step(setup, word, history);
        lines::write_step(to, word);
        lines::write_answer(to, step, setup);
        if step.is_err() {
            return;
        }
    }
}

// Steps back once.
fn back(to: &Output<'_>, setup: &mut Setup<'_>, history: &[u64]) {
    let back = simulator::step_back(setup, history);
    lines::write_back(to);
    lines::write_answer(to, back, setup);
}

// Steps back until the next block's first granule has its own tag again.
fn back_to_block(to: &Output<'_>, setup: &mut Setup<'_>, history: &[u64]) {
    for _ in 0..MOST_CALLS {
        if setup.tags.get(2) == Some(&9) {
            return;
        }
        back(to, setup, history);
    }
}

// The same calls up to where X0 left its block, as one list, on memories and a history of their own.
fn in_one_list(to: &Output<'_>) {
    let word = tag_store(TagStoreOp::Stg, Mode::Post, 0, 16);
    let calls = [
        Call::Run(2),
        Call::Step,
        Call::Step,
        Call::Step,
        Call::Step,
        Call::Step,
        Call::Back,
        Call::Back,
    ];
    let words = [
        tag_store(TagStoreOp::St2g, Mode::Offset, 0, 0),
        tag_store(TagStoreOp::St2g, Mode::Offset, 1, 0),
        word,
        word,
        word,
        word,
        word,
    ];
    let mut bytes = [0; 64];
    let mut tags = [0; 4];
    let mut history = [0; 32];
    let mut codes = [Code::Done; 8];
    let mut counts = [0; 8];
    let mut setup = Setup {
        machine: start(),
        bytes: &mut bytes,
        tags: &mut tags,
    };
    let played = simulator::play(
        &mut setup,
        &calls,
        &words,
        &mut history,
        &mut codes,
        &mut counts,
    );
    lines::write_list(to, played, &codes, &setup);
}

// Four granules and a history of four slots.
fn main(rt: HostRuntime) {
    let to = &stdio::open(&rt);
    let mut bytes = [0; 64];
    let mut tags = [0; 4];
    let mut history = [0; 32];
    let mut setup = Setup {
        machine: start(),
        bytes: &mut bytes,
        tags: &mut tags,
    };
    tag_blocks(to, &mut setup, &mut history);
    walk(to, &mut setup, &mut history);
    back_to_block(to, &mut setup, &history);
    lines::write_place(to, &setup);
    for _ in 0..3 {
        back(to, &mut setup, &history);
    }
    in_one_list(to);
}
