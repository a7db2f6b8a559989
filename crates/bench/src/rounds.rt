// The rounds of a workload: the calls that each makes, and how many words and steps back were done.
use super::workload::{Head, Kind, MOST_CALLS};
use machine::{Code, Machine, Setup};
use simulator::Call;

// What the rounds are made of: the words, and the calls of a list.
#[derive(Clone, Copy)]
pub(crate) struct Lists<'a> {
    pub words: &'a [u32],
    pub calls: &'a [Call],
}

// Places for the answers to a list's calls.
#[derive(Drop)]
pub(crate) struct Answers {
    pub codes: [Code; MOST_CALLS],
    pub counts: [usize; MOST_CALLS],
}

// A step for each word, whether the one before was refused or not.
fn by_steps(words: &[u32], setup: &mut Setup<'_>, history: &mut [u64]) -> u64 {
    let mut done: u64 = 0;
    for &word in words {
        if simulator::step(setup, word, history).is_ok() {
            done = done.wrapping_add(1);
        }
    }
    done
}

// How many words and steps back a call of a list did.
fn done_by(call: Call, code: Code, count: usize) -> u64 {
    match (call, code) {
        (Call::Run(_), _) => count as u64,
        (_, Code::Done) => 1,
        _ => 0,
    }
}

fn by_list(
    lists: Lists<'_>,
    answers: &mut Answers,
    setup: &mut Setup<'_>,
    history: &mut [u64],
) -> u64 {
    let Lists { words, calls } = lists;
    let Answers { codes, counts } = answers;
    if simulator::play(setup, calls, words, history, codes, counts).is_err() {
        return 0;
    }
    let mut done: u64 = 0;
    for ((call, code), count) in calls
        .iter()
        .zip(answers.codes.iter())
        .zip(answers.counts.iter())
    {
        done = done.wrapping_add(done_by(*call, *code, *count));
    }
    done
}

fn round(
    kind: Kind,
    lists: Lists<'_>,
    answers: &mut Answers,
    setup: &mut Setup<'_>,
    history: &mut [u64],
) -> u64 {
    match kind {
        Kind::Run => simulator::run(setup, lists.words, history).count as u64,
        Kind::Steps => by_steps(lists.words, setup, history),
        Kind::ListOfARun | Kind::ListOfSteps => by_list(lists, answers, setup, history),
    }
}

// Goes through the rounds, and answers how many words and steps back were done. Each starts from the workload's machine, but for
// the cursor, which stays as the last one left it.
pub(crate) fn all_rounds(
    head: &Head,
    lists: Lists<'_>,
    answers: &mut Answers,
    setup: &mut Setup<'_>,
    history: &mut [u64],
) -> u64 {
    let mut done: u64 = 0;
    for _ in 0..head.rounds {
        setup.machine = Machine {
            cursor: setup.machine.cursor,
            ..head.machine
        };
        done = done.wrapping_add(round(head.kind, lists, answers, setup, history));
    }
    done
}
