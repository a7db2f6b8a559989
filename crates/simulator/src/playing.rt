// A list of calls played one after the other, beside the words that they take in order.
ghost use Rattle.std.specs.Prelude.{None, Some, cond, true, ℕ, ◌≡◌, ◌-◌, ◌^◌, ◌<◌, ◌≤◌, slice_index, length, ltb, replicate};
ghost use Rattle.std.proofs.lemmas.List.Edits.{sets};
ghost use Rattle.machine.specs.Loans.{SameLoans};
ghost use Rattle.machine.specs.State.{Typed, with_memory};
ghost use Rattle.execution.specs.Calls.{call, returned};
ghost use Rattle.execution.specs.Simulation.{standing, well_formed};
ghost use Rattle.execution.specs.Steps.{simulator};
ghost use Rattle.simulator.specs.Inside.Playing.{Lent, Wrote};
ghost use Rattle.simulator.specs.Playing.{AsPlain, all_taken, call_of, play_number, play_of, play_result, played, words_taken};

use super::{Ran, uncounted};
use machine::{Code, Setup};

// A call in a list. Its words are taken from those beside the list.
#[derive(Clone, Copy, PartialEq, Eq, Debug)]
pub enum Call {
    Back,
    Step,
    // a run of so many words
    Run(usize),
}

impl Call {
    // How many words the call takes.
    fn words_taken(self) -> usize
        ensures { result ≡ words_taken self }
    {
        match self {
            Call::Back => 0,
            Call::Step => 1,
            Call::Run(n) => n,
        }
    }
}

// Why a list is refused: it lacks places for its answers, or words.
#[derive(Clone, Copy, PartialEq, Eq, Debug)]
pub enum PlayError {
    NoRoom,
    NoWords,
}

impl From<PlayError> for u32 {
    ghost use Rattle.std.specs.Prelude.{Err};
    ghost use Rattle.simulator.specs.Playing.{play_number};

    ghost from_gives = { λ error number. number ≡ play_number (Err error) };

    fn from(error: PlayError) -> u32 {
        match error {
            PlayError::NoRoom => 10,
            PlayError::NoWords => 15,
        }
    }
}

// The code of a list: 0 if it was played, or the number of its refusal.
pub fn play_code(played: Result<usize, PlayError>) -> u32
    ensures { result ≡ play_number played }
{
    match played {
        Ok(_) => 0,
        Err(error) => u32::from(error),
    }
}

// How many of so many words the calls leave, if there are enough.
fn words_left(calls: &[Call], words: usize) -> Option<usize>
    ensures { result ≡ cond (ltb words (all_taken calls.now)) None (Some (words - all_taken calls.now)) }
{
    let mut left = words;
    for asked in calls {
        left = left.checked_sub(asked.words_taken())?;
    }
    Some(left)
}

// How many calls of a list are played, all of them, or why none, by what it is lent.
#[tactic(auto, unfolding(crate::specs::Playing::play_result))]
fn list_result(
    calls: &[Call],
    words: usize,
    codes: usize,
    counts: usize,
) -> Result<usize, PlayError>
    ensures { result ≡ play_result calls.now words codes counts }
{
    if codes < calls.len() || counts < calls.len() {
        return Err(PlayError::NoRoom);
    }
    match words_left(calls, words) {
        Some(_) => Ok(calls.len()),
        None => Err(PlayError::NoWords),
    }
}

// Makes a call on the words that it takes, on a setup that keeps the rules.
fn make_call(setup: &mut Setup<'_>, asked: Call, words: &[u32], history: &mut [u64]) -> Ran
    requires formed { well_formed (standing setup.old history.old) ≡ true }
    requires its_words { length words.now ≡ words_taken asked }
    ensures loans { SameLoans setup.old setup.new }
    ensures made { let before = standing setup.old history.old in
        returned result.code result.count (standing setup.new history.new) ≡ call simulator before (call_of asked words.now) }
{
    match asked {
        Call::Back => uncounted(stepping::back(setup, history)),
        Call::Step => uncounted(execution::take(setup, words[0], history)),
        Call::Run(_) => stepping::take_all(setup, words, history),
    }
}

// Plays the calls of a list, on a setup that keeps the rules. Code and count of the call at i go to place i.
fn play_all(
    setup: &mut Setup<'_>,
    calls: &[Call],
    words: &[u32],
    history: &mut [u64],
    codes: &mut [Code],
    counts: &mut [usize],
)
    requires formed { well_formed (standing setup.old history.old) ≡ true }
    requires lent { Lent calls.now (length words.now) (length codes.old) (length counts.old) }
    ensures loans { SameLoans setup.old setup.new }
    ensures wrote { Wrote (standing setup.old history.old) calls.now words.now codes.old counts.old
        codes.new counts.new (standing setup.new history.new) }
{
    let mut rest = words;
    for (i, &asked) in calls.iter().enumerate() {
        let (taken, left) = rest.split_at(asked.words_taken());
        let ran = make_call(setup, asked, taken, history);
        codes[i] = ran.code;
        counts[i] = ran.count;
        rest = left;
    }
}

// The answers to so many calls that are refused with one code.
fn refuse_all(calls: usize, code: Code, codes: &mut [Code], counts: &mut [usize])
    requires codes_enough { calls ≤ length codes.old }
    requires counts_enough { calls ≤ length counts.old }
    ensures codes_after { codes.new ≡ sets codes.old 0 (replicate calls code) }
    ensures counts_after { counts.new ≡ sets counts.old 0 (replicate calls 0) }
{
    codes[..calls].fill(code);
    counts[..calls].fill(0);
}

// Plays a list that has its words and places. The setup is checked once: no call changes whether it keeps the rules.
fn play_list(
    setup: &mut Setup<'_>,
    calls: &[Call],
    words: &[u32],
    history: &mut [u64],
    codes: &mut [Code],
    counts: &mut [usize],
)
    requires { Lent calls.now (length words.now) (length codes.old) (length counts.old) }
    ensures loans { SameLoans setup.old setup.new }
    ensures wrote { Wrote (standing setup.old history.old) calls.now words.now codes.old counts.old
        codes.new counts.new (standing setup.new history.new) }
{
    match setup.check(history.len()) {
        Ok(()) => play_all(setup, calls, words, history, codes, counts),
        Err(code) => refuse_all(calls.len(), code, codes, counts),
    }
}

// Shows that lent bytes are below 2 ^ 8.
fn are_bytes(bytes: &[u8])
    ensures { (i : ℕ) → slice_index bytes.now i < 2 ^ 8 }
{}

// Shows what the types of a setup say of its numbers, which the prover does not read off a struct's fields.
fn is_typed(setup: &Setup<'_>)
    ensures { Typed (with_memory setup.now.machine setup.now.bytes.now setup.now.tags.now) }
{
    let _seed = setup.machine.registers.status.seed;
    are_bytes(setup.bytes);
    are_bytes(setup.tags);
}

// Plays a list of calls, each with the machine and the buffers as the last one left them. Code and count of the call at i go to place i,
// each kind of answer to a slice of its own, so that another one can get its own beside them. A list that lacks places or words is refused
// whole.
pub fn play(
    setup: &mut Setup<'_>,
    calls: &[Call],
    words: &[u32],
    history: &mut [u64],
    codes: &mut [Code],
    counts: &mut [usize],
) -> Result<usize, PlayError>
    ensures loans { SameLoans setup.old setup.new }
    ensures played { let before = standing setup.old history.old in
        played result codes.new counts.new (standing setup.new history.new)
        ≡ play_of simulator before calls.now words.now codes.old counts.old }
    ensures as_plain { let before = standing setup.old history.old in
        AsPlain before calls.now words.now codes.old counts.old
        (played result codes.new counts.new (standing setup.new history.new)) }
{
    is_typed(setup);
    let count = list_result(calls, words.len(), codes.len(), counts.len())?;
    play_list(setup, calls, words, history, codes, counts);
    Ok(count)
}
