// The simulator: steps, runs, steps back, and lists of them, on a machine with history. The machine comes with the memory that it is
// lent, and its history words are lent beside it.
#![tactic(auto)]

ghost use Rattle.std.specs.Prelude.{IfErr, ◌≡◌, ◌≢◌};
ghost use Rattle.machine.specs.declared.Code.TheVariants.{Done};
ghost use Rattle.machine.specs.Codes.{code_in};
ghost use Rattle.machine.specs.Loans.{SameLoans};
ghost use Rattle.execution.specs.Calls.{answered, returned};
ghost use Rattle.execution.specs.Simulation.{standing};
ghost use Rattle.execution.specs.Steps.{run_of, step_back_of, step_of};

use machine::{Code, Setup};
pub use playing::{Call, PlayError, play, play_code};
pub use stepping::Ran;

mod playing;

// A step or a step back among runs: its count is 0, done or not.
pub fn uncounted(step: Result<(), Code>) -> Ran
    ensures { (result.code ≡ code_in step) × (result.count ≡ 0) }
{
    Ran {
        code: step.err().unwrap_or(Code::Done),
        count: 0,
    }
}

// Takes lent words in order up to the first refused one.
pub fn run(setup: &mut Setup<'_>, words: &[u32], history: &mut [u64]) -> Ran
    ensures loans { SameLoans setup.old setup.new }
    ensures ran { let before = standing setup.old history.old in
        returned result.code result.count (standing setup.new history.new) ≡ run_of before words.now }
{
    match setup.check(history.len()) {
        Ok(()) => stepping::take_all(setup, words, history),
        Err(code) => Ran { code, count: 0 },
    }
}

// Carries out one word.
pub fn step(setup: &mut Setup<'_>, word: u32, history: &mut [u64]) -> Result<(), Code>
    ensures loans { SameLoans setup.old setup.new }
    ensures refusal { IfErr result (λ code. code ≢ Done) }
    ensures taken { let before = standing setup.old history.old in
        returned (code_in result) 0 (standing setup.new history.new) ≡ answered before (step_of before word) }
{
    setup.check(history.len())?;
    execution::take(setup, word, history)
}

// Steps back: restores what the newest record holds.
pub fn step_back(setup: &mut Setup<'_>, history: &[u64]) -> Result<(), Code>
    ensures loans { SameLoans setup.old setup.new }
    ensures refusal { IfErr result (λ code. code ≢ Done) }
    ensures undone { let before = standing setup.old history.now in
        returned (code_in result) 0 (standing setup.new history.now) ≡ answered before (step_back_of before) }
{
    setup.check(history.len())?;
    stepping::back(setup, history)
}
