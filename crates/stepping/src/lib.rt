// Runs and steps back made in place. The functions are public because `simulator` calls them, with a setup that it has checked.
#![tactic(auto)]

ghost use Rattle.std.specs.Prelude.{true, ◌≡◌};
ghost use Rattle.machine.specs.Loans.{SameLoans};
ghost use Rattle.execution.specs.Calls.{in_order, returned};
ghost use Rattle.execution.specs.Simulation.{standing, well_formed};
ghost use Rattle.execution.specs.Steps.{step_of};

use machine::{Code, Setup};
pub use undoing::back;

mod undoing;

// The code of a run, and how many words were done.
#[derive(Clone, Copy, PartialEq, Eq, Debug)]
pub struct Ran {
    pub code: Code,
    pub count: usize,
}

// Takes words in order up to the first refused one, on a setup that keeps the rules.
pub fn take_all(setup: &mut Setup<'_>, words: &[u32], history: &mut [u64]) -> Ran
    requires { well_formed (standing setup.old history.old) ≡ true }
    ensures loans { SameLoans setup.old setup.new }
    ensures ran { let before = standing setup.old history.old in
        returned result.code result.count (standing setup.new history.new) ≡ in_order step_of before words.now }
{
    for (count, &word) in words.iter().enumerate() {
        if let Err(code) = execution::take(setup, word, history) {
            return Ran { code, count };
        }
    }
    Ran {
        code: Code::Done,
        count: words.len(),
    }
}
