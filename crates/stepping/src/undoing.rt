// Steps back on a setup that keeps the rules.
ghost use Rattle.std.specs.Prelude.{IfErr, true, ◌≡◌, ◌≢◌, ◌+◌, ◌*◌, ◌≤◌, drop, length, take};
ghost use Rattle.machine.specs.declared.Code.TheVariants.{Done};
ghost use Rattle.machine.specs.Codes.{code_in};
ghost use Rattle.machine.specs.Loans.{SameLoans};
ghost use Rattle.execution.specs.Calls.{answered, returned};
ghost use Rattle.execution.specs.Simulation.{standing, well_formed};
ghost use Rattle.execution.specs.Steps.{step_back_of};

use machine::{Code, Setup};

// Restores what the newest record holds.
pub fn back(setup: &mut Setup<'_>, history: &[u64]) -> Result<(), Code>
    requires { well_formed (standing setup.old history.now) ≡ true }
    ensures loans { SameLoans setup.old setup.new }
    ensures refusal { IfErr result (λ code. code ≢ Done) }
    ensures undone { let before = standing setup.old history.now in
        returned (code_in result) 0 (standing setup.new history.now) ≡ answered before (step_back_of before) }
{
    let cursor = setup.machine.cursor;
    if cursor.held == 0 {
        return Err(Code::NoHistory);
    }
    let (slots, _) = history.as_chunks::<8>();
    let before = history::retreat(cursor, slots.len());
    let newest = &slots[before.next];
    if history::is_malformed(newest, setup.tags.len()) {
        return Err(Code::BadRecord);
    }
    history::restore(setup, newest);
    setup.machine.cursor = before;
    Ok(())
}
