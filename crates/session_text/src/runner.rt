// Runs the words of a session on its machine.
ghost use Rattle.std.specs.Prelude.{◌≡◌, ◌≤◌, length, []};
ghost use Rattle.execution.specs.Simulation.{simulation};
ghost use Rattle.execution.specs.Steps.{run_of};
ghost use Rattle.session_text.specs.Inside.Buffers.{Fits, Printed};
ghost use Rattle.session_text.specs.Run.{machine_for, simulation_of, start_of};
ghost use Rattle.session_text.specs.Session.{ran_text};

use super::printer;
use machine::{Machine, Setup};

// What the nine lines say, by name.
#[derive(Clone, Copy)]
pub(crate) struct Start {
    base: u64,
    granules: usize,
    access: bool,
    exclude: u16,
    seed: u16,
    x0: u64,
    x1: u64,
    x2: u64,
    sp: u64,
}

impl Start {
    // What the numbers of the nine lines say.
    pub(crate) fn of(front: &[u64; 9]) -> Start
        requires { Fits front.now }
        ensures { result ≡ start_of front.now }
    {
        let [base, granules, access, exclude, seed, x0, x1, x2, sp] = *front;
        Start {
            base,
            granules: granules as usize,
            access: access == 1,
            exclude: exclude as u16,
            seed: seed as u16,
            x0,
            x1,
            x2,
            sp,
        }
    }

    // The machine that they describe.
    #[tactic(auto, unfolding(crate::specs::Run::machine_for))]
    fn machine(&self) -> Machine
        ensures { result ≡ machine_for self.now }
    {
        let mut machine = machine::fresh(self.base);
        machine.settings.access = self.access;
        machine.settings.exclude = self.exclude;
        machine.registers.status.seed = self.seed;
        machine.registers.x[0] = self.x0;
        machine.registers.x[1] = self.x1;
        machine.registers.x[2] = self.x2;
        machine.registers.x[31] = self.sp;
        machine
    }
}

// Runs the words on a memory, puts what is printed of that at the start of out, and answers its length.
fn run_on(
    start: Start,
    words: &[u32],
    bytes: &mut [u8],
    tags: &mut [u8],
    out: &mut [u8; 1134],
) -> usize
    requires { length tags.old ≤ 1024 }
    ensures { Printed result out.old out.new (ran_text (run_of (simulation (machine_for start) bytes.old tags.old []) words.now)) }
{
    let machine = start.machine();
    let mut setup = Setup {
        machine,
        bytes,
        tags,
    };
    let ran = simulator::run(&mut setup, words, &mut []);
    let registers = setup.machine.registers;
    printer::put_report(out, ran, &registers, tags)
}

// Runs the words, puts what is printed of that at the start of out, and answers its length.
#[tactic(auto, unfolding(crate::specs::Run::simulation_of))]
pub(crate) fn run(start: Start, words: &[u32], out: &mut [u8; 1134]) -> usize
    requires { start.granules ≤ 1024 }
    ensures { Printed result out.old out.new (ran_text (run_of (simulation_of start) words.now)) }
{
    let g = start.granules;
    let mut tags = [0; 1024];
    let mut bytes = [0; 16384];
    run_on(start, words, &mut bytes[..16 * g], &mut tags[..g], out)
}
