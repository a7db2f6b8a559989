// The calls of the simulator.
use super::calls::CallList;
use super::lines::{Call, Lent};
use super::player::Player;
use machine::{Code, Setup};
use simulator::{PlayError, Ran};

impl Player<'_> {
    pub(crate) fn call(&mut self, call: Call) -> Ran {
        let history = self.history.used_mut();
        let mut setup = Setup {
            machine: self.machine,
            bytes: self.data.used_mut(),
            tags: self.tags.used_mut(),
        };
        let ran = match call {
            Call::Word(word) => simulator::uncounted(simulator::step(&mut setup, word, history)),
            Call::Run(count) => simulator::run(&mut setup, self.list.first(count), history),
            Call::Back => simulator::uncounted(simulator::step_back(&mut setup, history)),
        };
        self.machine = setup.machine;
        ran
    }

    // Plays a list of calls, lent as many places and words as `lend` allows, and answers how many were played.
    pub(crate) fn play(
        &mut self,
        list: &CallList<'_>,
        lent: Lent,
        codes: &mut [Code],
        counts: &mut [usize],
    ) -> Result<usize, PlayError> {
        let lent_codes = lent.codes.min(codes.len());
        let lent_counts = lent.counts.min(counts.len());
        let history = self.history.used_mut();
        let mut setup = Setup {
            machine: self.machine,
            bytes: self.data.used_mut(),
            tags: self.tags.used_mut(),
        };
        let played = simulator::play(
            &mut setup,
            list.calls(),
            list.words(lent.words),
            history,
            &mut codes[..lent_codes],
            &mut counts[..lent_counts],
        );
        self.machine = setup.machine;
        played
    }
}
