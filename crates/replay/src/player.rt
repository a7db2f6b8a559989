// The player of a script: the machine and its memories.
use super::lines::{MOST_DATA, MOST_HISTORY, MOST_LISTED, MOST_TAGS, Setting};
use super::memories::Memory;
use machine::Machine;

#[derive(Drop)]
pub(crate) struct Player<'a> {
    pub(crate) machine: Machine,
    pub(crate) tags: Memory<'a, u8>,
    pub(crate) data: Memory<'a, u8>,
    pub(crate) history: Memory<'a, u64>,
    // The words that a run takes. None of them is the machine's.
    pub(crate) list: Memory<'a, u32>,
}

impl<'a> Player<'a> {
    pub(crate) fn new(
        tags: &'a mut [u8; MOST_TAGS],
        data: &'a mut [u8; MOST_DATA],
        history: &'a mut [u64; MOST_HISTORY],
        list: &'a mut [u32; MOST_LISTED],
    ) -> Player<'a> {
        Player {
            machine: machine::fresh(0),
            tags: Memory::new(tags),
            data: Memory::new(data),
            history: Memory::new(history),
            list: Memory::new(list),
        }
    }

    fn start_again(&mut self, base: u64) {
        self.machine = machine::fresh(base);
        self.tags.clear();
        self.data.clear();
        self.history.clear();
        self.list.clear();
    }

    pub(crate) fn set(&mut self, setting: Setting) {
        match setting {
            Setting::Fresh(base) => self.start_again(base),
            Setting::Access(on) => self.machine.settings.access = on,
            Setting::Exclude(mask) => self.machine.settings.exclude = mask,
            Setting::Nzcv(flags) => self.machine.registers.status.nzcv = flags,
            Setting::Rgsr(tag) => self.machine.registers.status.rgsr = tag,
            Setting::Seed(seed) => self.machine.registers.status.seed = seed,
            Setting::Next(slot) => self.machine.cursor.next = slot,
            Setting::Held(slots) => self.machine.cursor.held = slots,
            Setting::Tags(count) => self.tags.resize(count),
            Setting::Data(count) => self.data.resize(count),
            Setting::History(count) => self.history.resize(count),
            Setting::X(number, value) => self.machine.registers.x[number % 32] = value,
            Setting::Tag(index, byte) => self.tags.store(index, byte),
            Setting::Byte(index, byte) => self.data.store(index, byte),
            Setting::Log(index, word) => self.history.store(index, word),
            Setting::List(index, word) => self.list.store(index, word),
        }
    }
}
