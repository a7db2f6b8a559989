// The machine: its parts, its codes, the rules of its setup, and the setup itself with the memory that it is lent.
#![tactic(auto)]

ghost use Rattle.std.specs.Prelude.{◌≡◌, length};
ghost use Rattle.machine.specs.Codes.{code_number};
ghost use Rattle.machine.specs.Registers.{or_none, written, x_or_sp, x_or_zero};
ghost use Rattle.machine.specs.Setup.{checked, cursor_ok, setup_ok, state_ok};
ghost use Rattle.machine.specs.State.{fresh_on};

use memory::LocateError;

#[derive(Clone, Copy, Debug, PartialEq, Eq)]
pub enum Code {
    Done,
    Setup,
    Undefined,
    SpAlign,
    Align,
    Outside,
    NoHistory,
    BadRecord,
    Field,
}

// The code's number in document 01.
impl From<Code> for u32 {
    ghost from_gives = { λ code number. number ≡ code_number code };

    fn from(code: Code) -> u32 {
        match code {
            Code::Done => 0,
            Code::Setup => 1,
            Code::Undefined => 2,
            Code::SpAlign => 3,
            Code::Align => 4,
            Code::Outside => 5,
            Code::NoHistory => 6,
            Code::BadRecord => 7,
            Code::Field => 8,
        }
    }
}

impl From<LocateError> for Code {
    ghost use Rattle.machine.specs.declared.Code.TheVariants.{Outside};

    ghost from_gives = { λ _ code. code ≡ Outside };

    fn from(error: LocateError) -> Code {
        match error {
            LocateError::Outside => Code::Outside,
        }
    }
}

// What no word changes.
#[derive(Clone, Copy, Debug, PartialEq, Eq)]
pub struct Settings {
    pub base: u64,
    pub exclude: u16,
    pub access: bool,
}

// The flags NZCV, and RGSR_EL1: its tag (rgsr) and its seed.
#[derive(Clone, Copy, Debug, PartialEq, Eq)]
pub struct Status {
    pub nzcv: u8,
    pub rgsr: u8,
    pub seed: u16,
}

// X0 to X30 with SP at 31, and the status.
#[derive(Clone, Copy, Debug, PartialEq, Eq)]
pub struct Registers {
    pub x: [u64; 32],
    pub status: Status,
}

impl Registers {
    // Register n, where 31 is SP.
    pub fn x_or_sp(&self, n: u64) -> u64
        ensures { result ≡ x_or_sp self.now.x n }
    {
        if n < 32 { self.x[n as usize] } else { 0 }
    }

    // Register n, where 31 reads as zero.
    pub fn x_or_zero(&self, n: u64) -> u64
        ensures { result ≡ x_or_zero self.now.x n }
    {
        if n == 31 { 0 } else { self.x_or_sp(n) }
    }

    // Gives register n a value; 32 is none.
    pub fn write(&mut self, n: u64, v: u64)
        ensures x { self.new.x ≡ written self.old.x n v }
        ensures status { self.new.status ≡ self.old.status }
    {
        if n < 32 {
            self.x[n as usize] = v;
        }
    }
}

// Register n as a destination, where 31 drops the write.
pub fn or_none(n: u64) -> u64
    ensures { result ≡ or_none n }
{
    if n == 31 { 32 } else { n }
}

// The place in the history: the slot that is written next, and how many are held.
#[derive(Clone, Copy, Debug, PartialEq, Eq)]
pub struct Cursor {
    pub next: usize,
    pub held: usize,
}

#[derive(Clone, Copy, Debug, PartialEq, Eq)]
pub struct Machine {
    pub settings: Settings,
    pub registers: Registers,
    pub cursor: Cursor,
}

// A fresh machine on a base.
pub fn fresh(base: u64) -> Machine
    ensures { result ≡ fresh_on base }
{
    Machine {
        settings: Settings {
            base,
            exclude: 0,
            access: true,
        },
        registers: Registers {
            x: [0; 32],
            status: Status {
                nzcv: 0,
                rgsr: 0,
                seed: 0,
            },
        },
        cursor: Cursor { next: 0, held: 0 },
    }
}

#[tactic(auto, unfolding(crate::specs::Setup::cursor_ok))]
fn cursor_ok(slots: usize, cursor: Cursor) -> bool
    ensures { result ≡ cursor_ok slots cursor }
{
    if slots == 0 {
        return cursor.next == 0 && cursor.held == 0;
    }
    cursor.next < slots && cursor.held <= slots
}

#[tactic(auto, unfolding(crate::specs::Setup::state_ok))]
fn state_ok(settings: Settings, status: Status, bytes: usize, granules: usize) -> bool
    ensures { result ≡ state_ok settings status bytes granules }
{
    memory::sizes_ok(settings.base, bytes, granules) && status.nzcv <= 15 && status.rgsr <= 15
}

// Whether a machine with so many data bytes, tag bytes and history words keeps the rules of the setup.
#[tactic(auto, unfolding(crate::specs::Setup::setup_ok))]
pub fn setup_ok(machine: Machine, bytes: usize, granules: usize, words: usize) -> bool
    ensures { result ≡ setup_ok machine bytes granules words }
{
    state_ok(machine.settings, machine.registers.status, bytes, granules)
        && cursor_ok(words / 8, machine.cursor)
}

// A machine with the memory that it is lent: its data bytes and its tag bytes.
#[derive(Drop)]
pub struct Setup<'a> {
    pub machine: Machine,
    pub bytes: &'a mut [u8],
    pub tags: &'a mut [u8],
}

impl Setup<'_> {
    // Refuses a setup that breaks the rules, with so many history words.
    pub fn check(&self, words: usize) -> Result<(), Code>
        ensures { result ≡ checked self.now.machine (length self.now.bytes.now) (length self.now.tags.now) words }
    {
        if setup_ok(self.machine, self.bytes.len(), self.tags.len(), words) {
            Ok(())
        } else {
            Err(Code::Setup)
        }
    }
}
