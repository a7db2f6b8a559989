// What the lines of a script say.
use isa::Form;
use tag::Tag;

// The most tag bytes, data bytes and history words that a script can give the machine, and words that it can list.
pub(crate) const MOST_TAGS: usize = 0x1_0010;

pub(crate) const MOST_DATA: usize = 0x10_0100;

pub(crate) const MOST_HISTORY: usize = 0x2010;

pub(crate) const MOST_LISTED: usize = 0x1000;

#[derive(Clone, Copy)]
pub(crate) enum Line {
    // An empty line or a comment.
    PassedOver,
    Set(Setting),
    Call(Call),
    Dump(bool),
    Play(bool),
    Lend(Lent),
    Ask(Question),
}

// What is set. Where two numbers stand the first says which: a register or an index.
#[derive(Clone, Copy)]
pub(crate) enum Setting {
    Fresh(u64),
    Access(bool),
    Exclude(u16),
    Nzcv(u8),
    Rgsr(u8),
    Seed(u16),
    Next(usize),
    Held(usize),
    Tags(usize),
    Data(usize),
    History(usize),
    X(usize, u64),
    Tag(usize, u8),
    Byte(usize, u8),
    Log(usize, u64),
    List(usize, u32),
}

// A step, a run of so many listed words, or a step back.
#[derive(Clone, Copy)]
pub(crate) enum Call {
    Word(u32),
    Run(usize),
    Back,
}

// How many places for codes, places for counts and words a list of calls is lent at most.
#[derive(Clone, Copy)]
pub(crate) struct Lent {
    pub(crate) codes: usize,
    pub(crate) counts: usize,
    pub(crate) words: usize,
}

// What is asked for, and changes nothing.
#[derive(Clone, Copy)]
pub(crate) enum Question {
    Show,
    Decode(u32),
    Encode(Form),
    Choose { start: Tag, offset: u8, mask: u16 },
    Draw(u16),
    Reach(u64),
}
