// A workload: numbers of eight bytes, then words of four, all little-endian (docs/MANUAL.md, "The benchmark").
ghost use Rattle.std.specs.Prelude.{◌≤◌, ◌<◌, ◌↔◌, IsOk, IfSome};

use machine::{Cursor, Machine, Registers, Settings, Status};
use simulator::Call;

pub(crate) const MOST_WORDS: usize = 65536;

const MOST_BACKS: usize = 1024;

// As many as a list has if each word is a step.
pub(crate) const MOST_CALLS: usize = MOST_WORDS + MOST_BACKS;

pub(crate) const MOST_SLOTS: usize = 1024;

pub(crate) const MOST_GRANULES: usize = 1024;

// So many bytes come before the words: 44 numbers.
const HEAD: usize = 8 * 44;

// A byte more than the longest workload has, so that a longer one is seen.
pub(crate) const ROOM: usize = HEAD + 4 * MOST_WORDS + 1;

// What a round makes: a run, a step for each word, or a list with a run or a step for each word, and steps back.
#[derive(Clone, Copy, Debug, PartialEq, Eq)]
pub(crate) enum Kind {
    Run,
    Steps,
    ListOfARun,
    ListOfSteps,
}

// A number that stands for no kind.
#[derive(Clone, Copy, Debug, PartialEq, Eq)]
pub(crate) struct UnknownKind;

impl TryFrom<u64> for Kind {
    type Error = UnknownKind;

    ghost try_from_gives = { λ number kind. IsOk kind ↔ (number < 4) };

    fn try_from(number: u64) -> Result<Kind, UnknownKind> {
        match number {
            0 => Ok(Kind::Run),
            1 => Ok(Kind::Steps),
            2 => Ok(Kind::ListOfARun),
            3 => Ok(Kind::ListOfSteps),
            _ => Err(UnknownKind),
        }
    }
}

impl Kind {
    fn is_list(self) -> bool {
        matches!(self, Kind::ListOfARun | Kind::ListOfSteps)
    }
}

// What a workload says before its words.
#[derive(Clone, Copy)]
pub(crate) struct Head {
    pub rounds: u64,
    pub kind: Kind,
    pub backs: usize,
    pub slots: usize,
    pub words: usize,
    pub granules: usize,
    // What each round starts from.
    pub machine: Machine,
    ghost backs_fit: { backs ≤ 1024 },
    ghost slots_fit: { slots ≤ 1024 },
    ghost words_fit: { words ≤ 65536 },
    ghost granules_fit: { granules ≤ 1024 },
}

fn at_most(number: u64, most: usize) -> Option<usize>
    ensures { IfSome result (λ n. n ≤ most) }
{
    usize::try_from(number).ok().filter(|n| *n <= most)
}

fn four_bits(number: u64) -> Option<u8> {
    u8::try_from(number).ok().filter(|bits| *bits <= 15)
}

fn flag(number: u64) -> Option<bool> {
    match number {
        0 => Some(false),
        1 => Some(true),
        _ => None,
    }
}

fn numbers<const N: usize>(chunks: &[[u8; 8]]) -> [u64; N] {
    let mut numbers = [0; N];
    for (number, chunk) in numbers.iter_mut().zip(chunks) {
        *number = u64::from_le_bytes(*chunk);
    }
    numbers
}

// What a head says, if it is one: each number within its bound, and steps back only in a list.
fn read_head(bytes: &[u8; HEAD]) -> Option<Head> {
    let (chunks, _) = bytes.as_chunks::<8>();
    let (front, registers) = chunks.split_at(12);
    let [
        rounds,
        kind,
        backs,
        slots,
        words,
        granules,
        base,
        exclude,
        access,
        nzcv,
        rgsr,
        seed,
    ] = numbers::<12>(front);
    let kind = Kind::try_from(kind).ok()?;
    let backs = at_most(backs, MOST_BACKS)?;
    if 0 < backs && !kind.is_list() {
        return None;
    }
    Some(Head {
        rounds,
        kind,
        backs,
        slots: at_most(slots, MOST_SLOTS)?,
        words: at_most(words, MOST_WORDS)?,
        granules: at_most(granules, MOST_GRANULES)?,
        machine: Machine {
            settings: Settings {
                base,
                exclude: u16::try_from(exclude).ok()?,
                access: flag(access)?,
            },
            registers: Registers {
                x: numbers(registers),
                status: Status {
                    nzcv: four_bits(nzcv)?,
                    rgsr: four_bits(rgsr)?,
                    seed: u16::try_from(seed).ok()?,
                },
            },
            cursor: Cursor { next: 0, held: 0 },
        },
    })
}

// Reads a workload, its words to the start of `words`; none if the bytes are none.
pub(crate) fn read(input: &[u8], words: &mut [u32; MOST_WORDS]) -> Option<Head> {
    let (head, tail) = input.split_first_chunk::<HEAD>()?;
    let head = read_head(head)?;
    let (chunks, rest) = tail.as_chunks::<4>();
    if chunks.len() != head.words || !rest.is_empty() {
        return None;
    }
    for (word, chunk) in words.iter_mut().zip(chunks) {
        *word = u32::from_le_bytes(*chunk);
    }
    Some(head)
}

// Puts the calls of a list: those that take its words, a run or a step for each, and the steps back; answers how many they are.
pub(crate) fn put_calls(head: &Head, calls: &mut [Call; MOST_CALLS]) -> usize
    ensures { result ≤ MOST_CALLS }
{
    let taking = if head.kind == Kind::ListOfARun {
        calls[0] = Call::Run(head.words);
        1
    } else {
        calls[..head.words].fill(Call::Step);
        head.words
    };
    let end = taking + head.backs;
    calls[taking..end].fill(Call::Back);
    end
}
