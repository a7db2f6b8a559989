// Collects calls for a list, as `simulator::play` takes them: beside the words that they take in order.
use super::lines;
use super::memories::Memory;
use simulator::Call;

// The most calls that a list has, and words that they take.
pub(crate) const MOST_CALLS: usize = 0x1000;

pub(crate) const MOST_TAKEN: usize = 0x4000;

#[derive(Drop)]
pub(crate) struct CallList<'a> {
    calls: Memory<'a, Call>,
    words: Memory<'a, u32>,
}

impl<'a> CallList<'a> {
    pub(crate) fn new(
        calls: &'a mut [Call; MOST_CALLS],
        words: &'a mut [u32; MOST_TAKEN],
    ) -> CallList<'a> {
        CallList {
            calls: Memory::new(calls),
            words: Memory::new(words),
        }
    }

    pub(crate) fn is_empty(&self) -> bool {
        self.calls.count() == 0
    }

    pub(crate) fn calls(&self) -> &[Call] {
        self.calls.used()
    }

    // The words, of which a list is lent so many at most.
    pub(crate) fn words(&self, most: usize) -> &[u32] {
        self.words.first(most)
    }

    // Whether a call is not one too many for the list, and does not take too many words.
    pub(crate) fn has_room(&self, call: lines::Call) -> bool {
        let taken = match call {
            lines::Call::Word(_) => 1,
            lines::Call::Run(count) => count,
            lines::Call::Back => 0,
        };
        self.calls.room() != 0 && taken <= self.words.room()
    }

    // Adds a call. A run takes its words now: the listed words may change before it is played.
    pub(crate) fn push(&mut self, call: lines::Call, list: &Memory<'_, u32>) {
        match call {
            lines::Call::Word(word) => {
                self.calls.push(Call::Step);
                self.words.push(word);
            },
            lines::Call::Run(count) => {
                self.calls.push(Call::Run(count));
                self.words.extend(list.first(count));
            },
            lines::Call::Back => self.calls.push(Call::Back),
        }
    }

    pub(crate) fn clear(&mut self) {
        self.calls.resize(0);
        self.words.resize(0);
    }
}
