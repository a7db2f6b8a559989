// The record of eight words, and what its places hold.
ghost use Rattle.std.specs.Prelude.{◌≡◌, ◌≤◌, length};
ghost use Rattle.history.specs.Records.{entry_in, words_of};

use super::Entry;
use machine::Status;

impl Entry {
    // The words of the record.
    #[tactic(auto, unfolding(crate::specs::Records::words_of))]
    pub fn words(self) -> [u64; 8]
        requires register_bound { self.register ≤ 32 }
        requires granules_bound { self.granules ≤ 2 }
        ensures { result ≡ words_of self }
    {
        let [tag, second] = self.tags;
        let [a, b, c, d] = self.data;
        let status = self.status;
        let low = self.register
            + 0x100 * (self.granules as u64)
            + 0x400 * u64::from(self.saved)
            + 0x1_0000 * u64::from(tag)
            + 0x100_0000 * u64::from(second)
            + 0x1_0000_0000 * u64::from(status.nzcv)
            + 0x10_0000_0000 * u64::from(status.rgsr)
            + 0x100_0000_0000 * u64::from(status.seed);
        [low, self.value, self.first as u64, a, b, c, d, 0]
    }

    // What the places of a record hold, whether or not it keeps the rules.
    #[tactic(auto, unfolding(crate::specs::Records::entry_in))]
    pub(crate) fn of_words(part: &[u64]) -> Entry
        requires { 8 ≤ length part.now }
        ensures { result ≡ entry_in part.now }
    {
        let w = part[0];
        let tag = bits::field(w, 16, 8) as u8;
        let second = bits::field(w, 24, 8) as u8;
        let status = Status {
            nzcv: bits::field(w, 32, 4) as u8,
            rgsr: bits::field(w, 36, 4) as u8,
            seed: bits::field(w, 40, 16) as u16,
        };
        Entry {
            register: bits::field(w, 0, 6),
            granules: bits::field(w, 8, 2) as usize,
            saved: bits::field(w, 10, 1) == 1,
            tags: [tag, second],
            status,
            value: part[1],
            first: part[2] as usize,
            data: [part[3], part[4], part[5], part[6]],
        }
    }
}
