// When a record breaks a rule.
ghost use Rattle.std.specs.Prelude.{◌≡◌, ◌≤◌, length};
ghost use Rattle.history.specs.BadRecords.{beyond, data_not_zero, data_of_none, gap_not_zero, malformed, out_of_range, tags_not_zero, value_not_zero};

use super::Entry;

fn is_gap_used(part: &[u64]) -> bool
    requires { 8 ≤ length part.now }
    ensures { result ≡ gap_not_zero part.now }
{
    let w = part[0];
    bits::field(w, 6, 2) != 0
        || bits::field(w, 11, 5) != 0
        || bits::field(w, 56, 8) != 0
        || part[7] != 0
}

impl Entry {
    fn is_out_of_range(&self) -> bool
        ensures { result ≡ out_of_range self.now }
    {
        32 < self.register || 2 < self.granules
    }

    fn is_stray_value(&self) -> bool
        ensures { result ≡ value_not_zero self.now }
    {
        self.register == 32 && self.value != 0
    }

    fn is_stray_tag(&self) -> bool
        ensures { result ≡ tags_not_zero self.now }
    {
        let [tag, second] = self.tags;
        (self.granules == 0 && (tag != 0 || second != 0 || self.first != 0))
            || (self.granules == 1 && second != 0)
    }

    fn is_stray_data(&self) -> bool
        ensures { result ≡ data_not_zero self.now }
    {
        let [a, b, c, d] = self.data;
        (!self.saved && (a != 0 || b != 0 || c != 0 || d != 0))
            || (self.granules == 1 && (c != 0 || d != 0))
    }

    fn is_data_of_none(&self) -> bool
        ensures { result ≡ data_of_none self.now }
    {
        self.saved && self.granules == 0
    }

    // Tested with no sum, which may be too large.
    fn is_beyond(&self, all: usize) -> bool
        ensures { result ≡ beyond all self.now }
    {
        all < self.first || all - self.first < self.granules
    }
}

// Whether the record breaks a rule, where there are so many granules.
#[tactic(auto, unfolding(crate::specs::BadRecords::malformed))]
pub fn is_malformed(part: &[u64], granules: usize) -> bool
    requires { 8 ≤ length part.now }
    ensures { result ≡ malformed granules part.now }
{
    let entry = Entry::of_words(part);
    entry.is_out_of_range()
        || is_gap_used(part)
        || entry.is_stray_value()
        || entry.is_stray_tag()
        || entry.is_stray_data()
        || entry.is_data_of_none()
        || entry.is_beyond(granules)
}
