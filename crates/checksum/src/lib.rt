// A checksum of numbers in order, for the programs that are compared with others.
#![tactic(auto)]

ghost use Rattle.std.specs.Prelude.{◌≡◌, ℕ, map};
ghost use Rattle.checksum.specs.Checksum.{IsNumberOf, with_number, with_numbers};

// The checksum with one number more.
#[tactic(auto, unfolding(crate::specs::Checksum::with_number))]
pub fn with_number(sum: u64, v: u64) -> u64
    ensures { result ≡ with_number sum v }
{
    (sum << 5).wrapping_sub(sum).wrapping_add(v)
}

// The checksum with some bytes or words more, or whatever else converts to a number.
pub fn with_numbers<T: Copy + Into<u64>>(sum: u64, items: &[T]) -> u64
    ensures { (number : T → ℕ) → IsNumberOf T.converts number → result ≡ with_numbers sum (map number items.now) }
{
    let mut s = sum;
    for &item in items {
        s = with_number(s, item.into());
    }
    s
}
