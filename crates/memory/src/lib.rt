// The modelled memory: the rule on its sizes and base, the granules that an address names, and the stores.
// A store is lent the part of the data that begins at the granule. Each function with a `requires` is public because our
// own crates call it, with granules that they know to be inside.
#![tactic(auto)]

ghost use Rattle.std.specs.Prelude.{◌≡◌, ◌+◌, ◌*◌, ◌%◌, ◌≤◌, true, length, replicate, slice_index, take, Err};
ghost use Rattle.std.proofs.lemmas.List.Edits.{sets};
ghost use Rattle.memory.specs.Locations.{granule_code, granule_of};
ghost use Rattle.memory.specs.Sizes.{sizes_ok};
ghost use Rattle.memory.specs.Stores.{pair_bytes, saved_bytes, zero_bytes};

// Why an address has no first granule: one of the granules that it names is outside.
#[derive(Clone, Copy, Debug, PartialEq, Eq)]
pub enum LocateError {
    Outside,
}

// The code 5, OUTSIDE.
impl From<LocateError> for u32 {
    ghost from_gives = { λ error number. number ≡ granule_code (Err error) };

    fn from(error: LocateError) -> u32 {
        match error {
            LocateError::Outside => 5,
        }
    }
}

// The code of what an address names: 0 where it has a first granule, or the number of its refusal.
pub fn locate_code(located: Result<usize, LocateError>) -> u32
    ensures { result ≡ granule_code located }
{
    match located {
        Ok(_) => 0,
        Err(error) => u32::from(error),
    }
}

// Whether the sizes and the base keep the rule of the setup.
#[tactic(auto, using(crate::proofs::Sizes::sum_below), unfolding(crate::specs::Sizes::sizes_ok))]
pub fn sizes_ok(base: u64, bytes: usize, granules: usize) -> bool
    ensures { result ≡ sizes_ok base bytes granules }
{
    granules <= 65536
        && bytes == 16 * granules
        && base % 16 == 0
        && base <= 0x100_0000_0000_0000 - 16 * granules as u64
}

// The first of the granules that an address names, so many from its own on. What lies below the base has an index past
// every memory's end.
pub fn locate(base: u64, granules: usize, address: u64, count: usize) -> Result<usize, LocateError>
    requires granules_value { sizes_ok base (16 * granules) granules ≡ true }
    requires le_count { 1 ≤ count }
    requires count_bound { count ≤ 65536 }
    requires address_value { 2 ≤ count → address % 16 ≡ 0 }
    ensures { result ≡ granule_of base granules address count }
{
    let location = address % 0x100_0000_0000_0000;
    let index = location.wrapping_sub(base) / 16;
    if (granules as u64) < index + count as u64 {
        return Err(LocateError::Outside);
    }
    Ok(index as usize)
}

// Zeroes the data of so many granules: mostly one, which two stores zero sooner than a call that fills.
pub fn zero(part: &mut [u8], granules: usize)
    requires { 16 * granules ≤ length part.old }
    ensures { part.new ≡ sets part.old 0 (zero_bytes granules) }
{
    if granules == 1 {
        store_pair(part, 0, 0);
    } else {
        part[..16 * granules].fill(0);
    }
}

// Stores two words in a granule.
pub fn store_pair(part: &mut [u8], low: u64, high: u64)
    requires { 16 ≤ length part.old }
    ensures { part.new ≡ sets part.old 0 (pair_bytes low high) }
{
    bits::store_word(part, low);
    bits::store_word(&mut part[8..], high);
}

// Stores the words saved of so many granules.
pub fn restore(part: &mut [u8], granules: usize, saved: [u64; 4])
    requires granules_bound { granules ≤ 2 }
    requires granules_in_bounds { 16 * granules ≤ length part.old }
    ensures { part.new ≡ sets part.old 0 (let word = slice_index saved in saved_bytes granules (word 0) (word 1) (word 2) (word 3)) }
{
    let [a, b, c, d] = saved;
    if granules == 0 {
        return;
    }
    store_pair(part, a, b);
    if granules == 2 {
        store_pair(&mut part[16..], c, d);
    }
}

// Stores the tag bytes saved of so many granules.
pub fn restore_tags(tags: &mut [u8], at: usize, granules: usize, saved: [u8; 2])
    requires granules_bound { granules ≤ 2 }
    requires granules_in_bounds { at + granules ≤ length tags.old }
    ensures { tags.new ≡ sets tags.old at (take granules saved) }
{
    tags[at..at + granules].copy_from_slice(&saved[..granules]);
}

// Gives so many granules, one or two, a tag.
pub fn store_tags(tags: &mut [u8], at: usize, granules: usize, tag: u8)
    requires le_granules { 1 ≤ granules }
    requires granules_bound { granules ≤ 2 }
    requires granules_in_bounds { at + granules ≤ length tags.old }
    ensures { tags.new ≡ sets tags.old at (replicate granules tag) }
{
    tags[at] = tag;
    if granules == 2 {
        tags[at + 1] = tag;
    }
}
