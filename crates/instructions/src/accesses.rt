// The memory that LDG and the stores access.
ghost use Rattle.std.specs.Prelude.{◌≡◌, ◌*◌, ◌%◌, ◌≤◌, true, not, ◌&&◌, if◌then◌else◌, ◌==◌, nat_eq};
ghost use Rattle.memory.specs.Sizes.{sizes_ok};
ghost use Rattle.instructions.specs.Accesses.{address_of, writeback_to};
ghost use Rattle.instructions.specs.Inside.Places.{load_place, store_place};

use isa::Mode;
use machine::{Code, Settings};

// The address of a store whose base register holds `rn`.
pub fn address_of(mode: Mode, rn: u64, amount: u64) -> u64
    ensures { result ≡ address_of mode rn amount }
{
    match mode {
        Mode::Post => rn,
        Mode::Pre | Mode::Offset => rn.wrapping_add(amount),
    }
}

// The register that is written back, 32 for none.
pub fn writeback_to(mode: Mode, n: u64) -> u64
    ensures { result ≡ writeback_to mode n }
{
    match mode {
        Mode::Post | Mode::Pre => n,
        Mode::Offset => 32,
    }
}

// The refusal of an address that is not aligned, nor is the base register.
fn misaligned(n: u64) -> Code
    ensures { result ≡ (if nat_eq n 31 then Code.SpAlign else Code.Align) }
{
    if n == 31 { Code::SpAlign } else { Code::Align }
}

// The first of so many granules at a store's address, or the refusal of the lowest code. A store's amount is a whole number of granules,
// so that its address is aligned if the base register is.
pub fn place(
    settings: Settings,
    granules: usize,
    n: u64,
    rn: u64,
    address: u64,
    count: usize,
) -> Result<usize, Code>
    requires granules_value { sizes_ok settings.base (16 * granules) granules ≡ true }
    requires le_count { 1 ≤ count }
    requires count_bound { count ≤ 2 }
    requires address_value { address % 16 ≡ rn % 16 }
    ensures { result ≡ store_place settings.base granules n rn address count }
{
    if rn % 16 != 0 {
        return Err(misaligned(n));
    }
    Ok(memory::locate(settings.base, granules, address, count)?)
}

// Whether the base register is SP and holds no multiple of 16.
fn is_sp_misaligned(n: u64, rn: u64) -> bool
    ensures { result ≡ (n == 31 && not (rn % 16 == 0)) }
{
    n == 31 && rn % 16 != 0
}

// The granule that LDG names, or the refusal of the lowest code. Its address is rounded down, which leaves the granule as it is.
pub fn place_load(
    settings: Settings,
    granules: usize,
    n: u64,
    rn: u64,
    amount: u64,
) -> Result<usize, Code>
    requires { sizes_ok settings.base (16 * granules) granules ≡ true }
    ensures { result ≡ load_place settings.base granules n rn amount }
{
    if is_sp_misaligned(n, rn) {
        return Err(Code::SpAlign);
    }
    let address = rn.wrapping_add(amount);
    Ok(memory::locate(settings.base, granules, address - address % 16, 1)?)
}
