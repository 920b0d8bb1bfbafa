// A positive double as 53 binary digits, with the power of two halved for its root.
ghost use Rattle.std.specs.Prelude.{◌+◌, ◌*◌, ◌^◌, ◌<◌, ◌≤◌};
ghost use Rattle.root.specs.Steps.{Scaled, magnitude};

use super::HIDDEN;

// The smallest double is 2 ^ -1074.
const PLACES: u64 = 1074;

// digits * 2 ^ odd * 2 ^ 52 * 4 ^ half.
#[derive(Clone, Copy)]
pub struct Parts {
    pub digits: u64,
    pub odd: u64,
    pub half: u64,
}

// Of a double's bits: its size in units of 2 ^ -1074, times 2 ^ 1074.
pub fn scale(bits: u64) -> Parts
    requires { (0 < bits) × (bits < 2047 * 2 ^ 52) }
    ensures { Scaled (magnitude bits * 2 ^ 1074) result.digits result.odd result.half }
{
    if bits < HIDDEN {
        return subnormal(bits);
    }
    normal(bits)
}

pub fn normal(bits: u64) -> Parts
    requires { (2 ^ 52 ≤ bits) × (bits < 2047 * 2 ^ 52) }
    ensures { Scaled (magnitude bits * 2 ^ 1074) result.digits result.odd result.half }
{
    halved(bits % HIDDEN + HIDDEN, PLACES + bits / HIDDEN - 1)
}

// A subnormal's digits are moved up until there are 53: the loop ends by the digits, not by a count.
fn subnormal(digits: u64) -> Parts
    requires { (0 < digits) × (digits < 2 ^ 52) }
    ensures { Scaled (digits * 2 ^ 1074) result.digits result.odd result.half }
{
    let mut m = digits;
    let mut places = PLACES;
    while m < HIDDEN {
        m = m * 2;
        places = places - 1;
    }
    halved(m, places)
}

// m * 2 ^ places, where an odd place is kept apart.
fn halved(m: u64, places: u64) -> Parts
    requires { (2 ^ 52 ≤ m) × ((m < 2 ^ 53) × ((1022 ≤ places) × (places < 3120))) }
    ensures { Scaled (m * 2 ^ places) result.digits result.odd result.half }
{
    Parts {
        digits: m,
        odd: places % 2,
        half: (places - 52) / 2,
    }
}
