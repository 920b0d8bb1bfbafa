// The whole number nearest the root of a * 2 ^ 52, from any guess q at it, in 64-bit integers.
ghost use Rattle.std.specs.Prelude.{◌≡◌, ◌+◌, ◌-◌, ◌*◌, ◌^◌, ◌<◌, ◌≤◌, ltb, if◌then◌else◌, nat_lt};
ghost use Rattle.root.specs.Steps.{Rounded};

use super::HIDDEN;

// q is taken in two halves of this size: high * HALF + low.
const HALF: u64 = 0x400_0000;

// a - high * high stays below this for every q near the root.
const NEAR: u64 = 0x4000_0000;

// The rest a * 2 ^ 52 - q * q is taken a half at a time. `rest` and `middle` differ by it, and high * 2 ^ 27 is added to both, so that neither
// is negative where q is near. A far guess is dropped: a difference that would be negative wraps, so that one test of each holds the rest between
// -3 * q and 3 * q, and q or a neighbour is nearest.
pub fn settle(a: u64, q: u64) -> u64
    requires { (2 ^ 52 ≤ a) × ((a ≤ 2 ^ 54 - 2) × ((2 ^ 52 ≤ q) × (q < 2 ^ 53))) }
    ensures { Rounded a result }
{
    let high = q / HALF;
    let low = q % HALF;
    let over = std::num::wrapping_sub_u64(a, high * high);
    if NEAR <= over {
        return bisect(a);
    }
    let part = std::num::wrapping_sub_u64(over * (HALF / 2) + high, high * low);
    if 5 * (high / 2) < part {
        return bisect(a);
    }
    let rest = part * (HALF * 2);
    let middle = high * (HALF * 2) + low * low;
    q + above(middle + q, rest) - above(rest + q, middle + 1)
}

// 1 where x is below y, else 0.
fn above(x: u64, y: u64) -> u64
    ensures { (result ≡ (if ltb x y then 1 else 0)) × (result ≤ 1) }
{
    if x < y { 1 } else { 0 }
}

// The search by halves, a digit a turn: `low` reaches below the root of a * 2 ^ 52 rounded up, `high` does not. It is hardly ever called, and a function that
// goes on with its own answer is put into no other by the compiler: the first branch, which is never taken, keeps it out of the roots' way. Numbers are searched here,
// not a slice.
pub fn bisect(a: u64) -> u64
    requires { (2 ^ 52 ≤ a) × (a ≤ 2 ^ 54 - 2) }
    ensures { Rounded a result }
{
    if a < HIDDEN {
        return a - bisect(a);
    }
    let mut low = HIDDEN;
    let mut high = HIDDEN * 2;
    while 1 < high - low {
        let middle = low + (high - low) / 2;
        if reaches(a, middle) {
            low = middle;
        } else {
            high = middle;
        }
    }
    low
}

// Whether q * q < a * 2 ^ 52 + q.
fn reaches(a: u64, q: u64) -> bool
    requires { (a < 2 ^ 54) × (q < 2 ^ 54) }
    ensures { result ≡ nat_lt (q * q) (a * 2 ^ 52 + q) }
{
    let s = square(q);
    let high = a + q / HIDDEN;
    if s.high == high {
        return s.low < q % HIDDEN;
    }
    s.high < high
}

// high * 2 ^ 52 + low.
#[derive(Clone, Copy)]
struct Product {
    high: u64,
    low: u64,
}

// q * q in two digits.
fn square(q: u64) -> Product
    requires { q < 2 ^ 54 }
    ensures { (result.high * 2 ^ 52 + result.low ≡ q * q) × (result.low < 2 ^ 52) }
{
    let high = q / HALF;
    let low = q % HALF;
    let cross = high * low;
    let tail = cross % (HALF / 2) * (HALF * 2) + low * low;
    Product {
        high: high * high + cross / (HALF / 2) + tail / HIDDEN,
        low: tail % HIDDEN,
    }
}
