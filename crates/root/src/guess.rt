// The whole number nearest the root of m * 2 ^ odd * 2 ^ 52: a guess in float arithmetic, good to about one unit, which `settle` mends. Nothing
// that is proved rests on the guess.
ghost use Rattle.std.specs.Prelude.{◌≡◌, ◌-◌, ◌^◌, ◌<◌, ◌≤◌};
ghost use Rattle.root.specs.Guess as G;
ghost use Rattle.root.specs.Steps.{Rounded};

use super::{HIDDEN, settle};

// The exponent field of a double in 1 to 2, less one: a significand of 53 digits adds the one.
const ONE: u64 = 1022;

// The factor of `seed` for an even place, and that over √2 for an odd one. It takes 1 / √v times 0.63, the cube root of 1 / 4, so that
// Newton's step needs no factor of its own and ends at half of 1 / √v.
const EVEN: f64 = 0.0320120602063385;

const ODD: f64 = 0.022635944851653978;

// Three times the square of that 0.63, for Newton's step. With it alone the step always falls short; half of what it may lose is added.
const STEP: f64 = 1.1905507922371992;

// EVEN * seed(u) is 0.63 / √u for u from 1 to 2, within 1 in 13,500: the polynomial of degree 4 whose largest relative error there is least,
// as two factors. A table would be copied to the stack at each call.
fn seed(u: f64) -> f64
    ensures { result ≡ G.seed_of u }
{
    (u * (u - 1.3711668696) + 3.5488291326) * (u * (u - 6.2971467609) + 11.4895585591)
}

fn factor(odd: u64) -> f64
    ensures { result ≡ G.factor_of odd }
{
    if odd == 0 { EVEN } else { ODD }
}

// √(m * 2 ^ odd / 2 ^ 52), from 1 to 2.
pub fn guess(m: u64, odd: u64) -> f64
    requires { (2 ^ 52 ≤ m) × ((m < 2 ^ 53) × (odd < 2)) }
    ensures { result ≡ G.guess_of m odd }
{
    let v = f64::from_bits((ONE + odd) * HIDDEN + m);
    let s = seed(f64::from_bits(ONE * HIDDEN + m)) * factor(odd);
    let w = v * s;
    let k = STEP - w * s;
    let g = (w + w) * k;
    g + (v - g * g) * (s * k)
}

// The test keeps a NaN from `to_bits`.
pub fn nearest(a: u64, guess: f64) -> u64
    requires { (2 ^ 52 ≤ a) × (a ≤ 2 ^ 54 - 2) }
    ensures { Rounded a result }
{
    if guess == guess {
        return settle::settle(a, f64::to_bits(guess) % HIDDEN + HIDDEN);
    }
    settle::bisect(a)
}
