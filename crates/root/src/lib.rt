// The square root of a double: the double nearest the exact root, for every double.
// A guess in float arithmetic is settled by exact integers, so nothing that is proved rests on the guess.
#![tactic(auto)]

ghost use Rattle.std.specs.Prelude.{◌≡◌, true, from_bits, Float};
ghost use Rattle.std.specs.Float.{binary64};
ghost use Rattle.std.specs.Float.Ieee.{lt, le};
ghost use Rattle.root.specs.Root.{root};
ghost use Rattle.root.specs.Begun.{Unfinished};

mod guess;
mod scale;
mod settle;

// 2 ^ 52: the weight of a double's exponent field, and the least significand of 53 digits.
pub const HIDDEN: u64 = 0x10_0000_0000_0000;

// The smallest double that is not subnormal.
const SMALLEST: f64 = 2.2250738585072014e-308;

// The largest finite double.
const LARGEST: f64 = 1.7976931348623157e308;

// Document 01: the double nearest the exact root, ties to even.
pub fn sqrt(x: f64) -> f64
    ensures { result ≡ root x }
{
    if SMALLEST <= x {
        if x <= LARGEST {
            return normal(x);
        }
    }
    rare(x)
}

// A root that is begun, for a caller that begins the next before it finishes this one: the processor then works on both. Where `a` is below 2 ^ 52
// the root is known, and is `guess`; else it is the double of the bits `top` and the whole number nearest the root of a * 2 ^ 52.
#[derive(Clone, Copy)]
pub struct Begun {
    pub a: u64,
    pub top: u64,
    pub guess: f64,
}

// The root of x, begun.
pub fn begin(x: f64) -> Begun
    ensures { Unfinished (root x) result.a result.top result.guess }
{
    if SMALLEST <= x {
        if x <= LARGEST {
            let s = scale::normal(f64::to_bits(x));
            let guess = guess::guess(s.digits, s.odd);
            return Begun {
                a: s.digits * (1 + s.odd),
                top: s.half * HIDDEN,
                guess,
            };
        }
    }
    known(rare(x))
}

// A number that is known, in the place of a root.
pub fn known(value: f64) -> Begun
    ensures { Unfinished value result.a result.top result.guess }
{
    Begun {
        a: 0,
        top: 0,
        guess: value,
    }
}

// The root that was begun.
pub fn finish(b: Begun) -> f64
    requires { (s : Float) × Unfinished s b.a b.top b.guess }
    ensures { (s : Float) → Unfinished s b.a b.top b.guess → result ≡ s }
{
    if b.a < HIDDEN {
        return b.guess;
    }
    f64::from_bits(b.top + guess::nearest(b.a, b.guess))
}

// The root of a double that is neither subnormal nor infinite: a significand of 53 digits, and the power of two that `normal` found.
fn normal(x: f64) -> f64
    requires { (le (from_bits binary64 0x10_0000_0000_0000) x ≡ true) × (le x (from_bits binary64 0x7FEF_FFFF_FFFF_FFFF) ≡ true) }
    ensures { result ≡ root x }
{
    let s = scale::normal(f64::to_bits(x));
    let guess = guess::guess(s.digits, s.odd);
    let q = guess::nearest(s.digits * (1 + s.odd), guess);
    f64::from_bits(s.half * HIDDEN + q)
}

// The root of a double of any kind; here come the subnormal, zero, negative and infinite ones, and NaN.
fn rare(x: f64) -> f64
    ensures { result ≡ root x }
{
    if 0.0 < x {
        if x <= LARGEST {
            return positive(x);
        }
        return x;
    }
    if x == 0.0 {
        return x;
    }
    0.0 / 0.0
}

// The root of a double that is finite and above zero: a significand of 53 digits, and the power of two that `scale` found.
fn positive(x: f64) -> f64
    requires { (lt (from_bits binary64 0) x ≡ true) × (le x (from_bits binary64 0x7FEF_FFFF_FFFF_FFFF) ≡ true) }
    ensures { result ≡ root x }
{
    let s = scale::scale(f64::to_bits(x));
    let guess = guess::guess(s.digits, s.odd);
    let q = guess::nearest(s.digits * (1 + s.odd), guess);
    f64::from_bits(s.half * HIDDEN + q)
}
