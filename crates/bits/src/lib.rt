// A double and its bit pattern: speed limits and a host's numbers carry doubles as words.
#![tactic(auto)]

ghost use Rattle.std.specs.Prelude.{◌≡◌};
ghost use Rattle.std.specs.Float.{binary64};
ghost use Rattle.std.specs.Float.Ieee.{of_bits, to_bits, nan_bits};

// The bits of infinity: above them, but for the sign, are the NaNs.
const INFINITY: u64 = 0x7FF0_0000_0000_0000;

const SIGN: u64 = 0x8000_0000_0000_0000;

// The bits that stand for the one NaN.
const NAN: u64 = 0x7FF8_0000_0000_0000;

pub fn is_nan(bits: u64) -> bool
    ensures { result ≡ nan_bits binary64 bits }
{
    INFINITY < bits % SIGN
}

// The double with these bits. `from_bits` is not defined at a NaN's.
pub fn double(bits: u64) -> f64
    ensures { result ≡ of_bits binary64 bits }
{
    if is_nan(bits) {
        return 0.0 / 0.0;
    }
    f64::from_bits(bits)
}

// The bits of a double; of every NaN the same. `to_bits` is not defined at one.
pub fn pattern(x: f64) -> u64
    ensures { result ≡ to_bits binary64 x }
{
    if x == x {
        return f64::to_bits(x);
    }
    NAN
}
