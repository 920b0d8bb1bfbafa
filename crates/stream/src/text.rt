// Numbers as text in ASCII.
ghost use Rattle.std.specs.Prelude.{◌≡◌, ◌+◌, ◌*◌, ◌≤◌, ◌<◌, length};
ghost use Rattle.io.specs.Counts.{IsPrefixLen};
ghost use Rattle.lists.specs.Rows.{over};
ghost use Rattle.stream.specs.Text as T;

const BLANK: u8 = 32;

const ZERO: u8 = 48;

// Digits of a word, at most.
const DIGITS: usize = 20;

fn glyph(digit: u64) -> u8
    requires { digit < 10 }
    ensures { result ≡ 48 + digit }
{
    ZERO + digit as u8
}

// The last of n's digits, so many at most, from place `at` on; the place behind them.
fn decimal(out: &mut [u8], at: usize, digits: usize, n: u64) -> usize
    requires { at + digits ≤ length out.old }
    ensures { (out.new ≡ over out.old at (T.decimal_in digits n)) × (result ≡ at + length (T.decimal_in digits n)) }
{
    if digits == 0 {
        return at;
    }
    if n < 10 {
        out[at] = glyph(n);
        return at + 1;
    }
    let last = decimal(out, at, digits - 1, n / 10);
    out[last] = glyph(n % 10);
    last + 1
}

// A blank and a number, from place `at` on; the place behind them.
fn spaced(out: &mut [u8], at: usize, n: u64) -> usize
    requires { at + 21 ≤ length out.old }
    ensures { (out.new ≡ over out.old at (T.spaced n)) × (result ≡ at + length (T.spaced n)) }
{
    out[at] = BLANK;
    decimal(out, at + 1, DIGITS, n)
}

// Numbers in decimal, each with a blank before it; how many bytes they are.
pub fn row(numbers: &[u64], out: &mut [u8]) -> usize
    requires { length numbers.now * 21 ≤ length out.old }
    ensures { (out.new ≡ over out.old 0 (T.row numbers.now)) × ((result ≡ length (T.row numbers.now)) × IsPrefixLen result out.new) }
{
    let mut at = 0;
    for n in numbers {
        at = spaced(out, at, *n);
    }
    at
}
