// What the programs share: the numbers of a stored stream (oracle/FORMAT.md) and the tables made of them, digests, lines of numbers. Nothing is asked of
// the bytes: past the end there is nothing to read.
#![tactic(auto)]

ghost use Rattle.std.specs.Prelude.{ℕ, ◌≡◌, ◌+◌, ◌≤◌, ◌<◌, ◌^◌, length, take, get_or};
ghost use Rattle.std.specs.Float.{binary64};
ghost use Rattle.std.specs.Float.Ieee.{of_bits, to_bits};
ghost use Rattle.lists.specs.Rows.{over};
ghost use Rattle.stream.specs.Numbers as N;

pub mod digest;
pub mod file;
pub mod text;

// Bytes of a number, at most.
const BYTES: u64 = 10;

// A number below this can have seven bits more.
const CARRIED: u64 = 0x200_0000_0000_0000;

// A number, and the place behind it.
#[derive(Clone, Copy)]
pub struct Taken {
    pub value: u64,
    pub next: usize,
}

// How many places of a table were read, and the place behind them in the stream.
#[derive(Clone, Copy)]
pub struct Part {
    pub size: usize,
    pub next: usize,
}

fn wide(byte: u8) -> u64
    ensures { result ≡ byte }
{
    byte as u64
}

// ---- numbers

// The number at a place, of at most so many bytes.
fn digits(s: &[u8], at: usize, bytes: u64) -> Taken
    ensures { result ≡ N.taken bytes s.now at }
{
    if bytes == 0 {
        return Taken { value: 0, next: at };
    }
    if s.len() <= at {
        return Taken { value: 0, next: at };
    }
    let low = wide(s[at]);
    if low < 128 {
        return Taken {
            value: low,
            next: at + 1,
        };
    }
    let rest = digits(s, at + 1, bytes - 1);
    if rest.value < CARRIED {
        return Taken {
            value: low % 128 + rest.value * 128,
            next: rest.next,
        };
    }
    Taken {
        value: 0,
        next: rest.next,
    }
}

pub fn number(s: &[u8], at: usize) -> Taken
    ensures { result ≡ record { value = N.number_at s.now at; next = N.behind s.now at } }
{
    digits(s, at, BYTES)
}

// ---- tables

// What a table holds: each entry is read from a number of the stream, and goes into a digest as a word.
pub trait Item: Copy {
    ghost of_word: { ℕ → Self };

    ghost to_word: { Self → ℕ };

    fn of_word(word: u64) -> Self
        ensures { result ≡ of_word word };

    fn to_word(self) -> u64
        ensures { result ≡ to_word self };
}

impl Item for u64 {
    ghost of_word = { λ n. n };

    ghost to_word = { λ w. w };

    fn of_word(word: u64) -> u64 {
        word
    }

    fn to_word(self) -> u64 {
        self
    }
}

// Doubles by their bits, every NaN as one.
impl Item for f64 {
    ghost of_word = { of_bits binary64 };

    ghost to_word = { to_bits binary64 };

    fn of_word(word: u64) -> f64 {
        bits::double(word)
    }

    fn to_word(self) -> u64 {
        bits::pattern(self)
    }
}

// As many numbers as there are places; the place behind them.
pub fn fill<T: Item>(s: &[u8], from: usize, table: &mut [T]) -> usize
    ensures { (table.new ≡ N.read_by T.of_word (length table.old) s.now from) × (result ≡ N.behind_all (length table.old) s.now from) }
{
    let mut at = from;
    for place in table {
        let n = number(s, at);
        *place = T::of_word(n.value);
        at = n.next;
    }
    at
}

// A table into the front of an array: how many entries it has, and those entries. Of one that is too long, what there is room for.
pub fn read_table<T: Item>(s: &[u8], from: usize, table: &mut [T]) -> Part
    ensures { (result ≡ N.part (length table.old) s.now from) × ((table.new ≡ over table.old 0 (N.read_by T.of_word result.size s.now (N.behind s.now from))) × ((result.size ≤ length table.new) × (result.size ≡ length (take result.size table.new)))) }
{
    let n = number(s, from);
    let size = (n.value as usize).min(table.len());
    let next = fill(s, n.next, &mut table[..size]);
    Part { size, next }
}

// ---- words of eight bytes

// The byte i places behind `at`.
fn byte(s: &[u8], at: usize, i: usize) -> u64
    ensures { (result ≡ get_or s.now (at + i) 0) × (result < 256) }
{
    if at < s.len() {
        if i < s.len() - at {
            return wide(s[at + i]);
        }
    }
    0
}

// Four bytes, the least first, from i places behind `at` on.
fn half(s: &[u8], at: usize, i: usize) -> u64
    requires { i < 256 }
    ensures { (result ≡ N.half_at s.now at i) × (result < 2 ^ 32) }
{
    byte(s, at, i)
        + byte(s, at, i + 1) * 0x100
        + byte(s, at, i + 2) * 0x1_0000
        + byte(s, at, i + 3) * 0x100_0000
}

// Eight bytes, the least first; those past the end are 0.
pub fn word(s: &[u8], at: usize) -> u64
    ensures { result ≡ N.word_at s.now at }
{
    half(s, at, 0) + half(s, at, 4) * 0x1_0000_0000
}
