// Compares the square root with the processor's own answers, a stored list of which is in data/roots: rows of the bits of x and the bits of
// its root, eight bytes each, least first. bench/README.md says how the list was made.
#![tactic(auto)]

ghost use Rattle.std.specs.Prelude.{◌≡◌, true};
ghost use Rattle.std.specs.Float.{binary64};
ghost use Rattle.std.specs.Float.Ieee.{of_bits};
ghost use Rattle.root.specs.Root.{root};

use std::fs::File;
use std::io;
use stream::file;

const ROW: usize = 16;

// Whether the root of the double with the bits x is the one with the bits expected; of NaNs there is one.
fn agrees(x: u64, expected: u64) -> bool
    ensures { result ≡ true → root (of_bits binary64 x) ≡ of_bits binary64 expected }
{
    let found = root::sqrt(bits::double(x));
    bits::pattern(found) == bits::pattern(bits::double(expected))
}

// How many rows have another root than ours.
fn differing(rows: &[u8]) -> usize {
    rows.chunks_exact(ROW)
        .filter(|row| !agrees(stream::word(row, 0), stream::word(row, 8)))
        .count()
}

fn report(rt: &impl Print, rows: &[u8]) -> io::Result<()> {
    let compared = rows.len() / ROW;
    let differ = differing(rows);
    println!(rt; "{compared} roots compared, {differ} differ")
}

fn main(rt: HostRuntime) -> io::Result<()> {
    let mut file = File::open(&rt, "roots")?;
    let mut rows = [0; 65536];
    let n = file::read_full(&mut file, &mut rows);
    report(&rt, &rows[..n])
}
