// The test of soundness: counts, and the points of the lines. `entity_tests` has the rows, `table_tests` one pass over each table, `link_tests` links and
// neighbours.
ghost use Rattle.std.specs.Prelude.{◌≡◌, true, ◌+◌, ◌≤◌, length};
ghost use Rattle.lists.specs.Every.{all};
ghost use Rattle.geometry.specs.Point.{in_reach};
ghost use Rattle.geometry.specs.Float.{coordinate};
ghost use Rattle.polyline.specs.Polyline.{points};
ghost use Rattle.tables.specs.Formed.{counted};
ghost use Rattle.row_tests.specs.Good as G;

use lists::both;

// The largest coordinate.
const REACH: f64 = 16777216.0;

const LEAST: f64 = -16777216.0;

// The coordinates of a point.
const POINT: usize = 3;

const MOST_POINTS: u64 = 65536;

const LINE_POINTS: u64 = 256;

// ---- counts

// A table's count, against its limit and the lent length.
pub fn counted(t: &[u64], limit: u64, row: usize) -> bool
    requires { (limit ≤ 4096) × (row ≤ 512) }
    ensures { result ≡ counted limit row t.now }
{
    if t.len() == 0 {
        return false;
    }
    if limit < t[0] {
        return false;
    }
    1 + (t[0] as usize) * row <= t.len()
}

// The largest id that the counter allows in a map.
pub fn largest_id(counter: u64) -> u64
    ensures { result ≡ G.largest_id counter }
{
    if counter == 0xFFFF_FFFF_FFFF_FFFF {
        return counter;
    }
    if counter == 0 {
        return 0;
    }
    counter - 1
}

// ---- lines

fn coordinate(x: f64) -> bool
    ensures { result ≡ coordinate x }
{
    both(LEAST <= x, x <= REACH)
}

// Whether every coordinate lies within reach. No way out of the loop: several are tested at a time.
fn all_coordinates(line: &[f64]) -> bool
    ensures { result ≡ all coordinate line.now }
{
    let mut good = true;
    for x in line {
        good = both(good, coordinate(*x));
    }
    good
}

// Whether every coordinate of a part's points lies within reach.
fn in_reach(line: &[f64]) -> bool
    ensures { result ≡ all in_reach (points line.now) }
{
    all_coordinates(&line[..polyline::count(line) * POINT])
}

// A line's start and length, in points.
pub fn line_good(coordinates: &[f64], start: u64, size: u64) -> bool
    ensures { result ≡ G.line_good coordinates.now (record { start = start; size = size }) }
{
    if size == 0 {
        return true;
    }
    if LINE_POINTS < size {
        return false;
    }
    if MOST_POINTS < start {
        return false;
    }
    if MOST_POINTS < start + size {
        return false;
    }
    let end = (start + size) as usize;
    if coordinates.len() / 3 < end {
        return false;
    }
    let from = (start as usize) * 3;
    let to = end * 3;
    in_reach(&coordinates[from..to])
}
