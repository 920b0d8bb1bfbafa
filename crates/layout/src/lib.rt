// Where lines lie after a split or a merge: all lines are laid out anew, one after another. They are taken from a copy of the coordinates, so that no line is
// overwritten before it is copied, and from the lines that the edit has drawn: the rows point to those as if they lay behind the copy.
#![tactic(auto)]

ghost use Rattle.std.specs.Prelude.{◌≡◌, true, suc, ◌+◌, ◌-◌, ◌*◌, ◌/◌, ◌≤◌, ◌<◌, min, length, set, take, drop};
ghost use Rattle.lists.specs.Rows.{over};
ghost use Rattle.tables.specs.View.{word, part};
ghost use Rattle.tables.specs.Formed.{span_at};
ghost use Rattle.apart.specs.Marks.{within};
ghost use Rattle.layout.specs.Layout.{sourced};

use tables::POINT;

// n floats from place `start` on, written from place `at` on.
pub fn copy(from: &[f64], start: usize, n: usize, out: &mut [f64], at: usize)
    requires { (start + n ≤ length from.now) × (at + n ≤ length out.old) }
    ensures { out.new ≡ over out.old at (take n (drop start from.now)) }
{
    let from_end = start + n;
    let at_end = at + n;
    out[at..at_end].copy_from_slice(&from[start..from_end]);
}

// How many points of a line lie before point `reach`.
fn points_before(start: usize, size: usize, reach: usize) -> usize
    requires { start < reach }
    ensures { result ≡ min size (reach - start) }
{
    let most = reach - start;
    if size < most {
        return size;
    }
    most
}

// A line written to the coordinates from point `at` on. Points before `reach` are taken from `work`, those from there on from the drawn lines. An empty line
// has no point, wherever it starts.
fn copy_line(
    work: &[f64],
    reach: usize,
    drawn: &[f64],
    start: usize,
    size: usize,
    coordinates: &mut [f64],
    at: usize,
)
    requires { (reach * 3 ≤ length work.now) × ((within (length (sourced reach work.now drawn.now) / 3) (record { start = start; size = size }) ≡ true) × ((at + size) * 3 ≤ length coordinates.old)) }
    ensures { coordinates.new ≡ over coordinates.old (at * 3) (part (sourced reach work.now drawn.now) start size) }
{
    if size == 0 {
        return;
    }
    if reach <= start {
        let from = (start - reach) * POINT;
        copy(drawn, from, size * POINT, coordinates, at * POINT);
        return;
    }
    let n = points_before(start, size, reach);
    let rest = size - n;
    copy(work, start * POINT, n * POINT, coordinates, at * POINT);
    copy(drawn, 0, rest * POINT, coordinates, (at + n) * POINT);
}

// The line whose start is word k, written to the coordinates from point `at` on, where it starts from now on; the point behind it.
pub fn gather_line(
    rows: &mut [u64],
    k: usize,
    work: &[f64],
    reach: usize,
    drawn: &[f64],
    coordinates: &mut [f64],
    at: usize,
) -> usize
    requires { (reach * 3 ≤ length work.now) × ((k + 2 ≤ length rows.old) × ((within (length (sourced reach work.now drawn.now) / 3) (span_at k rows.old) ≡ true) × ((at + word (suc k) rows.old) * 3 ≤ length coordinates.old))) }
    ensures { (result ≡ at + word (suc k) rows.old) × ((rows.new ≡ set rows.old k at) × (coordinates.new ≡ over coordinates.old (at * 3) (part (sourced reach work.now drawn.now) (word k rows.old) (word (suc k) rows.old)))) }
{
    let next = k + 1;
    let start = rows[k] as usize;
    let size = rows[next] as usize;
    rows[k] = at as u64;
    copy_line(work, reach, drawn, start, size, coordinates, at);
    at + size
}
