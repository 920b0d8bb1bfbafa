// Lines brought to their places within the coordinates, where they lie in order already, as every split and merge leaves them. What lies behind its place is
// moved first, from the front on; then what lies before its place and what is drawn anew, from the back on: no line is overwritten before it is moved.
#![tactic(auto)]

ghost use Rattle.std.specs.Prelude.{◌≡◌, true, ◌+◌, ◌-◌, ◌*◌, ◌/◌, ◌≤◌, ◌<◌, length, take, drop};
ghost use Rattle.lists.specs.Rows.{over};
ghost use Rattle.in_place.specs.Settle as D;

use tables::POINT;

// ---- floats

// n floats from place `start` on, moved down to place `at`.
fn shift_down(c: &mut [f64], start: usize, n: usize, at: usize)
    requires { (at ≤ start) × (start + n ≤ length c.old) }
    ensures { c.new ≡ over c.old at (take n (drop start c.old)) }
{
    for i in 0..n {
        c[at + i] = c[start + i];
    }
}

// The same, moved up: the last one first.
fn shift_up(c: &mut [f64], start: usize, n: usize, at: usize)
    requires { (start ≤ at) × (at + n ≤ length c.old) }
    ensures { c.new ≡ over c.old at (take n (drop start c.old)) }
{
    for i in (0..n).rev() {
        c[at + i] = c[start + i];
    }
}

// ---- from the front on

// A line that lies behind point `at`, its place, is moved there; one that is drawn stays.
pub fn line_down(start: u64, size: usize, reach: usize, coordinates: &mut [f64], at: usize)
    requires { (D.lies reach 65536 (record { start = start; size = size }) ≡ true) × ((reach ≤ 65536) × (reach * 3 ≤ length coordinates.old)) }
    ensures { coordinates.new ≡ D.down_one reach at (record { start = start; size = size }) coordinates.old }
{
    if size == 0 {
        return;
    }
    let begin = start as usize;
    if reach <= begin {
        return;
    }
    if at < begin {
        shift_down(coordinates, begin * POINT, size * POINT, at * POINT);
    }
}

// ---- from the back on

// A line that is drawn, or that lies before point `at`, its place, is brought there.
pub fn line_up(
    start: u64,
    size: usize,
    reach: usize,
    drawn: &[f64],
    coordinates: &mut [f64],
    at: usize,
)
    requires { (D.lies reach (length drawn.now / 3) (record { start = start; size = size }) ≡ true) × (D.Movable reach drawn.now coordinates.old (at + size)) }
    ensures { coordinates.new ≡ D.up_one drawn.now reach at (record { start = start; size = size }) coordinates.old }
{
    if size == 0 {
        return;
    }
    let begin = start as usize;
    if reach <= begin {
        let from = (begin - reach) * POINT;
        layout::copy(drawn, from, size * POINT, coordinates, at * POINT);
        return;
    }
    if begin < at {
        shift_up(coordinates, begin * POINT, size * POINT, at * POINT);
    }
}
