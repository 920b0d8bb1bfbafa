// edit/split.rs: on which side of the cut a point is, by its nearest station on the two halves' joined line.
#![tactic(auto)]

ghost use Rattle.std.specs.Prelude.{◌≡◌, true, ◌*◌, ◌≤◌, length};
ghost use Rattle.polyline.specs.Polyline.{points};
ghost use Rattle.lookup.specs.Lookup as K;
ghost use Rattle.split_half.specs.Half as D;

use entities::Side;
use geometry::Point2;
use lane_lines::Drawable;
use tables::{LANE, LANE_CENTERLINE, POINT};

// Floats in the longest half, of 258 points, and in two of them joined.
const HALF_FLOATS: usize = 774;

const JOINED_FLOATS: usize = 1548;

// The line between both; four arrays of work.
fn half_between(
    map: Drawable<'_>,
    i: usize,
    point: Point2,
    second: bool,
    piece: &mut [f64],
    left: &mut [f64],
    right: &mut [f64],
    out: &mut [f64],
) -> Option<usize>
    requires { (D.Halving map.lanes.now map.boundaries.now map.coordinates.now i) × ((774 ≤ length piece.old) × ((774 ≤ length left.old) × ((774 ≤ length right.old) × (774 ≤ length out.old)))) }
    ensures { (result ≡ K.count_of (D.row_derived map.entry.coordinates.now map.entry.lanes.now map.entry.boundaries.now point second i)) × (out.new ≡ D.line_over out.old (D.row_derived map.entry.coordinates.now map.entry.lanes.now map.entry.boundaries.now point second i)) }
{
    let l = split_half::half_side(map, i, Side::Left, point, second, piece, left);
    let r = split_half::half_side(map, i, Side::Right, point, second, piece, right);
    let a = l?;
    let b = r?;
    let left_end = a * POINT;
    let right_end = b * POINT;
    let n = stations::centerline(&left[..left_end], &right[..right_end], out);
    if n == 0 {
        return None;
    }
    Some(n)
}

// The same with arrays of its own.
fn half_derived(
    map: Drawable<'_>,
    i: usize,
    point: Point2,
    second: bool,
    out: &mut [f64],
) -> Option<usize>
    requires { (D.Halving map.lanes.now map.boundaries.now map.coordinates.now i) × (774 ≤ length out.old) }
    ensures { (result ≡ K.count_of (D.row_derived map.entry.coordinates.now map.entry.lanes.now map.entry.boundaries.now point second i)) × (out.new ≡ D.line_over out.old (D.row_derived map.entry.coordinates.now map.entry.lanes.now map.entry.boundaries.now point second i)) }
{
    let mut piece = [0.0; HALF_FLOATS];
    let mut left = [0.0; HALF_FLOATS];
    let mut right = [0.0; HALF_FLOATS];
    half_between(
        map, i, point, second, &mut piece, &mut left, &mut right, out,
    )
}

// The centreline of a half of the lane in row i: of an explicit one that has points a piece, else what lies between both boundaries.
fn half_center(
    map: Drawable<'_>,
    i: usize,
    point: Point2,
    second: bool,
    out: &mut [f64],
) -> Option<usize>
    requires { (D.Halving map.lanes.now map.boundaries.now map.coordinates.now i) × (774 ≤ length out.old) }
    ensures { (result ≡ K.count_of (D.row_half map.entry.coordinates.now map.entry.lanes.now map.entry.boundaries.now point second i)) × (out.new ≡ D.line_over out.old (D.row_half map.entry.coordinates.now map.entry.lanes.now map.entry.boundaries.now point second i)) }
{
    let at = 1 + i * LANE + LANE_CENTERLINE;
    if map.lanes[at] != 0 {
        let line = lookup::line_of(map.lanes, at + 1, map.coordinates);
        if polyline::count(line) != 0 {
            return Some(split_half::half_line(line, point, second, out));
        }
    }
    half_derived(map, i, point, second, out)
}

// Whether the nearest station of an anchor on a line is at or past the cut.
fn past_on(line: &[f64], station: f64, anchor: Point2) -> bool
    ensures { result ≡ D.past_on (points line.now) station anchor }
{
    let found = nearest::nearest_point(line, anchor);
    let Some(near) = found else {
        return false;
    };
    station <= near.station
}

// The same on both halves of the lane in row i joined; three arrays of work.
fn past_in(
    join: f64,
    map: Drawable<'_>,
    i: usize,
    point: Point2,
    station: f64,
    anchor: Point2,
    one: &mut [f64],
    two: &mut [f64],
    line: &mut [f64],
) -> bool
    requires { (D.Halving map.lanes.now map.boundaries.now map.coordinates.now i) × ((774 ≤ length one.old) × ((774 ≤ length two.old) × (1548 ≤ length line.old))) }
    ensures { result ≡ D.row_past join map.entry.coordinates.now map.entry.lanes.now map.entry.boundaries.now point i station anchor }
{
    let first = half_center(map, i, point, false, one);
    let second = half_center(map, i, point, true, two);
    let Some(a) = first else {
        return false;
    };
    let Some(b) = second else {
        return false;
    };
    let one_end = a * POINT;
    let two_end = b * POINT;
    let n = joins::concat(join, &one[..one_end], &two[..two_end], line);
    let end = n * POINT;
    past_on(&line[..end], station, anchor)
}

// Whether an anchor lies at or past the cut of the lane in row i, whose station is given.
pub fn past_cut(
    join: f64,
    map: Drawable<'_>,
    i: usize,
    point: Point2,
    station: f64,
    anchor: Point2,
) -> bool
    requires { D.Halving map.lanes.now map.boundaries.now map.coordinates.now i }
    ensures { result ≡ D.row_past join map.entry.coordinates.now map.entry.lanes.now map.entry.boundaries.now point i station anchor }
{
    let mut one = [0.0; HALF_FLOATS];
    let mut two = [0.0; HALF_FLOATS];
    let mut line = [0.0; JOINED_FLOATS];
    past_in(
        join, map, i, point, station, anchor, &mut one, &mut two, &mut line,
    )
}
