// map.rs: the lines of a lane. A boundary is read along it or written, and so is the centreline, each to the front of a lent part.
#![tactic(auto)]

ghost use Rattle.std.specs.Prelude.{◌≡◌, true, cond, ◌+◌, ◌*◌, ◌≤◌, ◌<◌, reverse, length};
ghost use Rattle.lists.specs.Rows.{over};
ghost use Rattle.polyline.specs.Polyline.{points, flat};
ghost use Rattle.rules.specs.Map.{first_of, last_of, derived};
ghost use Rattle.rules.specs.Names.{Left, Right};
ghost use Rattle.tables.specs.View.{word};
ghost use Rattle.lookup.specs.Lookup as K;

use entities::Side;
use geometry::Point3;
use tables::{LANE, LANE_CENTERLINE, POINT};

// Floats in the longest line, of 256 points.
const LINE_FLOATS: usize = 768;

// Lanes, boundaries and coordinates of which every centreline can be drawn.
#[derive(Clone, Copy)]
pub struct Drawable<'a> {
    pub lanes: &'a [u64],
    pub boundaries: &'a [u64],
    pub coordinates: &'a [f64],
    pub ghost drawable: { K.Drawable lanes.now boundaries.now coordinates.now },
}

// An end of a boundary's line along the lane in row i, the first or the last point: a line that the lane runs against is stored the other way round.
fn oriented_end(
    lanes: &[u64],
    i: usize,
    side: Side,
    first: bool,
    boundaries: &[u64],
    coordinates: &[f64],
) -> Option<Point3>
    requires { (K.sorted_table 1024 52 lanes.now ≡ true) × ((i < word 0 lanes.now) × ((K.sorted_table 4096 5 boundaries.now ≡ true) × (K.all_stored 5 2 coordinates.now boundaries.now ≡ true))) }
    ensures { result ≡ cond first (first_of (K.side_line coordinates.now lanes.now boundaries.now i side)) (last_of (K.side_line coordinates.now lanes.now boundaries.now i side)) }
{
    let r = lookup::boundary_ref(lanes, i, side);
    let j = lookup::boundary(boundaries, r.boundary)?;
    let line = lookup::boundary_line(boundaries, j, coordinates);
    if first == r.reversed {
        return polyline::last(line);
    }
    polyline::first(line)
}

// The first point of that line.
pub fn oriented_first(
    lanes: &[u64],
    i: usize,
    side: Side,
    boundaries: &[u64],
    coordinates: &[f64],
) -> Option<Point3>
    requires { (K.sorted_table 1024 52 lanes.now ≡ true) × ((i < word 0 lanes.now) × ((K.sorted_table 4096 5 boundaries.now ≡ true) × (K.all_stored 5 2 coordinates.now boundaries.now ≡ true))) }
    ensures { result ≡ first_of (K.side_line coordinates.now lanes.now boundaries.now i side) }
{
    oriented_end(lanes, i, side, true, boundaries, coordinates)
}

// The last point of that line.
pub fn oriented_last(
    lanes: &[u64],
    i: usize,
    side: Side,
    boundaries: &[u64],
    coordinates: &[f64],
) -> Option<Point3>
    requires { (K.sorted_table 1024 52 lanes.now ≡ true) × ((i < word 0 lanes.now) × ((K.sorted_table 4096 5 boundaries.now ≡ true) × (K.all_stored 5 2 coordinates.now boundaries.now ≡ true))) }
    ensures { result ≡ last_of (K.side_line coordinates.now lanes.now boundaries.now i side) }
{
    oriented_end(lanes, i, side, false, boundaries, coordinates)
}

// A line's points in their order.
fn copied(line: &[f64], out: &mut [f64]) -> usize
    requires { length (points line.now) * 3 ≤ length out.old }
    ensures { (result ≡ length (points line.now)) × (out.new ≡ over out.old 0 (flat (points line.now))) }
{
    let n = polyline::count(line);
    for i in 0..n {
        polyline::put_point(out, i, polyline::point(line, i));
    }
    n
}

// A line's points, backwards where asked.
pub fn put_line(line: &[f64], back: bool, out: &mut [f64]) -> usize
    requires { length (points line.now) * 3 ≤ length out.old }
    ensures { (result ≡ length (points line.now)) × (out.new ≡ over out.old 0 (flat (cond back (reverse (points line.now)) (points line.now)))) }
{
    if back {
        return joins::reversed(line, out);
    }
    copied(line, out)
}

// A boundary's line along the lane in row i. `out` stays as it is where the boundary is missing.
pub fn oriented_boundary(
    lanes: &[u64],
    i: usize,
    side: Side,
    boundaries: &[u64],
    coordinates: &[f64],
    out: &mut [f64],
) -> Option<usize>
    requires { (K.sorted_table 1024 52 lanes.now ≡ true) × ((i < word 0 lanes.now) × ((K.sorted_table 4096 5 boundaries.now ≡ true) × ((K.all_stored 5 2 coordinates.now boundaries.now ≡ true) × ((K.all_short 5 2 boundaries.now ≡ true) × (768 ≤ length out.old))))) }
    ensures { (result ≡ K.count_of (K.side_line coordinates.now lanes.now boundaries.now i side)) × (out.new ≡ over out.old 0 (flat (K.points_or (K.side_line coordinates.now lanes.now boundaries.now i side)))) }
{
    let r = lookup::boundary_ref(lanes, i, side);
    let j = lookup::boundary(boundaries, r.boundary)?;
    let line = lookup::boundary_line(boundaries, j, coordinates);
    Some(put_line(line, r.reversed, out))
}

// The line between both boundaries along the lane, which are written to `left` and `right`.
fn between_sides(
    map: Drawable<'_>,
    i: usize,
    left: &mut [f64],
    right: &mut [f64],
    out: &mut [f64],
) -> Option<usize>
    requires { (i < word 0 map.lanes.now) × ((768 ≤ length left.old) × ((768 ≤ length right.old) × (768 ≤ length out.old))) }
    ensures { (result ≡ K.count_of (derived (K.side_line map.entry.coordinates.now map.entry.lanes.now map.entry.boundaries.now i Left) (K.side_line map.entry.coordinates.now map.entry.lanes.now map.entry.boundaries.now i Right))) × ((out.new ≡ over out.old 0 (flat (K.points_or (derived (K.side_line map.entry.coordinates.now map.entry.lanes.now map.entry.boundaries.now i Left) (K.side_line map.entry.coordinates.now map.entry.lanes.now map.entry.boundaries.now i Right))))) × ((left.new ≡ over left.old 0 (flat (K.points_or (K.side_line map.entry.coordinates.now map.entry.lanes.now map.entry.boundaries.now i Left)))) × (right.new ≡ over right.old 0 (flat (K.points_or (K.side_line map.entry.coordinates.now map.entry.lanes.now map.entry.boundaries.now i Right)))))) }
{
    let l = oriented_boundary(
        map.lanes,
        i,
        Side::Left,
        map.boundaries,
        map.coordinates,
        left,
    );
    let r = oriented_boundary(
        map.lanes,
        i,
        Side::Right,
        map.boundaries,
        map.coordinates,
        right,
    );
    let a = l?;
    let b = r?;
    let left_end = a * POINT;
    let right_end = b * POINT;
    let n = stations::centerline(&left[..left_end], &right[..right_end], out);
    if n == 0 {
        return None;
    }
    Some(n)
}

// That line; both sides are kept in local arrays.
fn derived(map: Drawable<'_>, i: usize, out: &mut [f64]) -> Option<usize>
    requires { (i < word 0 map.lanes.now) × (768 ≤ length out.old) }
    ensures { (result ≡ K.count_of (derived (K.side_line map.entry.coordinates.now map.entry.lanes.now map.entry.boundaries.now i Left) (K.side_line map.entry.coordinates.now map.entry.lanes.now map.entry.boundaries.now i Right))) × (out.new ≡ over out.old 0 (flat (K.points_or (derived (K.side_line map.entry.coordinates.now map.entry.lanes.now map.entry.boundaries.now i Left) (K.side_line map.entry.coordinates.now map.entry.lanes.now map.entry.boundaries.now i Right))))) }
{
    let mut left = [0.0; LINE_FLOATS];
    let mut right = [0.0; LINE_FLOATS];
    between_sides(map, i, &mut left, &mut right, out)
}

// The explicit centreline of the lane in row i, or the one derived from both boundaries.
pub fn centerline(map: Drawable<'_>, i: usize, out: &mut [f64]) -> Option<usize>
    requires { (i < word 0 map.lanes.now) × (768 ≤ length out.old) }
    ensures { (result ≡ K.count_of (K.center_line map.entry.coordinates.now map.entry.lanes.now map.entry.boundaries.now i)) × (out.new ≡ over out.old 0 (flat (K.points_or (K.center_line map.entry.coordinates.now map.entry.lanes.now map.entry.boundaries.now i)))) }
{
    let at = 1 + i * LANE + LANE_CENTERLINE;
    if map.lanes[at] == 0 {
        return derived(map, i, out);
    }
    Some(copied(lookup::line_of(map.lanes, at + 1, map.coordinates), out))
}

// The length of the centreline, which is written to `line`.
fn length_in(map: Drawable<'_>, i: usize, line: &mut [f64]) -> Option<f64>
    requires { (i < word 0 map.lanes.now) × (768 ≤ length line.old) }
    ensures { (result ≡ K.length_of (K.center_line map.entry.coordinates.now map.entry.lanes.now map.entry.boundaries.now i)) × (line.new ≡ over line.old 0 (flat (K.points_or (K.center_line map.entry.coordinates.now map.entry.lanes.now map.entry.boundaries.now i)))) }
{
    let n = centerline(map, i, line)?;
    let end = n * POINT;
    Some(polyline::length(&line[..end]))
}

pub fn lane_length(map: Drawable<'_>, i: usize) -> Option<f64>
    requires { i < word 0 map.lanes.now }
    ensures { result ≡ K.length_of (K.center_line map.entry.coordinates.now map.entry.lanes.now map.entry.boundaries.now i) }
{
    let mut line = [0.0; LINE_FLOATS];
    length_in(map, i, &mut line)
}
