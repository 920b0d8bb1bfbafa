// edit/merge.rs: the lines, boundaries and lanes of a merge, written once all is decided. New lines are drawn into an array of work behind a copy of the
// coordinates, the rows point there, and the layout brings every line to its place.
#![tactic(auto)]

ghost use Rattle.std.specs.Prelude.{◌≡◌, ◌+◌, ◌*◌, ◌≤◌, length};
ghost use Rattle.lists.specs.Rows.{over};
ghost use Rattle.polyline.specs.Polyline.{flat};
ghost use Rattle.merge_draw.specs.Redrawing as D;

use entities::Side;
use lane_lines::Drawable;
use tables::{LANE, LANE_CENTERLINE, POINT};

// Floats in the longest line, of 256 points, and in two of them joined.
const LINE_FLOATS: usize = 768;

const JOINED_FLOATS: usize = 1536;

// A line in the work array: where it begins, in points, and how many it has.
#[derive(Clone, Copy)]
pub struct DrawnLine {
    pub start: usize,
    pub size: usize,
}

// What the first lane takes over, each where there is one: a new boundary on the left and another on the right, by their ids, and the joined centreline.
#[derive(Clone, Copy)]
pub struct Taken {
    pub left: Option<u64>,
    pub right: Option<u64>,
    pub center: Option<DrawnLine>,
}

// ---- lines

// The lines of two lanes' boundaries on a side, joined, and backwards where asked; `one`, `two` and `line` are arrays of work.
fn join_in(
    join: f64,
    map: Drawable<'_>,
    i: usize,
    j: usize,
    side: Side,
    back: bool,
    one: &mut [f64],
    two: &mut [f64],
    line: &mut [f64],
    out: &mut [f64],
) -> usize
    requires { (D.Joinable map.lanes.now map.boundaries.now i j map.coordinates.now out.old) × ((768 ≤ length one.old) × ((768 ≤ length two.old) × (1536 ≤ length line.old))) }
    ensures { (result ≡ length (D.joined_side join map.entry.coordinates.now map.entry.lanes.now map.entry.boundaries.now i j side)) × (out.new ≡ over out.old 0 (flat (D.stored_line back (D.joined_side join map.entry.coordinates.now map.entry.lanes.now map.entry.boundaries.now i j side)))) }
{
    let n = lane_lines::oriented_boundary(
        map.lanes,
        i,
        side,
        map.boundaries,
        map.coordinates,
        one,
    ).unwrap_or(0);
    let m = lane_lines::oriented_boundary(
        map.lanes,
        j,
        side,
        map.boundaries,
        map.coordinates,
        two,
    ).unwrap_or(0);
    let one_end = n * POINT;
    let two_end = m * POINT;
    let size = joins::concat(join, &one[..one_end], &two[..two_end], line);
    let end = size * POINT;
    lane_lines::put_line(&line[..end], back, out)
}

// The same with arrays of its own.
pub fn join_side(
    join: f64,
    map: Drawable<'_>,
    i: usize,
    j: usize,
    side: Side,
    back: bool,
    out: &mut [f64],
) -> usize
    requires { D.Joinable map.lanes.now map.boundaries.now i j map.coordinates.now out.old }
    ensures { (result ≡ length (D.joined_side join map.entry.coordinates.now map.entry.lanes.now map.entry.boundaries.now i j side)) × (out.new ≡ over out.old 0 (flat (D.stored_line back (D.joined_side join map.entry.coordinates.now map.entry.lanes.now map.entry.boundaries.now i j side)))) }
{
    let mut one = [0.0; LINE_FLOATS];
    let mut two = [0.0; LINE_FLOATS];
    let mut line = [0.0; JOINED_FLOATS];
    join_in(
        join, map, i, j, side, back, &mut one, &mut two, &mut line, out,
    )
}

// The explicit centrelines of two lanes, joined; both lanes have one.
pub fn join_center(
    join: f64,
    lanes: &[u64],
    i: usize,
    j: usize,
    coordinates: &[f64],
    out: &mut [f64],
) -> usize
    requires { D.Centered lanes.now i j coordinates.now out.old }
    ensures { (result ≡ length (D.joined_centers join coordinates.now lanes.now i j)) × (out.new ≡ over out.old 0 (flat (D.joined_centers join coordinates.now lanes.now i j))) }
{
    let a = 1 + i * LANE + LANE_CENTERLINE;
    let b = 1 + j * LANE + LANE_CENTERLINE;
    let one = lookup::line_of(lanes, a + 1, coordinates);
    let two = lookup::line_of(lanes, b + 1, coordinates);
    joins::concat(join, one, two, out)
}
