// edit/merge.rs: what a merge decides before anything is written: how each side and the centreline are joined, and what is told of what two lanes have apart. Lines are not drawn here: a joined line's points are counted from the two lines' own.
#![tactic(auto)]

ghost use Rattle.std.specs.Prelude.{◌≡◌, true, [], ◌<◌};
ghost use Rattle.rules.specs.Map.{neighbor_on};
ghost use Rattle.rules.specs.Merge as M;
ghost use Rattle.tables.specs.View.{word};
ghost use Rattle.report.specs.Report.{issues};
ghost use Rattle.lookup.specs.Lookup as K;
ghost use Rattle.merge_plan.specs.Deciding as P;

use entities::{IssueCode, Refusal, Side};
use lane_lines::Drawable;
use lists::both;
use merge_plan::{Joined, Plan};
use report::Notice;
use tables::{
    BOUNDARY, BOUNDARY_SIZE, LANE, LANE_CENTERLINE, LANE_CENTERLINE_SIZE, LANE_CENTERLINE_START,
    LANE_KIND, LANE_SPEED, LANE_TURN, NONE,
};

// How many points the lines of two boundaries have when they are joined along their lanes; x and y are the boundaries' rows.
fn joined_points(
    join: f64,
    map: Drawable<'_>,
    i: usize,
    j: usize,
    side: Side,
    x: usize,
    y: usize,
) -> usize
    requires { P.SideRows map.lanes.now i j side map.boundaries.now x y map.coordinates.now }
    ensures { result ≡ P.joined_length join (K.side_line map.entry.coordinates.now map.entry.lanes.now map.entry.boundaries.now i side) (K.side_line map.entry.coordinates.now map.entry.lanes.now map.entry.boundaries.now j side) }
{
    let end = lane_lines::oriented_last(map.lanes, i, side, map.boundaries, map.coordinates);
    let start = lane_lines::oriented_first(map.lanes, j, side, map.boundaries, map.coordinates);
    let one = map.boundaries[1 + x * BOUNDARY + BOUNDARY_SIZE] as usize;
    let two = map.boundaries[1 + y * BOUNDARY + BOUNDARY_SIZE] as usize;
    one + two - joins::meeting(join, end, start)
}

// The plan of a side, or the boundary that is absent. A boundary that both lanes name is not looked up.
pub fn side_plan(
    join: f64,
    map: Drawable<'_>,
    i: usize,
    j: usize,
    side: Side,
) -> Result<Joined, Refusal>
    requires { (i < word 0 map.lanes.now) × (j < word 0 map.lanes.now) }
    ensures { result ≡ P.side_told (P.side_plan_in join map.entry.coordinates.now map.entry.lanes.now map.entry.boundaries.now i j side) }
{
    let one = lookup::boundary_ref(map.lanes, i, side).boundary;
    let two = lookup::boundary_ref(map.lanes, j, side).boundary;
    if one == two {
        return Ok(Joined::Kept);
    }
    let found = lookup::boundary(map.boundaries, one);
    let Some(x) = found else {
        return Err(Refusal::BoundaryAbsent(one));
    };
    let other = lookup::boundary(map.boundaries, two);
    let Some(y) = other else {
        return Err(Refusal::BoundaryAbsent(two));
    };
    let points = joined_points(join, map, i, j, side, x, y);
    if merge_plan::alone(map.lanes, i, one, j, two) {
        return Ok(Joined::InPlace(points));
    }
    Ok(Joined::Fresh(points))
}

// How many points two explicit centrelines have when they are joined, where both lanes have one.
pub fn center_plan(
    join: f64,
    lanes: &[u64],
    i: usize,
    j: usize,
    coordinates: &[f64],
) -> Option<usize>
    requires { (K.sorted_table 1024 52 lanes.now ≡ true) × ((K.centers_stored coordinates.now lanes.now ≡ true) × ((i < word 0 lanes.now) × (j < word 0 lanes.now))) }
    ensures { result ≡ K.count_of (P.center_plan join coordinates.now lanes.now i j) }
{
    let a = 1 + i * LANE;
    let b = 1 + j * LANE;
    if lanes[a + LANE_CENTERLINE] == 0 {
        return None;
    }
    if lanes[b + LANE_CENTERLINE] == 0 {
        return None;
    }
    let end = polyline::last(lookup::line_of(lanes, a + LANE_CENTERLINE_START, coordinates));
    let start = polyline::first(lookup::line_of(lanes, b + LANE_CENTERLINE_START, coordinates));
    let one = lanes[a + LANE_CENTERLINE_SIZE] as usize;
    let two = lanes[b + LANE_CENTERLINE_SIZE] as usize;
    Some(one + two - joins::meeting(join, end, start))
}

pub fn decide(join: f64, map: Drawable<'_>, i: usize, j: usize) -> Result<Plan, Refusal>
    requires { (i < word 0 map.lanes.now) × (j < word 0 map.lanes.now) }
    ensures { result ≡ P.planned join map.entry.coordinates.now map.entry.lanes.now map.entry.boundaries.now i j }
{
    let left = side_plan(join, map, i, j, Side::Left)?;
    let right = side_plan(join, map, i, j, Side::Right)?;
    let center = center_plan(join, map.lanes, i, j, map.coordinates);
    Ok(Plan {
        left,
        right,
        center,
    })
}

// Whether kind, speed limit or turn of the lanes in rows i and j differ.
pub fn conflict(lanes: &[u64], i: usize, j: usize) -> bool
    requires { (K.sorted_table 1024 52 lanes.now ≡ true) × ((i < word 0 lanes.now) × (j < word 0 lanes.now)) }
    ensures { result ≡ M.conflict (P.lane_in [] lanes.now i) (P.lane_in [] lanes.now j) }
{
    let a = 1 + i * LANE;
    let b = 1 + j * LANE;
    if lanes[a + LANE_KIND] != lanes[b + LANE_KIND] {
        return true;
    }
    if lanes[a + LANE_TURN] != lanes[b + LANE_TURN] {
        return true;
    }
    let one = a + LANE_SPEED;
    let two = b + LANE_SPEED;
    merge_plan::speeds_differ(lanes[one], lanes[one + 1], lanes[two], lanes[two + 1])
}

// The warning that a neighbour of the lane in row j is dropped: the slot of the lane in row i on that side names another lane, or none.
pub fn dropped(lanes: &[u64], i: usize, j: usize, side: Side) -> Option<Notice>
    requires { (K.sorted_table 1024 52 lanes.now ≡ true) × ((i < word 0 lanes.now) × (j < word 0 lanes.now)) }
    ensures { issues result ≡ M.dropped (P.lane_in [] lanes.now i).id (neighbor_on side (P.lane_in [] lanes.now j)) (neighbor_on side (P.lane_in [] lanes.now i)) }
{
    let k = topology::slot_place(side);
    let a = 1 + i * LANE;
    let b = 1 + j * LANE;
    if lanes[b + k] == NONE {
        return None;
    }
    let other = lanes[b + k + 1];
    if both(lanes[a + k] != NONE, lanes[a + k + 1] == other) {
        return None;
    }
    Some(Notice::Pair(IssueCode::NeighborDropped, lanes[a], other))
}
