// The gap between two lanes, of which connect warns.
#![tactic(auto)]

ghost use Rattle.std.specs.Prelude.{◌≡◌, true, ◌<◌};
ghost use Rattle.rules.specs.Edit as E;
ghost use Rattle.tables.specs.View.{word, lane_of};
ghost use Rattle.row_tests.specs.Returned.{lane_at};
ghost use Rattle.lookup.specs.Lookup.{sorted_table, all_stored, drawn};

use entities::Side;
use geometry::Point3;
use lists::both;

// Whether two ends that are there are further apart than the tolerance.
fn apart(tolerance: f64, p: Option<Point3>, q: Option<Point3>) -> bool
    ensures { result ≡ E.far_apart tolerance p q }
{
    let Some(a) = p else {
        return false;
    };
    let Some(b) = q else {
        return false;
    };
    a.distance(b) > tolerance
}

// connection_gap above the tolerance, from the end of the lane in row i to the start of the lane in row j.
pub fn gapped(
    lanes: &[u64],
    i: usize,
    j: usize,
    boundaries: &[u64],
    coordinates: &[f64],
    tolerance: f64,
) -> bool
    requires { (sorted_table 1024 52 lanes.now ≡ true) × ((i < word 0 lanes.now) × ((j < word 0 lanes.now) × ((sorted_table 4096 5 boundaries.now ≡ true) × (all_stored 5 2 coordinates.now boundaries.now ≡ true)))) }
    ensures { result ≡ E.gapped tolerance (drawn coordinates.now boundaries.now) (lane_of coordinates.now (lane_at lanes.now i)) (lane_of coordinates.now (lane_at lanes.now j)) }
{
    let fl = lane_lines::oriented_last(lanes, i, Side::Left, boundaries, coordinates);
    let fr = lane_lines::oriented_last(lanes, i, Side::Right, boundaries, coordinates);
    let tl = lane_lines::oriented_first(lanes, j, Side::Left, boundaries, coordinates);
    let tr = lane_lines::oriented_first(lanes, j, Side::Right, boundaries, coordinates);
    let ends = both(
        both(both(fl.is_some(), fr.is_some()), tl.is_some()),
        tr.is_some(),
    );
    if ends {
        if apart(tolerance, fl, tl) {
            return true;
        }
        return apart(tolerance, fr, tr);
    }
    false
}
