// Whether the map after a merge keeps the limits and the lent lengths. The Rust asks for none of it: its memory grows.
#![tactic(auto)]

ghost use Rattle.std.specs.Prelude.{◌≡◌, true, ◌+◌, ◌<◌};
ghost use Rattle.lists.specs.Rows.{over};
ghost use Rattle.tables.specs.View.{word};
ghost use Rattle.lookup.specs.Lookup as K;
ghost use Rattle.merge_gone.specs.Leaving as R;

use entities::Side;
use lent::MapView;
use lists::both;
use merge_gone::Sides;
use merge_plan::{Plan, side_ids, side_points};
use tables::BOUNDARY;

const MAX_BOUNDARIES: usize = 4096;

const MAX_LINE_POINTS: usize = 256;

// Whether the lines that are drawn have at most 256 points. Where both sides are joined in place in one boundary the right one's line stands.
fn lines_fit(sides: Sides, center: Option<usize>) -> bool
    ensures { result ≡ R.lines_fit sides center }
{
    let left = sides.left;
    let right = sides.right;
    let over = both(
        merge_points::joins(left, sides.left_id, sides.right_id),
        merge_points::joins(right, sides.right_id, sides.right_id),
    );
    both(
        both(
            merge_gone::either(over, side_points(left) <= MAX_LINE_POINTS),
            side_points(right) <= MAX_LINE_POINTS,
        ),
        center.unwrap_or(0) <= MAX_LINE_POINTS,
    )
}

// How each side of the lane in row i is merged, and its boundary.
fn sides_of(lanes: &[u64], i: usize, plan: Plan) -> Sides
    requires { (K.sorted_table 1024 52 lanes.now ≡ true) × (i < word 0 lanes.now) }
    ensures { result ≡ R.sides_of lanes.now i plan }
{
    let left = plan.left;
    let right = plan.right;
    Sides {
        left,
        left_id: lookup::boundary_ref(lanes, i, Side::Left).boundary,
        right,
        right_id: lookup::boundary_ref(lanes, i, Side::Right).boundary,
    }
}

// Whether the finished map keeps the limits and the lent lengths.
pub fn fits(map: MapView, i: usize, j: usize, plan: Plan, gone: &[u64]) -> bool
    requires { R.Countable map.lanes.now i j map.boundaries.now map.stop_lines.now map.crosswalks.now plan gone.now }
    ensures { result ≡ R.fits_after map.entry.lanes.now i j map.entry.boundaries.now map.entry.stop_lines.now map.entry.crosswalks.now map.entry.coordinates.now plan gone.now }
{
    let center = plan.center;
    let sides = sides_of(map.lanes, i, plan);
    let rows = map.boundaries[0] as usize - gone.len()
        + (side_ids(plan.left) + side_ids(plan.right));
    let points = merge_points::points_after(
        map.lanes,
        i,
        j,
        map.boundaries,
        map.stop_lines,
        map.crosswalks,
        sides,
        center,
        gone,
    );
    both(
        both(
            room::rows_fit(MAX_BOUNDARIES, BOUNDARY, rows, map.boundaries),
            lines_fit(sides, center),
        ),
        room::points_fit(points, map.coordinates),
    )
}
