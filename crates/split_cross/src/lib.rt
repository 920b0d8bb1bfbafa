// edit/split.rs: whether every boundary of the lanes that are cut crosses the cut.
#![tactic(auto)]

ghost use Rattle.std.specs.Prelude.{◌≡◌, true, ◌≤◌, ◌<◌, length};
ghost use Rattle.tables.specs.View.{word};
ghost use Rattle.lookup.specs.Lookup as K;
ghost use Rattle.split_plan.specs.Placing as P;

use entities::{Refusal, Side, Tolerance};
use geometry::Point2;
use lane_lines::Drawable;

// Whether a boundary crosses the cut.
fn crosses(boundaries: &[u64], id: u64, coordinates: &[f64], point: Point2) -> Result<(), Refusal>
    requires { (K.sorted_table 4096 5 boundaries.now ≡ true) × (K.all_stored 5 2 coordinates.now boundaries.now ≡ true) }
    ensures { result ≡ P.id_crosses coordinates.now boundaries.now point id }
{
    let found = lookup::boundary(boundaries, id);
    let Some(x) = found else {
        return Err(Refusal::BoundaryAbsent(id));
    };
    let line = lookup::boundary_line(boundaries, x, coordinates);
    let near = nearest::nearest_point(line, point);
    let Some(nearest) = near else {
        return Err(Refusal::NotCrossing(id));
    };
    if split_plan::cuttable(Tolerance::CROSSING_MARGIN, line, nearest.station) {
        return Ok(());
    }
    Err(Refusal::NotCrossing(id))
}

// Whether both boundaries of the lane in row j do, the left one first.
fn row_crosses(map: Drawable<'_>, j: usize, point: Point2) -> Result<(), Refusal>
    requires { j < word 0 map.lanes.now }
    ensures { result ≡ P.row_crosses map.entry.coordinates.now map.entry.boundaries.now point (K.row_at 52 map.entry.lanes.now j) }
{
    let left = lookup::boundary_ref(map.lanes, j, Side::Left).boundary;
    let right = lookup::boundary_ref(map.lanes, j, Side::Right).boundary;
    crosses(map.boundaries, left, map.coordinates, point)?;
    crosses(map.boundaries, right, map.coordinates, point)
}

// Whether all boundaries of the marked lanes do.
pub fn cross_all(map: Drawable<'_>, point: Point2, seen: &[bool]) -> Result<(), Refusal>
    requires { word 0 map.lanes.now ≤ length seen.now }
    ensures { result ≡ P.all_pass (P.row_crosses map.entry.coordinates.now map.entry.boundaries.now point) (P.marked_rows seen.now map.entry.lanes.now) }
{
    let n = map.lanes[0] as usize;
    for j in 0..n {
        if seen[j] {
            row_crosses(map, j, point)?;
        }
    }
    Ok(())
}
