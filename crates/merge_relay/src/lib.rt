// edit/merge.rs: the tables with lines after a merge: lines drawn by `merge_redraw`, rows written by `merge_rows`, all brought to their places by `lay_out`.
#![tactic(auto)]

ghost use Rattle.std.specs.Prelude.{◌≡◌, length};
ghost use Rattle.lent.specs.Lent.{lines_tables, SameLines};
ghost use Rattle.merge_redraw.specs.Relaying as W;

use entities::Side;
use lane_lines::Drawable;
use merge_plan::{Plan, side_ids, side_points};

// Floats of the array of work: three lines of two times 256 points.
const WORK: usize = 4608;

// The tables with lines after the merge of the lanes in rows i and j; `work` is an array of work.
fn relay_in(
    join: f64,
    lines: &mut lent::Lines,
    i: usize,
    j: usize,
    plan: Plan,
    next: u64,
    reach: usize,
    gone: &[u64],
    work: &mut [f64],
)
    requires { (W.Relayable join plan next reach gone.now i j (lines_tables lines.old)) × (length work.old ≡ 4608) }
    ensures made { lines_tables lines.new ≡ W.relaid join plan next reach gone.now i j work.old (lines_tables lines.old) }
    ensures same { SameLines lines.old lines.new }
{
    let lanes = &mut *lines.lanes;
    let boundaries = &mut *lines.boundaries;
    let coordinates = &mut *lines.coordinates;
    let left = plan.left;
    let right = plan.right;
    let taken = merge_rows::taken_of(plan, next, reach);
    let other = next + side_ids(left) as u64;
    let right_at = reach + side_points(left);
    let drawable = Drawable {
        lanes,
        boundaries,
        coordinates,
    };
    merge_redraw::draw(join, drawable, i, j, plan, work);
    let one = merge_rows::redrawn_of(lanes, i, Side::Left, boundaries, left, next, reach);
    let two = merge_rows::redrawn_of(lanes, i, Side::Right, boundaries, right, other, right_at);
    merge_rows::redraw_boundaries(boundaries, gone, one, two);
    merge_rows::redraw_followed(lanes, i, j, taken);
    lay_out::lay_out(lines, reach, work);
}

// The same with an array of its own.
pub fn relay(
    join: f64,
    lines: &mut lent::Lines,
    i: usize,
    j: usize,
    plan: Plan,
    next: u64,
    reach: usize,
    gone: &[u64],
)
    requires { W.Relayable join plan next reach gone.now i j (lines_tables lines.old) }
    ensures made { lines_tables lines.new ≡ W.relaid join plan next reach gone.now i j W.blank (lines_tables lines.old) }
    ensures same { SameLines lines.old lines.new }
{
    let mut work = [0.0; WORK];
    relay_in(join, lines, i, j, plan, next, reach, gone, &mut work);
}
