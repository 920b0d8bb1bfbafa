// edit/merge.rs: the lines of a merge. Joined lines are drawn into an array of work; `merge_rows` has the rows point there, and `merge_relay` has the layout bring
// every line to its place.
#![tactic(auto)]

ghost use Rattle.std.specs.Prelude.{◌≡◌, true, ◌+◌, ◌*◌, ◌≤◌, ◌<◌, length};
ghost use Rattle.lists.specs.Rows.{over};
ghost use Rattle.tables.specs.View.{word};
ghost use Rattle.merge_redraw.specs.Relaying as W;

use entities::Side;
use lane_lines::Drawable;
use merge_plan::{Joined, Plan, side_points};
use tables::POINT;

// What a side does to the table of boundaries: the boundary of the first lane, and of a new one the id, and kind and attributes of the first lane's.
#[derive(Clone, Copy)]
pub struct Redrawn {
    pub plan: Joined,
    pub boundary: u64,
    pub id: u64,
    pub kind: u64,
    pub attributes: u64,
    pub start: usize,
}

// ---- plans

fn is_kept(plan: Joined) -> bool
    ensures { result ≡ W.is_kept plan }
{
    match plan {
        Joined::Kept => true,
        Joined::InPlace(_) => false,
        Joined::Fresh(_) => false,
    }
}

// Whether a side's line is stored backwards.
fn turned(plan: Joined, reversed: bool) -> bool
    ensures { result ≡ W.turned plan reversed }
{
    match plan {
        Joined::Kept => false,
        Joined::InPlace(_) => reversed,
        Joined::Fresh(_) => false,
    }
}

// ---- lines

// A side's joined line, written to the work from point `at` on: backwards into the part that starts at its first point where the lane runs against it.
fn draw_side(
    join: f64,
    map: Drawable<'_>,
    i: usize,
    j: usize,
    side: Side,
    plan: Joined,
    work: &mut [f64],
    at: usize,
)
    requires { (i < word 0 map.lanes.now) × ((j < word 0 map.lanes.now) × ((at + 512) * 3 ≤ length work.old)) }
    ensures { work.new ≡ over work.old (at * 3) (W.side_drawn join map.entry.coordinates.now map.entry.lanes.now map.entry.boundaries.now i j side plan) }
{
    if is_kept(plan) {
        return;
    }
    let back = turned(plan, lookup::boundary_ref(map.lanes, i, side).reversed);
    let from = at * POINT;
    merge_draw::join_side(join, map, i, j, side, back, &mut work[from..]);
}

// The joined centreline, where there is one.
fn draw_center(
    join: f64,
    lanes: &[u64],
    i: usize,
    j: usize,
    coordinates: &[f64],
    center: Option<usize>,
    work: &mut [f64],
    at: usize,
)
    requires { W.CenterDrawing coordinates.now lanes.now i j center work.old at }
    ensures { work.new ≡ over work.old (at * 3) (W.center_drawn join coordinates.now lanes.now i j center) }
{
    if center.is_some() {
        let from = at * POINT;
        merge_draw::join_center(join, lanes, i, j, coordinates, &mut work[from..]);
    }
}

// The joined lines: the left side's, the right side's, the centreline.
pub fn draw(join: f64, map: Drawable<'_>, i: usize, j: usize, plan: Plan, work: &mut [f64])
    requires { W.Drawing map.coordinates.now map.lanes.now map.boundaries.now i j plan work.old }
    ensures { work.new ≡ W.drawn_lines join map.entry.coordinates.now map.entry.lanes.now map.entry.boundaries.now i j plan work.old }
{
    let left = plan.left;
    let right = plan.right;
    let center = plan.center;
    let right_at = side_points(left);
    let center_at = right_at + side_points(right);
    draw_side(join, map, i, j, Side::Left, left, work, 0);
    draw_side(join, map, i, j, Side::Right, right, work, right_at);
    draw_center(
        join,
        map.lanes,
        i,
        j,
        map.coordinates,
        center,
        work,
        center_at,
    );
}
