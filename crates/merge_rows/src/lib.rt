// edit/merge.rs: the rows of boundaries and lanes after a merge: those that go, those that point to a joined line, and the new ones.
#![tactic(auto)]

ghost use Rattle.std.specs.Prelude.{◌≡◌, true, ◌+◌, ◌*◌, ◌^◌, ◌≤◌, ◌<◌, length};
ghost use Rattle.tables.specs.View.{word, ids_at};
ghost use Rattle.tables.specs.Formed.{counted};
ghost use Rattle.lookup.specs.Lookup as K;
ghost use Rattle.merge_draw.specs.Redrawing.{LanesLinked};
ghost use Rattle.merge_redraw.specs.Relaying as W;

use entities::Side;
use merge_draw::{DrawnLine, Taken};
use merge_plan::{Joined, Plan, side_ids, side_points};
use merge_redraw::Redrawn;
use tables::{BOUNDARY, BOUNDARY_ATTRIBUTES, BOUNDARY_KIND, LANE};

const LINKS: usize = 16;

// What a side does to the table of boundaries.
pub fn redrawn_of(
    lanes: &[u64],
    i: usize,
    side: Side,
    boundaries: &[u64],
    plan: Joined,
    id: u64,
    start: usize,
) -> Redrawn
    requires { (K.sorted_table 1024 52 lanes.now ≡ true) × ((i < word 0 lanes.now) × (K.sorted_table 4096 5 boundaries.now ≡ true)) }
    ensures { result ≡ W.redrawn_of lanes.now i side boundaries.now plan id start }
{
    let boundary = lookup::boundary_ref(lanes, i, side).boundary;
    let found = lookup::boundary(boundaries, boundary);
    match found {
        Some(x) => Redrawn {
            plan,
            boundary,
            id,
            kind: boundaries[1 + x * BOUNDARY + BOUNDARY_KIND],
            attributes: boundaries[1 + x * BOUNDARY + BOUNDARY_ATTRIBUTES],
            start,
        },
        None => Redrawn {
            plan,
            boundary,
            id,
            kind: 0,
            attributes: 0,
            start,
        },
    }
}

// A boundary that is joined in place points to its line.
fn point_side(t: &mut [u64], side: Redrawn)
    requires { counted 4096 5 t.old ≡ true }
    ensures { t.new ≡ W.side_pointed side t.old }
{
    let plan = side.plan;
    match plan {
        Joined::Kept => {}
        Joined::InPlace(n) => {
            merge_tables::point_boundary(t, side.boundary, side.start, n);
        }
        Joined::Fresh(_) => {}
    }
}

// A new boundary comes behind the last row.
fn add_side(t: &mut [u64], side: Redrawn)
    requires { 1 + (word 0 t.old + W.side_ids side.plan) * 5 ≤ length t.old }
    ensures { t.new ≡ W.side_added side t.old }
{
    let plan = side.plan;
    match plan {
        Joined::Kept => {}
        Joined::InPlace(_) => {}
        Joined::Fresh(n) => {
            merge_tables::add_boundary(t, side.id, side.kind, side.start, n, side.attributes);
        }
    }
}

// The boundaries that go, those that are joined in place, and the new ones.
pub fn redraw_boundaries(t: &mut [u64], gone: &[u64], left: Redrawn, right: Redrawn)
    requires { W.Redrawable gone.now left right t.old }
    ensures { t.new ≡ W.boundaries_redrawn gone.now left right t.old }
{
    store::drop_rows(t, BOUNDARY, gone);
    point_side(t, left);
    point_side(t, right);
    add_side(t, left);
    add_side(t, right);
}

// The id of a side's new boundary, where it has one.
fn fresh_id(plan: Joined, id: u64) -> Option<u64>
    ensures { result ≡ W.fresh_id plan id }
{
    match plan {
        Joined::Kept => None,
        Joined::InPlace(_) => None,
        Joined::Fresh(_) => Some(id),
    }
}

// The joined centreline, where there is one, from its count of points.
fn center_line(center: Option<usize>, start: usize) -> Option<DrawnLine>
    ensures { result ≡ W.center_line center start }
{
    match center {
        None => None,
        Some(size) => Some(DrawnLine { start, size }),
    }
}

// What the first lane takes over.
pub fn taken_of(plan: Plan, next: u64, reach: usize) -> Taken
    requires { (next + W.side_ids plan.left < 2 ^ 64) × (W.center_at plan reach < 2 ^ 64) }
    ensures { result ≡ W.taken_of plan next reach }
{
    let left = plan.left;
    let right = plan.right;
    let other = next + side_ids(left) as u64;
    let start = reach + side_points(left) + side_points(right);
    Taken {
        left: fresh_id(left, next),
        right: fresh_id(right, other),
        center: center_line(plan.center, start),
    }
}

// The second lane's row goes, and the others follow.
fn redraw_lanes(t: &mut [u64], first: u64, second: u64, taken: Taken, successors: &[u64])
    requires { (LanesLinked t.old) × (length successors.now ≤ 16) }
    ensures { t.new ≡ W.lanes_redrawn first second taken successors.now t.old }
{
    let gone = [second];
    store::drop_rows(t, LANE, &gone);
    merge_tables::merge_rows(t, first, second, taken, successors);
}

// The first lane's row takes over a copy of the second's successors.
pub fn redraw_followed(t: &mut [u64], i: usize, j: usize, taken: Taken)
    requires { (LanesLinked t.old) × ((K.sorted_table 1024 52 t.old ≡ true) × ((i < word 0 t.old) × (j < word 0 t.old))) }
    ensures { t.new ≡ W.lanes_redrawn (word 0 (K.row_at 52 t.old i)) (word 0 (K.row_at 52 t.old j)) taken (ids_at 35 (K.row_at 52 t.old j)) t.old }
{
    let first = t[1 + i * LANE];
    let second = t[1 + j * LANE];
    let mut held = [0; LINKS];
    let followed = lookup::successors(t, j);
    let n = followed.len();
    slots::copy(followed, &mut held, 0);
    redraw_lanes(t, first, second, taken, &held[..n]);
}
