// edit/merge.rs: the boundaries that a merge leaves unused. Nothing lent is written.
#![tactic(auto)]

ghost use Rattle.std.specs.Prelude.{◌≡◌, true, ◌||◌, ◌+◌, ◌*◌, ◌≤◌, ◌<◌, length, take};
ghost use Rattle.lists.specs.Rows.{over};
ghost use Rattle.lists.specs.Select.{ascending};
ghost use Rattle.tables.specs.View.{word};
ghost use Rattle.lookup.specs.Lookup as K;
ghost use Rattle.merge_gone.specs.Leaving as R;

use entities::Side;
use lists::both;
use merge_plan::{Joined, is_fresh};
use tables::LANE;

// Both sides of the first lane: how each is merged, and its boundary.
#[derive(Clone, Copy)]
pub struct Sides {
    pub left: Joined,
    pub left_id: u64,
    pub right: Joined,
    pub right_id: u64,
}

pub fn either(a: bool, b: bool) -> bool
    ensures { result ≡ (a || b) }
{
    a || b
}

// ---- boundaries that go

// Whether the merged lane still uses a boundary: on a side that has no new one.
fn held(lanes: &[u64], i: usize, left: Joined, right: Joined, id: u64) -> bool
    requires { (K.sorted_table 1024 52 lanes.now ≡ true) × (i < word 0 lanes.now) }
    ensures { result ≡ R.held lanes.now i left right id }
{
    let one = lookup::boundary_ref(lanes, i, Side::Left).boundary;
    let two = lookup::boundary_ref(lanes, i, Side::Right).boundary;
    either(
        both(!is_fresh(left), one == id),
        both(!is_fresh(right), two == id),
    )
}

// Whether a boundary that one of both lanes names goes.
fn goes(
    lanes: &[u64],
    i: usize,
    j: usize,
    left: Joined,
    right: Joined,
    boundaries: &[u64],
    id: u64,
) -> bool
    requires { R.Leaving lanes.now i j boundaries.now }
    ensures { result ≡ R.goes lanes.now i j left right boundaries.now id }
{
    let found = lookup::boundary(boundaries, id);
    let Some(_) = found else {
        return false;
    };
    let first = lanes[1 + i * LANE];
    let second = lanes[1 + j * LANE];
    !either(
        held(lanes, i, left, right, id),
        uses::used_outside(lanes, id, first, second),
    )
}

// A boundary put among the first n that go, if it goes; how many there are then.
// The list lies at the front of its slots, which are fixed memory: the count stands beside it.
fn add_gone(
    lanes: &[u64],
    i: usize,
    j: usize,
    left: Joined,
    right: Joined,
    boundaries: &[u64],
    id: u64,
    out: &mut [u64],
    n: usize,
) -> usize
    requires { (R.Leaving lanes.now i j boundaries.now) × ((n < length out.old) × (ascending (take n out.old) ≡ true)) }
    ensures { (result ≡ length (R.with_gone (R.goes lanes.now i j left right boundaries.now id) id (take n out.old))) × (out.new ≡ over out.old 0 (R.with_gone (R.goes lanes.now i j left right boundaries.now id) id (take n out.old))) }
{
    if goes(lanes, i, j, left, right, boundaries, id) {
        return report::named(out, n, id);
    }
    n
}

// The boundaries that go, in id order, and how many there are: of the two lanes' four.
pub fn gone(
    lanes: &[u64],
    i: usize,
    j: usize,
    left: Joined,
    right: Joined,
    boundaries: &[u64],
    out: &mut [u64],
) -> usize
    requires { (R.Leaving lanes.now i j boundaries.now) × (4 ≤ length out.old) }
    ensures { (result ≡ length (R.gone_of lanes.now i j left right boundaries.now)) × (out.new ≡ over out.old 0 (R.gone_of lanes.now i j left right boundaries.now)) }
{
    let a = lookup::boundary_ref(lanes, i, Side::Left).boundary;
    let b = lookup::boundary_ref(lanes, i, Side::Right).boundary;
    let c = lookup::boundary_ref(lanes, j, Side::Left).boundary;
    let d = lookup::boundary_ref(lanes, j, Side::Right).boundary;
    let one = add_gone(lanes, i, j, left, right, boundaries, a, out, 0);
    let two = add_gone(lanes, i, j, left, right, boundaries, b, out, one);
    let three = add_gone(lanes, i, j, left, right, boundaries, c, out, two);
    add_gone(lanes, i, j, left, right, boundaries, d, out, three)
}
