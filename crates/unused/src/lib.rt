// edit/lane.rs: the boundaries that go with a lane, and a table without them.
#![tactic(auto)]

ghost use Rattle.std.specs.Prelude.{◌≡◌, true, not, ◌+◌, ◌*◌, ◌<◌};
ghost use Rattle.lists.specs.Select.{has};
ghost use Rattle.tables.specs.View.{word};
ghost use Rattle.lookup.specs.Lookup.{sorted_table};
ghost use Rattle.store.specs.Rows.{kept_rows};
ghost use Rattle.unused.specs.Parts as P;

use lists::both;
use tables::{BOUNDARY, LANE, LANE_LEFT, LANE_RIGHT};

// Boundaries in id order: the first `count` of two.
#[derive(Clone, Copy)]
pub struct Gone {
    pub count: usize,
    pub first: u64,
    pub second: u64,
}

// Whether no lane but one uses a boundary of the table.
fn lonely(lanes: &[u64], boundaries: &[u64], lane: u64, id: u64) -> bool
    requires { (sorted_table 1024 52 lanes.now ≡ true) × (sorted_table 4096 5 boundaries.now ≡ true) }
    ensures { result ≡ P.lonely lanes.now boundaries.now lane id }
{
    let found = lookup::boundary(boundaries, id);
    match found {
        Some(_) => !uses::used_besides(lanes, id, lane),
        None => false,
    }
}

// Two boundaries in id order.
fn pair(a: u64, b: u64) -> Gone
    ensures { P.Holds result (P.ordered a b) }
{
    if a < b {
        return Gone {
            count: 2,
            first: a,
            second: b,
        };
    }
    Gone {
        count: 2,
        first: b,
        second: a,
    }
}

// Which of a lane's two boundaries go with it, where one or the other or both are its own alone.
fn chosen(left: u64, right: u64, a: bool, b: bool) -> Gone
    ensures { P.Holds result (P.own_alone left right a b) }
{
    if both(both(a, b), left != right) {
        return pair(left, right);
    }
    if a {
        return Gone {
            count: 1,
            first: left,
            second: left,
        };
    }
    if b {
        return Gone {
            count: 1,
            first: right,
            second: right,
        };
    }
    Gone {
        count: 0,
        first: left,
        second: right,
    }
}

// The boundaries that go with the lane in row i.
pub fn own_boundaries(lanes: &[u64], i: usize, boundaries: &[u64]) -> Gone
    requires { (sorted_table 1024 52 lanes.now ≡ true) × ((i < word 0 lanes.now) × (sorted_table 4096 5 boundaries.now ≡ true)) }
    ensures { P.Holds result (P.gone_with lanes.now i boundaries.now) }
{
    let at = 1 + i * LANE;
    let lane = lanes[at];
    let left = lanes[at + LANE_LEFT];
    let right = lanes[at + LANE_RIGHT];
    let a = lonely(lanes, boundaries, lane, left);
    let b = lonely(lanes, boundaries, lane, right);
    chosen(left, right, a, b)
}

// The boundaries that stay.
pub fn keep_boundaries(boundaries: &mut [u64], gone: Gone)
    requires { sorted_table 4096 5 boundaries.old ≡ true }
    ensures { boundaries.new ≡ kept_rows 5 (λ x. not (has x (P.gone_ids gone))) boundaries.old }
{
    let n = gone.count;
    if n == 0 {
        return;
    }
    if n == 1 {
        store::keep_rows(boundaries, BOUNDARY, gone.first, gone.first);
        return;
    }
    store::keep_rows(boundaries, BOUNDARY, gone.first, gone.second);
}
