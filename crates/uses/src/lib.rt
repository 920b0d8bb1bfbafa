// map.rs: which lanes use a boundary.
#![tactic(auto)]

ghost use Rattle.std.specs.Prelude.{◌≡◌, ℕ, Bool, true, ◌||◌, ◌+◌, ◌*◌, ◌<◌, List};
ghost use Rattle.tables.specs.View.{word};
ghost use Rattle.lookup.specs.Lookup as K;

use lists::both;
use tables::{LANE, LANE_ID, LANE_LEFT, LANE_RIGHT};

fn either(a: bool, b: bool) -> bool
    ensures { result ≡ (a || b) }
{
    a || b
}

// Whether the lane in row i names a boundary on either side.
pub fn row_uses(lanes: &[u64], i: usize, boundary: u64) -> bool
    requires { (K.sorted_table 1024 52 lanes.now ≡ true) × (i < word 0 lanes.now) }
    ensures { result ≡ K.row_uses boundary (K.row_at 52 lanes.now i) }
{
    let at = 1 + i * LANE;
    either(
        lanes[at + LANE_LEFT] == boundary,
        lanes[at + LANE_RIGHT] == boundary,
    )
}

// Whether the lane in row i is neither of two, and names a boundary.
fn row_uses_outside(lanes: &[u64], i: usize, boundary: u64, one: u64, other: u64) -> bool
    requires { (K.sorted_table 1024 52 lanes.now ≡ true) × (i < word 0 lanes.now) }
    ensures { result ≡ K.uses_outside boundary one other (K.row_at 52 lanes.now i) }
{
    let at = 1 + i * LANE + LANE_ID;
    let id = lanes[at];
    let outside = both(id != one, id != other);
    both(outside, row_uses(lanes, i, boundary))
}

// Whether a row of the lane table passes a test, which is given the row's number.
fn any_row<F: Fn(usize) -> bool>(lanes: &[u64], test: F) -> bool
    requires sorted { K.sorted_table 1024 52 lanes.now ≡ true }
    requires takes_rows { (i : ℕ) → i < word 0 lanes.now → F.pre test i }
    ensures { (g : List ℕ → Bool) → ((i : ℕ) (b : Bool) → i < word 0 lanes.now → F.post test i b → b ≡ g (K.row_at 52 lanes.now i)) → result ≡ K.any_row 52 g lanes.now }
{
    let n = lanes[0] as usize;
    for i in 0..n {
        if test(i) {
            return true;
        }
    }
    false
}

// Whether a lane uses a boundary.
pub fn used(lanes: &[u64], boundary: u64) -> bool
    requires { K.sorted_table 1024 52 lanes.now ≡ true }
    ensures { result ≡ K.used lanes.now boundary }
{
    any_row(lanes, |i| row_uses(lanes, i, boundary))
}

// Whether a lane that is neither of two uses a boundary.
pub fn used_outside(lanes: &[u64], boundary: u64, one: u64, other: u64) -> bool
    requires { K.sorted_table 1024 52 lanes.now ≡ true }
    ensures { result ≡ K.used_outside lanes.now boundary one other }
{
    any_row(lanes, |i| row_uses_outside(lanes, i, boundary, one, other))
}

// Whether another lane than `lane` uses a boundary.
pub fn used_besides(lanes: &[u64], boundary: u64, lane: u64) -> bool
    requires { K.sorted_table 1024 52 lanes.now ≡ true }
    ensures { result ≡ K.used_besides lanes.now boundary lane }
{
    used_outside(lanes, boundary, lane, lane)
}

// How many lanes use a boundary; one with it on both sides counts once.
pub fn users(lanes: &[u64], boundary: u64) -> usize
    requires { K.sorted_table 1024 52 lanes.now ≡ true }
    ensures { result ≡ K.users lanes.now boundary }
{
    let n = lanes[0] as usize;
    let mut count = 0;
    for i in 0..n {
        if row_uses(lanes, i, boundary) {
            count += 1;
        }
    }
    count
}
