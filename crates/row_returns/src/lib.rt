// The first lane whose links, or whose neighbours, do not name it back: a search for each.
#![tactic(auto)]

ghost use Rattle.std.specs.Prelude.{◌≡◌, true, ◌⊎◌, ◌+◌, ◌*◌, ◌<◌};
ghost use Rattle.lists.specs.Every.{all};
ghost use Rattle.tables.specs.View.{word, rows};
ghost use Rattle.row_tests.specs.Returned as R;
ghost use Rattle.row_faults.specs.First.{first_false};
ghost use Rattle.row_returns.specs.Returns.{named_back};

use lists::both;
use row_faults::Clause;
use tables::{LANE, LEFT_SLOT, PREDECESSORS, RIGHT_SLOT, SUCCESSORS};

// Whether lane b is there, and its list at k has id.
fn names_back(t: &[u64], k: usize, id: u64, b: u64) -> bool
    requires { (R.searchable t.now ≡ true) × ((k ≡ 18) ⊎ (k ≡ 35)) }
    ensures { result ≡ R.names_back t.now k id b }
{
    let n = t[0] as usize;
    let found = find::find_row(&t[1..], LANE, n, b);
    let Some(j) = found else {
        return false;
    };
    let at = 1 + j * LANE + k;
    let start = at + 1;
    let end = start + t[at] as usize;
    lists::contains(&t[start..end], id)
}

// Whether every lane of a list is there and names id back, in its list at k.
fn all_name_back(t: &[u64], k: usize, id: u64, ids: &[u64]) -> bool
    requires { (R.searchable t.now ≡ true) × ((k ≡ 18) ⊎ (k ≡ 35)) }
    ensures { result ≡ all (R.names_back t.now k id) ids.now }
{
    for i in 0..ids.len() {
        if !names_back(t, k, id, ids[i]) {
            return false;
        }
    }
    true
}

// A lane's links: successors name it among their predecessors, predecessors among their successors.
fn lane_returned(t: &[u64], i: usize) -> bool
    requires { (R.searchable t.now ≡ true) × (i < word 0 t.now) }
    ensures { result ≡ R.lane_returned t.now (R.lane_at t.now i) }
{
    let at = 1 + i * LANE;
    let id = t[at];
    let after = at + SUCCESSORS + 1;
    let after_end = after + t[at + SUCCESSORS] as usize;
    if all_name_back(t, PREDECESSORS, id, &t[after..after_end]) {
        let before = at + PREDECESSORS + 1;
        let before_end = before + t[at + PREDECESSORS] as usize;
        return all_name_back(t, SUCCESSORS, id, &t[before..before_end]);
    }
    false
}

// Whether the neighbour in slot k of row i names the lane back, with the same mark.
fn slot_returned(t: &[u64], k: usize, i: usize) -> bool
    requires { (R.searchable t.now ≡ true) × (((k ≡ 14) ⊎ (k ≡ 16)) × (i < word 0 t.now)) }
    ensures { result ≡ R.slot_answered t.now k (R.lane_at t.now i) }
{
    let at = 1 + i * LANE;
    let mark = t[at + k];
    if mark == 0 {
        return true;
    }
    let n = t[0] as usize;
    let found = find::find_row(&t[1..], LANE, n, t[at + k + 1]);
    let Some(j) = found else {
        return false;
    };
    let answer = 1 + j * LANE + link_tests::answer_place(k, mark);
    both(t[answer] == mark, t[answer + 1] == t[at])
}

// Whether row i passes the clause of links, or else that of neighbours.
#[tactic(auto, unfolding(crate::specs::Returns::named_back, row_tests::specs::Returned::slots_returned))]
fn named_back(clause: Clause, t: &[u64], i: usize) -> bool
    requires { (R.searchable t.now ≡ true) × (i < word 0 t.now) }
    ensures { result ≡ named_back clause t.now (R.lane_at t.now i) }
{
    match clause {
        Clause::Returns => lane_returned(t, i),
        _ => both(
            slot_returned(t, LEFT_SLOT, i),
            slot_returned(t, RIGHT_SLOT, i),
        ),
    }
}

// The first lane that is not named back; the count of lanes where all are.
pub fn first_unreturned(clause: Clause, t: &[u64]) -> usize
    requires { R.searchable t.now ≡ true }
    ensures { result ≡ first_false (rows 52 (named_back clause t.now) t.now) }
{
    let n = t[0] as usize;
    row_faults::first_row(n, |i| named_back(clause, t, i))
}
