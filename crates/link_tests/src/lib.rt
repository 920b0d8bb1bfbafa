// Links and neighbours that name a lane back.
//
// Links are met in one pass over the successors, lanes ascending: a lane then comes to each of its successors' predecessors in their order. A cursor for every
// lane says how many of its predecessors were met. The next link to it must find its lane there, and at the end every cursor is at its list's end.
#![tactic(auto)]

ghost use Rattle.std.specs.Prelude.{◌≡◌, true, ◌&&◌, ◌⊎◌, ◌+◌, ◌<◌, length, get_or};
ghost use Rattle.lists.specs.Every.{all};
ghost use Rattle.lists.specs.Select.{same_numbers};
ghost use Rattle.tables.specs.View.{word, ids_at, rows};
ghost use Rattle.row_tests.specs.Returned as R;
ghost use Rattle.link_tests.specs.Met as M;

use lists::both;
use row_ids::{NO_ID, ROOM};
use tables::{LANE, LEFT_SLOT, PREDECESSORS, RIGHT_SLOT, SUCCESSORS};

// Link k of the lane in row i: its lane is there and has row i's lane at its cursor, which moves on.
fn link_met(t: &[u64], ids: &[u64], met: &mut [u8], i: usize, k: usize) -> bool
    requires { (M.Indexed t.now ids.now × (M.links_ascend t.now ≡ true)) × ((i < word 0 t.now) × ((k < word 35 (R.lane_at t.now i)) × (met.old ≡ M.cursors t.now i k))) }
    ensures { (result ≡ M.link_met t.now i (get_or (ids_at 35 (R.lane_at t.now i)) k 0)) × (result ≡ true → met.new ≡ M.cursors t.now i (k + 1)) }
{
    let at = 1 + i * LANE;
    let n = t[0] as usize;
    let found = row_ids::find_id(ids, n, t[at + SUCCESSORS + 1 + k], i);
    let Some(j) = found else {
        return false;
    };
    let before = 1 + j * LANE + PREDECESSORS;
    let cursor = met[j];
    if (cursor as u64) < t[before] {
        met[j] = cursor + 1;
        return t[before + 1 + cursor as usize] == t[at];
    }
    false
}

// The links of the lane in row i.
fn lane_met(t: &[u64], ids: &[u64], met: &mut [u8], i: usize) -> bool
    requires { (M.Indexed t.now ids.now × (M.links_ascend t.now ≡ true)) × ((i < word 0 t.now) × (met.old ≡ M.cursors t.now i 0)) }
    ensures { (result ≡ M.lane_met t.now i) × (result ≡ true → met.new ≡ M.cursors t.now (i + 1) 0) }
{
    let count = t[1 + i * LANE + SUCCESSORS] as usize;
    for k in 0..count {
        if !link_met(t, ids, met, i, k) {
            return false;
        }
    }
    true
}

// Whether every cursor is at the end of its lane's predecessors.
fn ends_met(t: &[u64], met: &[u8]) -> bool
    requires { (R.searchable t.now ≡ true) × (length met.now ≡ word 0 t.now) }
    ensures { result ≡ same_numbers met.now (rows 52 (word 18) t.now) }
{
    for j in 0..met.len() {
        if met[j] as u64 != t[1 + j * LANE + PREDECESSORS] {
            return false;
        }
    }
    true
}

// The pass, from cursors at the front of every list.
fn all_met(t: &[u64], ids: &[u64], met: &mut [u8]) -> bool
    requires { (M.Indexed t.now ids.now × (M.links_ascend t.now ≡ true)) × (met.old ≡ M.cursors t.now 0 0) }
    ensures { result ≡ all (λ b. b) (rows 52 (R.lane_returned t.now) t.now) }
{
    let n = t[0] as usize;
    for i in 0..n {
        if !lane_met(t, ids, met, i) {
            return false;
        }
    }
    ends_met(t, met)
}

// Every link is returned.
fn links_returned(t: &[u64], ids: &[u64]) -> bool
    requires { M.Indexed t.now ids.now × (M.links_ascend t.now ≡ true) }
    ensures { result ≡ all (λ b. b) (rows 52 (R.lane_returned t.now) t.now) }
{
    let n = t[0] as usize;
    let mut met = [0; ROOM];
    all_met(t, ids, &mut met[..n])
}

// The slot that answers a slot at place k.
pub fn answer_place(k: usize, mark: u64) -> usize
    requires { (k ≡ 14) ⊎ (k ≡ 16) }
    ensures { result ≡ R.answer_place k mark }
{
    if mark == 1 {
        if k == LEFT_SLOT {
            return RIGHT_SLOT;
        }
        return LEFT_SLOT;
    }
    k
}

// Whether the neighbour in slot k of row i names the lane back, with the same mark.
fn slot_returned(t: &[u64], ids: &[u64], k: usize, i: usize) -> bool
    requires { M.Indexed t.now ids.now × (((k ≡ 14) ⊎ (k ≡ 16)) × (i < word 0 t.now)) }
    ensures { result ≡ R.slot_answered t.now k (R.lane_at t.now i) }
{
    let at = 1 + i * LANE;
    let mark = t[at + k];
    if mark == 0 {
        return true;
    }
    let n = t[0] as usize;
    let found = row_ids::find_id(ids, n, t[at + k + 1], i);
    let Some(j) = found else {
        return false;
    };
    let answer = 1 + j * LANE + answer_place(k, mark);
    both(t[answer] == mark, t[answer + 1] == t[at])
}

// Every neighbour names its lane back.
fn neighbors_returned(t: &[u64], ids: &[u64]) -> bool
    requires { M.Indexed t.now ids.now }
    ensures { result ≡ all (λ b. b) (rows 52 (R.slots_returned t.now) t.now) }
{
    let n = t[0] as usize;
    for i in 0..n {
        if !both(
            slot_returned(t, ids, LEFT_SLOT, i),
            slot_returned(t, ids, RIGHT_SLOT, i),
        ) {
            return false;
        }
    }
    true
}

// Every link and every neighbour names its lane back. The ids are listed once, so that no search reads the table.
pub fn all_returned(t: &[u64]) -> bool
    requires { (R.searchable t.now ≡ true) × (M.links_ascend t.now ≡ true) }
    ensures { result ≡ (all (λ b. b) (rows 52 (R.lane_returned t.now) t.now) && all (λ b. b) (rows 52 (R.slots_returned t.now) t.now)) }
{
    let n = t[0] as usize;
    let mut ids = [NO_ID; ROOM];
    row_ids::list_ids(&t[1..], LANE, n, &mut ids);
    both(links_returned(t, &ids), neighbors_returned(t, &ids))
}
