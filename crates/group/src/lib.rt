// The lateral group: every lane reached from one through neighbour slots.
#![tactic(auto)]

ghost use Rattle.std.specs.Prelude.{◌≡◌, true, not, map, ◌⊎◌, ◌≤◌, ◌<◌, length};
ghost use Rattle.lists.specs.Every.{all};
ghost use Rattle.lists.specs.Select.{has};
ghost use Rattle.lists.specs.Rows.{over};
ghost use Rattle.tables.specs.View.{word};
ghost use Rattle.row_tests.specs.Returned.{searchable};
ghost use Rattle.group.specs.Walk as G;

use tables::{LANE, LEFT_SLOT, RIGHT_SLOT};

// As many marks as a map may have lanes.
const LANES: usize = 1024;

// The row of the lane that slot k of row j names.
fn slot_row(lanes: &[u64], k: usize, j: usize) -> Option<usize>
    requires { (searchable lanes.now ≡ true) × (((k ≡ 14) ⊎ (k ≡ 16)) × (j < word 0 lanes.now)) }
    ensures { result ≡ G.slot_row lanes.now k j }
{
    let at = 1 + j * LANE + k;
    if lanes[at] == 0 {
        return None;
    }
    let n = lanes[0] as usize;
    find::find_row(&lanes[1..], LANE, n, lanes[at + 1])
}

// A row that was found is marked, and goes to the queue's end if it was not marked; where the queue ends then.
fn enter(found: Option<usize>, seen: &mut [bool], queue: &mut [usize], end: usize) -> usize
    requires { (length queue.old ≡ length seen.old) × ((G.seen_within (length seen.old) found ≡ true) × (end ≡ G.marks seen.old)) }
    ensures { (result ≡ G.marks (G.seen_marked found seen.old)) × ((seen.new ≡ G.seen_marked found seen.old) × (queue.new ≡ G.queued found seen.old end queue.old)) }
{
    let Some(row) = found else {
        return end;
    };
    if seen[row] {
        return end;
    }
    seen[row] = true;
    queue[end] = row;
    end + 1
}

// The marks of the group of the lane in row i. Each lane is entered once, and its two slots are looked at once. The queue grows while it is gone through, in an
// array of a lane's room (no heap), so no range counts it.
pub fn lateral_group(lanes: &[u64], i: usize, seen: &mut [bool])
    requires { (searchable lanes.now ≡ true) × ((i < word 0 lanes.now) × ((length seen.old ≡ 1024) × (all not seen.old ≡ true))) }
    ensures { seen.new ≡ over seen.old 0 (map (λ k. has k (G.group_at lanes.now i)) (G.ids_of lanes.now)) }
{
    let mut queue: [usize; LANES] = [0; LANES];
    let mut end = enter(Some(i), seen, &mut queue, 0);
    let mut done = 0;
    while done < end {
        let j = queue[done];
        end = enter(slot_row(lanes, LEFT_SLOT, j), seen, &mut queue, end);
        end = enter(slot_row(lanes, RIGHT_SLOT, j), seen, &mut queue, end);
        done += 1;
    }
}

// The ids of the marked rows, ascending; how many.
fn marked_ids(lanes: &[u64], seen: &[bool], out: &mut [u64]) -> usize
    requires { (searchable lanes.now ≡ true) × ((word 0 lanes.now ≤ length seen.now) × (word 0 lanes.now ≤ length out.old)) }
    ensures { (result ≡ length (G.chosen seen.now (G.ids_of lanes.now))) × (out.new ≡ over out.old 0 (G.chosen seen.now (G.ids_of lanes.now))) }
{
    let n = lanes[0] as usize;
    let mut count = 0;
    for j in 0..n {
        if seen[j] {
            out[count] = lanes[1 + j * LANE];
            count += 1;
        }
    }
    count
}

// The ids of the group of the lane in row i, ascending; how many. The slots past them stay.
pub fn group_ids(lanes: &[u64], i: usize, out: &mut [u64]) -> usize
    requires { (searchable lanes.now ≡ true) × ((i < word 0 lanes.now) × (word 0 lanes.now ≤ length out.old)) }
    ensures { (result ≡ length (G.group_at lanes.now i)) × (out.new ≡ over out.old 0 (G.group_at lanes.now i)) }
{
    let mut seen = [false; LANES];
    lateral_group(lanes, i, &mut seen);
    marked_ids(lanes, &seen, out)
}
