// topology.rs: neighbours in the rows of the lane table. `linking` has the links.
#![tactic(auto)]

ghost use Rattle.std.specs.Prelude.{◌≡◌, true, ◌+◌, ◌*◌, ◌<◌, None, Some};
ghost use Rattle.rules.specs.Edit.{slot_after, reslotted};
ghost use Rattle.store.specs.Store.{direction_mark};
ghost use Rattle.store.specs.Rows.{on_rows, keyed, set_slot};
ghost use Rattle.tables.specs.View.{word};
ghost use Rattle.row_tests.specs.Returned.{searchable};
ghost use Rattle.topology.specs.Topology as T;

use entities::{Neighbor, NeighborDirection, Side, reciprocal_side};
use tables::{LANE, LEFT_SLOT, NONE, OPPOSITE, RIGHT_SLOT, SAME};

// The place of a side's slot in a row.
pub fn slot_place(side: Side) -> usize
    ensures { result ≡ T.slot_place side }
{
    match side {
        Side::Left => LEFT_SLOT,
        Side::Right => RIGHT_SLOT,
    }
}

// A direction's mark.
pub fn direction_mark(direction: NeighborDirection) -> u64
    ensures { result ≡ direction_mark direction }
{
    match direction {
        NeighborDirection::Same => SAME,
        NeighborDirection::Opposite => OPPOSITE,
    }
}

// The neighbour of the lane in row i on a side.
pub fn neighbor(lanes: &[u64], i: usize, side: Side) -> Option<Neighbor>
    requires { (searchable lanes.now ≡ true) × (i < word 0 lanes.now) }
    ensures { result ≡ T.slot_held lanes.now i side }
{
    let at = 1 + i * LANE + slot_place(side);
    let mark = lanes[at];
    let lane = lanes[at + 1];
    if mark == NONE {
        return None;
    }
    if mark == SAME {
        return Some(Neighbor::same(lane));
    }
    Some(Neighbor::opposite(lane))
}

// The slot that answers what a slot on a side held is freed.
pub fn free_answer(lanes: &mut [u64], side: Side, held: Option<Neighbor>)
    requires { searchable lanes.old ≡ true }
    ensures { lanes.new ≡ on_rows 52 (T.freed_by side held) lanes.old }
{
    let Some(n) = held else {
        return;
    };
    let direction = n.direction;
    let found = lookup::lane(lanes, n.lane);
    let Some(j) = found else {
        return;
    };
    let answer = slot_place(reciprocal_side(side, direction));
    lanes[1 + j * LANE + answer] = NONE;
}

// A neighbour put into the slot of the lane in row i on a side.
pub fn put_slot(lanes: &mut [u64], i: usize, side: Side, n: Neighbor)
    requires { (searchable lanes.old ≡ true) × (i < word 0 lanes.old) }
    ensures { lanes.new ≡ on_rows 52 (keyed (T.id_at lanes.old i) (set_slot (T.slot_place side) (Some n))) lanes.old }
{
    let direction = n.direction;
    let at = 1 + i * LANE + slot_place(side);
    lanes[at] = direction_mark(direction);
    lanes[at + 1] = n.lane;
}

// The slot of the lane in row i on a side freed, and the one that answers it.
pub fn clear_slot(lanes: &mut [u64], i: usize, side: Side)
    requires { (searchable lanes.old ≡ true) × (i < word 0 lanes.old) }
    ensures { lanes.new ≡ T.lanes_changed (reslotted (slot_after (T.id_at lanes.old i) side None (T.slot_held lanes.old i side) None)) lanes.old }
{
    let old = neighbor(lanes, i, side);
    free_answer(lanes, side, old);
    lanes[1 + i * LANE + slot_place(side)] = NONE;
}
