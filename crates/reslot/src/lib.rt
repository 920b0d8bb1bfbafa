// The parts of set_neighbor: the slots of two rows, set or freed.
#![tactic(auto)]

ghost use Rattle.std.specs.Prelude.{◌≡◌, true, cond, [], ◌≤◌, ◌<◌, length, take, None, Some};
ghost use Rattle.lists.specs.Select.{ascending};
ghost use Rattle.entities.specs.Types.{reciprocal_side};
ghost use Rattle.rules.specs.Edit as E;
ghost use Rattle.tables.specs.View.{word};
ghost use Rattle.row_tests.specs.Returned.{searchable};
ghost use Rattle.topology.specs.Topology as T;
ghost use Rattle.relink.specs.Parts as P;

use entities::{Neighbor, NeighborDirection, Side};
use lists::both;

// ---- what slots hold

pub fn is_free(slot: Option<Neighbor>) -> bool
    ensures { result ≡ E.same_slot slot None }
{
    slot.is_none()
}

pub fn holds(slot: Option<Neighbor>, lane: u64, direction: NeighborDirection) -> bool
    ensures { result ≡ E.same_slot slot (Some (record { lane = lane; direction = direction })) }
{
    slot == Some(Neighbor { lane, direction })
}

// Whether the boundaries between two rows are two.
pub fn unshared(lanes: &[u64], i: usize, side: Side, j: usize, answer: Side) -> bool
    requires { (searchable lanes.now ≡ true) × ((i < word 0 lanes.now) × (j < word 0 lanes.now)) }
    ensures { result ≡ P.unshared_issues lanes.now i side j answer }
{
    let own = lookup::boundary_ref(lanes, i, side);
    let other = lookup::boundary_ref(lanes, j, answer);
    own.boundary != other.boundary
}

// ---- lanes named as modified

// The lane in a slot put in its place among the first n ids.
// The list lies at the front of its slots, which are fixed memory: the count stands beside it.
fn named_slot(ids: &mut [u64], n: usize, slot: Option<Neighbor>) -> usize
    requires { (n < length ids.old) × (ascending (take n ids.old) ≡ true) }
    ensures { (take result ids.new ≡ P.place_slot slot (take n ids.old)) × (result ≡ length (P.place_slot slot (take n ids.old))) }
{
    let Some(s) = slot else {
        return n;
    };
    report::named(ids, n, s.lane)
}

// The lanes whose slots are set or freed, in id order, or none.
pub fn touched(
    skip: bool,
    lane: u64,
    old: Option<Neighbor>,
    new: Option<Neighbor>,
    other: Option<Neighbor>,
    ids: &mut [u64],
) -> usize
    requires { 4 ≤ length ids.old }
    ensures { (take result ids.new ≡ cond skip [] (P.slot_ids lane old new other)) × (result ≡ length (cond skip [] (P.slot_ids lane old new other))) }
{
    if skip {
        return 0;
    }
    let a = report::named(ids, 0, lane);
    let b = named_slot(ids, a, old);
    let c = named_slot(ids, b, new);
    named_slot(ids, c, other)
}

// ---- slots freed and set

// The slot of row i on a side freed, unless it is.
pub fn clear_unless(lanes: &mut [u64], i: usize, side: Side, free: bool)
    requires { (searchable lanes.old ≡ true) × (i < word 0 lanes.old) }
    ensures { lanes.new ≡ cond free lanes.old (T.lanes_changed (E.reslotted (E.slot_after (T.id_at lanes.old i) side None (T.slot_held lanes.old i side) None)) lanes.old) }
{
    if free {
        return;
    }
    topology::clear_slot(lanes, i, side);
}

// The lane in row j set beside row i, unless it is.
pub fn set_unless(
    lanes: &mut [u64],
    i: usize,
    side: Side,
    j: usize,
    direction: NeighborDirection,
    set: bool,
)
    requires { (searchable lanes.old ≡ true) × ((i < word 0 lanes.old) × ((j < word 0 lanes.old) × (j ≡ i → ⊥))) }
    ensures { lanes.new ≡ cond set lanes.old (T.lanes_changed (E.reslotted (E.slot_after (T.id_at lanes.old i) side (Some (T.beside_row lanes.old j direction)) (T.slot_held lanes.old i side) (T.slot_held lanes.old j (reciprocal_side side direction)))) lanes.old) }
{
    if set {
        return;
    }
    neighbors::set_neighbor(lanes, i, side, j, direction);
}
