// topology.rs: a neighbour set, with its answer.
#![tactic(auto)]

ghost use Rattle.std.specs.Prelude.{◌≡◌, true, ◌+◌, ◌*◌, ◌<◌, Some};
ghost use Rattle.entities.specs.Types.{reciprocal_side};
ghost use Rattle.rules.specs.Edit.{slot_after, reslotted};
ghost use Rattle.tables.specs.View.{word};
ghost use Rattle.row_tests.specs.Returned.{searchable};
ghost use Rattle.topology.specs.Topology as T;

use entities::{Neighbor, NeighborDirection, Side, reciprocal_side};
use tables::LANE;

// The lane in row j set beside the lane in row i, another one, on a side. What either slot held is freed first.
pub fn set_neighbor(lanes: &mut [u64], i: usize, side: Side, j: usize, direction: NeighborDirection)
    requires { (searchable lanes.old ≡ true) × ((i < word 0 lanes.old) × ((j < word 0 lanes.old) × (j ≡ i → ⊥))) }
    ensures { lanes.new ≡ T.lanes_changed (reslotted (slot_after (T.id_at lanes.old i) side (Some (T.beside_row lanes.old j direction)) (T.slot_held lanes.old i side) (T.slot_held lanes.old j (reciprocal_side side direction)))) lanes.old }
{
    let answer = reciprocal_side(side, direction);
    let old = topology::neighbor(lanes, i, side);
    let other = topology::neighbor(lanes, j, answer);
    let from = lanes[1 + i * LANE];
    let to = lanes[1 + j * LANE];
    topology::free_answer(lanes, side, old);
    topology::free_answer(lanes, answer, other);
    topology::put_slot(
        lanes,
        i,
        side,
        Neighbor {
            lane: to,
            direction,
        },
    );
    topology::put_slot(
        lanes,
        j,
        answer,
        Neighbor {
            lane: from,
            direction,
        },
    );
}
