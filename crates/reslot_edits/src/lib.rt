// edit/mod.rs: the two ends of set_neighbor, a slot freed and a slot set.
#![tactic(auto)]

ghost use Rattle.std.specs.Prelude.{◌≡◌, true, ◌<◌};
ghost use Rattle.tables.specs.View.{word};
ghost use Rattle.row_tests.specs.Returned.{searchable};
ghost use Rattle.relink.specs.Parts as P;

use entities::{IssueCode, Neighbor, NeighborDirection, Refusal, Side, reciprocal_side};
use report::{Answer, Change};
use tables::LANE;

// Frees the slot of row i on a side.
pub fn free_slot(
    lanes: &mut [u64],
    i: usize,
    side: Side,
    modified: &mut [u64],
    warnings: &mut [u64],
) -> Answer
    requires { (searchable lanes.old ≡ true) × (i < word 0 lanes.old) }
    ensures { P.links_written lanes.new modified.new warnings.new result ≡ P.freeing lanes.old i side modified.old warnings.old }
{
    let lane = lanes[1 + i * LANE];
    let nobody = None;
    let old = topology::neighbor(lanes, i, side);
    let free = reslot::is_free(old);
    let first = report::no_op_where(free, lane);
    let second = None;
    let mut ids = [0; 4];
    let n = reslot::touched(free, lane, old, nobody, nobody, &mut ids);
    if notices::fits(n, first, second, modified, warnings) {
        let counts = notices::report(&ids[..n], first, second, modified, warnings);
        reslot::clear_unless(lanes, i, side, free);
        return Ok(Change {
            counts,
            second: None,
        });
    }
    Err(Refusal::NoRoom)
}

// Sets the lane in row j beside the lane in row i, another one.
pub fn set_slot(
    lanes: &mut [u64],
    i: usize,
    side: Side,
    j: usize,
    direction: NeighborDirection,
    modified: &mut [u64],
    warnings: &mut [u64],
) -> Answer
    requires { (searchable lanes.old ≡ true) × ((i < word 0 lanes.old) × ((j < word 0 lanes.old) × (j ≡ i → ⊥))) }
    ensures { P.links_written lanes.new modified.new warnings.new result ≡ P.setting lanes.old i side j direction modified.old warnings.old }
{
    let answer = reciprocal_side(side, direction);
    let lane = lanes[1 + i * LANE];
    let beside = lanes[1 + j * LANE];
    let new = Some(Neighbor {
        lane: beside,
        direction,
    });
    let old = topology::neighbor(lanes, i, side);
    let other = topology::neighbor(lanes, j, answer);
    let set = reslot::holds(old, beside, direction);
    let first = report::no_op_where(set, lane);
    let apart = reslot::unshared(lanes, i, side, j, answer);
    let second = report::pair_where(apart, IssueCode::BoundaryUnshared, lane, beside);
    let mut ids = [0; 4];
    let n = reslot::touched(set, lane, old, new, other, &mut ids);
    if notices::fits(n, first, second, modified, warnings) {
        let counts = notices::report(&ids[..n], first, second, modified, warnings);
        reslot::set_unless(lanes, i, side, j, direction, set);
        return Ok(Change {
            counts,
            second: None,
        });
    }
    Err(Refusal::NoRoom)
}
