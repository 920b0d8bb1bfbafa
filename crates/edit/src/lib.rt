// edit/mod.rs: connect, disconnect, set_neighbor on lent memory that holds a sound map (`ops::apply` tests that first). Each looks the lanes up, decides,
// tests the room, and only then writes. None allocates an id, so the counter stays.
#![tactic(auto)]

ghost use Rattle.std.specs.Prelude.{◌≡◌, true};
ghost use Rattle.step.specs.Step.{relink_given};
ghost use Rattle.rules.specs.Ops as O;
ghost use Rattle.tables.specs.Formed.{sound_tables};
ghost use Rattle.step.specs.Step as S;
ghost use Rattle.lent.specs.Lent.{relink_tables, SameRelinkMap, SameRelinkLists};

use entities::{Neighbor, Refusal, Side, Tolerance};
use lent::{RelinkLists, RelinkMap};
use report::Answer;

// Map::connect: a link from one lane to another.
pub fn connect(
    counter: u64,
    tolerance: Tolerance,
    map: &mut RelinkMap,
    from: u64,
    to: u64,
    lists: &mut RelinkLists,
) -> Answer
    requires { sound_tables counter (relink_tables map.old) ≡ true }
    ensures made { S.ended (relink_given counter map.new lists.new) result ≡ S.step tolerance (O.ConnectLanes from to) (relink_given counter map.old lists.old) }
    ensures same { SameRelinkMap map.old map.new }
    ensures same_lists { SameRelinkLists lists.old lists.new }
{
    let lanes = &mut *map.lanes;
    let boundaries = map.boundaries;
    let coordinates = map.coordinates;
    let modified = &mut *lists.modified;
    let warnings = &mut *lists.warnings;
    let found = lookup::lane(lanes, from);
    let Some(i) = found else {
        return Err(Refusal::LaneAbsent(from));
    };
    let other = lookup::lane(lanes, to);
    let Some(j) = other else {
        return Err(Refusal::LaneAbsent(to));
    };
    if from == to {
        return Err(Refusal::OwnPartner(from));
    }
    let gap = gaps::gapped(lanes, i, j, boundaries, coordinates, tolerance.gap);
    let linked = relink::links::leads(lanes, i, to);
    relink::links::link(lanes, i, j, linked, gap, modified, warnings)
}

// Map::disconnect: a link from one lane to another taken out.
pub fn disconnect(
    counter: u64,
    tolerance: Tolerance,
    map: &mut RelinkMap,
    from: u64,
    to: u64,
    lists: &mut RelinkLists,
) -> Answer
    requires { sound_tables counter (relink_tables map.old) ≡ true }
    ensures made { S.ended (relink_given counter map.new lists.new) result ≡ S.step tolerance (O.DisconnectLanes from to) (relink_given counter map.old lists.old) }
    ensures same { SameRelinkMap map.old map.new }
    ensures same_lists { SameRelinkLists lists.old lists.new }
{
    let lanes = &mut *map.lanes;
    let modified = &mut *lists.modified;
    let warnings = &mut *lists.warnings;
    let found = lookup::lane(lanes, from);
    let Some(i) = found else {
        return Err(Refusal::LaneAbsent(from));
    };
    let other = lookup::lane(lanes, to);
    let Some(j) = other else {
        return Err(Refusal::LaneAbsent(to));
    };
    let linked = relink::links::leads(lanes, i, to);
    unlink::unlink(lanes, i, j, linked, modified, warnings)
}

// Map::set_neighbor: the neighbour of a lane on a side, or none.
pub fn set_neighbor(
    counter: u64,
    tolerance: Tolerance,
    map: &mut RelinkMap,
    lane: u64,
    side: Side,
    neighbor: Option<Neighbor>,
    lists: &mut RelinkLists,
) -> Answer
    requires { sound_tables counter (relink_tables map.old) ≡ true }
    ensures made { S.ended (relink_given counter map.new lists.new) result ≡ S.step tolerance (O.SetNeighbor lane side neighbor) (relink_given counter map.old lists.old) }
    ensures same { SameRelinkMap map.old map.new }
    ensures same_lists { SameRelinkLists lists.old lists.new }
{
    let lanes = &mut *map.lanes;
    let modified = &mut *lists.modified;
    let warnings = &mut *lists.warnings;
    let found = lookup::lane(lanes, lane);
    let Some(i) = found else {
        return Err(Refusal::LaneAbsent(lane));
    };
    let Some(n) = neighbor else {
        return reslot_edits::free_slot(lanes, i, side, modified, warnings);
    };
    let direction = n.direction;
    let other = lookup::lane(lanes, n.lane);
    let Some(j) = other else {
        return Err(Refusal::LaneAbsent(n.lane));
    };
    if n.lane == lane {
        return Err(Refusal::OwnPartner(lane));
    }
    reslot_edits::set_slot(lanes, i, side, j, direction, modified, warnings)
}
