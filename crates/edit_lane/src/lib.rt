// edit/lane.rs: remove_lane. What goes and what names it is found first; then the lists are written, then the tables.
#![tactic(auto)]

ghost use Rattle.std.specs.Prelude.{◌≡◌, true, ◌+◌, ◌*◌};
ghost use Rattle.step.specs.Step.{removal_given};
ghost use Rattle.rules.specs.Ops as O;
ghost use Rattle.tables.specs.View.{word};
ghost use Rattle.tables.specs.Formed.{sound_tables};
ghost use Rattle.row_tests.specs.Returned.{lane_at};
ghost use Rattle.step.specs.Step as S;
ghost use Rattle.lent.specs.Lent.{removal_tables, SameRemovalMap, SameRemovalLists};
ghost use Rattle.mentions.specs.declared.Rows.TheVariants.{Orphans};
ghost use Rattle.unused.specs.Parts as P;

use entities::{Refusal, Tolerance};
use lent::{RemovalLists, RemovalMap};
use mentions::Rows;
use report::{Answer, Change, Counts};
use tables::LANE;

// Removes the lane in row i, where the lists have room.
fn remove(map: &mut RemovalMap, i: usize, lists: &mut RemovalLists) -> Answer
    requires { P.Removable map.old.lanes.now i map.old.boundaries.now map.old.roads.now map.old.junctions.now map.old.rules.now }
    ensures made { P.removed (P.tables map.new.lanes.now map.new.boundaries.now map.new.roads.now map.new.junctions.now map.new.rules.now) lists.new.modified.now lists.new.deleted.now lists.new.warnings.now result ≡ P.without_lane (word 0 (lane_at map.old.lanes.now i)) (P.gone_with map.old.lanes.now i map.old.boundaries.now) (P.tables map.old.lanes.now map.old.boundaries.now map.old.roads.now map.old.junctions.now map.old.rules.now) lists.old.modified.now lists.old.deleted.now lists.old.warnings.now }
    ensures same { SameRemovalMap map.old map.new }
    ensures same_lists { SameRemovalLists lists.old lists.new }
{
    let lanes = &mut *map.lanes;
    let boundaries = &mut *map.boundaries;
    let roads = &mut *map.roads;
    let junctions = &mut *map.junctions;
    let rules = &mut *map.rules;
    let modified = &mut *lists.modified;
    let deleted = &mut *lists.deleted;
    let warnings = &mut *lists.warnings;
    let lane = lanes[1 + i * LANE];
    let own = unused::own_boundaries(lanes, i, boundaries);
    let n = own.count + 1;
    let named = lane_lists::count_named(lanes, roads, junctions, rules, lane);
    let orphans = mentions::count(rules, Rows::Orphans, lane);
    if lane_lists::fits(named, n, orphans, modified, deleted, warnings) {
        lane_lists::list_named(lanes, roads, junctions, rules, lane, modified);
        lane_lists::list_gone(lane, own, deleted);
        lane_lists::warn(rules, lane, warnings);
        lane_lists::write(lanes, boundaries, roads, junctions, rules, lane, own);
        return Ok(Change {
            counts: Counts {
                created: 0,
                modified: named,
                deleted: n,
                warnings: orphans,
            },
            second: None,
        });
    }
    Err(Refusal::NoRoom)
}

// Map::remove_lane: a lane goes, with the boundaries that only it uses. The map is sound.
pub fn remove_lane(
    counter: u64,
    tolerance: Tolerance,
    map: &mut RemovalMap,
    lane: u64,
    lists: &mut RemovalLists,
) -> Answer
    requires { sound_tables counter (removal_tables map.old) ≡ true }
    ensures made { S.ended (removal_given counter map.new lists.new) result ≡ S.step tolerance (O.RemoveLane lane) (removal_given counter map.old lists.old) }
    ensures same { SameRemovalMap map.old map.new }
    ensures same_lists { SameRemovalLists lists.old lists.new }
{
    let lanes = &mut *map.lanes;
    let found = lookup::lane(lanes, lane);
    let Some(i) = found else {
        return Err(Refusal::LaneAbsent(lane));
    };
    remove(map, i, lists)
}
