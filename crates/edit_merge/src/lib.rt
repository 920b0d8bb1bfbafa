// edit/merge.rs, Map::merge_lanes: what is refused, and what is left to merge_made.
#![tactic(auto)]

ghost use Rattle.std.specs.Prelude.{◌≡◌, true};
ghost use Rattle.step.specs.Step.{given};
ghost use Rattle.rules.specs.Ops as O;
ghost use Rattle.tables.specs.Formed.{sound_tables};
ghost use Rattle.report.specs.Report.{counter_behind};
ghost use Rattle.step.specs.Step as S;
ghost use Rattle.lent.specs.Lent.{map_tables, SameSlices, SameLists};

use entities::{Refusal, Tolerance};
use lane_lines::Drawable;
use report::Answer;

// Map::merge_lanes: the second lane, which follows the first alone and comes from it alone, becomes a part of the first. The map is sound.
pub fn merge_lanes(
    counter: u64,
    tolerance: Tolerance,
    map: &mut lent::Map,
    first: u64,
    second: u64,
    lists: &mut lent::Lists,
) -> Answer
    requires { sound_tables counter (map_tables map.old) ≡ true }
    ensures made { S.ended (given (counter_behind counter result) map.new lists.new) result ≡ S.step tolerance (O.MergeLanes first second) (given counter map.old lists.old) }
    ensures same { SameSlices map.old map.new }
    ensures same_lists { SameLists lists.old lists.new }
{
    let lanes = &mut *map.lanes;
    let boundaries = &mut *map.boundaries;
    let coordinates = &mut *map.coordinates;
    let found = lookup::lane(lanes, first);
    let Some(i) = found else {
        return Err(Refusal::LaneAbsent(first));
    };
    let other = lookup::lane(lanes, second);
    let Some(j) = other else {
        return Err(Refusal::LaneAbsent(second));
    };
    if !merge_plan::mergeable(lanes, i, j) {
        return Err(Refusal::NotMergeable(first));
    }
    let join = tolerance.join;
    let drawable = Drawable {
        lanes,
        boundaries,
        coordinates,
    };
    let plan = merge_decide::decide(join, drawable, i, j)?;
    merge_made::merge_found(counter, join, map, i, j, plan, lists)
}
