// ops.rs: a command made on lent memory. The map is tested once, whatever the command; then the edit is made.
#![tactic(auto)]

ghost use Rattle.report.specs.Report.{counter_behind};
ghost use Rattle.step.specs.Step as S;
ghost use Rattle.ops.specs.Calls.{Applied};

use entities::{Command, Counter, Refusal, Tolerance};
use lent::{Lists, Map};
use report::Answer;

// Map::apply: makes a command on the map that is lent, or refuses it. Every list of contents, whatever its length, has its answer. The slices are lent one
// by one, as hosts lend them (README), and become a `Map` and `Lists` here.
pub fn apply(
    counter: Counter,
    tolerance: Tolerance,
    lanes: &mut [u64],
    boundaries: &mut [u64],
    roads: &mut [u64],
    junctions: &mut [u64],
    rules: &mut [u64],
    stop_lines: &mut [u64],
    crosswalks: &mut [u64],
    coordinates: &mut [f64],
    command: Command,
    created: &mut [u64],
    modified: &mut [u64],
    deleted: &mut [u64],
    warnings: &mut [u64],
) -> Answer
    ensures { Applied tolerance command (S.lent_of counter.next lanes.old boundaries.old roads.old junctions.old rules.old stop_lines.old crosswalks.old coordinates.old created.old modified.old deleted.old warnings.old) (S.ended (S.lent_of (counter_behind counter.next result) lanes.new boundaries.new roads.new junctions.new rules.new stop_lines.new crosswalks.new coordinates.new created.new modified.new deleted.new warnings.new) result) }
{
    let next = counter.next;
    if sound_map::sound(
        next,
        lanes,
        boundaries,
        roads,
        junctions,
        rules,
        stop_lines,
        crosswalks,
        coordinates,
    ) {
        let mut map = Map {
            lanes,
            boundaries,
            roads,
            junctions,
            rules,
            stop_lines,
            crosswalks,
            coordinates,
        };
        let mut lists = Lists {
            created,
            modified,
            deleted,
            warnings,
        };
        return dispatch::dispatch(next, tolerance, &mut map, command, &mut lists);
    }
    Err(Refusal::Unsound)
}
