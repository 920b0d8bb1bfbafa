// One edit of a job on a sound map. The lists that it is lent are not the host's: they are long enough for every edit (crate `list_limits`).
#![tactic(auto)]

ghost use Rattle.std.specs.Prelude.{◌≡◌, true, ◌+◌, ◌*◌, ◌^◌, ◌≤◌, ◌<◌, length};
ghost use Rattle.report.specs.Report.{counter_behind};
ghost use Rattle.tables.specs.Formed.{sound_tables};
ghost use Rattle.job_marks.specs.Marks.{sorted_tables};
ghost use Rattle.lent.specs.Lent.{map_tables, view_rows, SameSlices, SameLists};
ghost use Rattle.step.specs.Step.{ended, lent_of, step};
ghost use Rattle.job_turn.specs.Turn as T;

use entities::{Command, Refusal, Tolerance};
use jobs::Done;
use lent::{Lists, Map, MapView};
use report::{Answer, WARNING};

// Words of a list that has room for all entities of a map, so for those that an edit lists.
pub const ENTITY_LIST: usize = 13568;

// No edit has more warnings.
pub const MOST_WARNINGS: usize = 2048;

// What an edit's answer comes to.
fn turn_of(counter: u64, answer: Answer) -> Result<Done, Refusal>
    requires { counter_behind counter answer < 2 ^ 64 }
    ensures { result ≡ T.answered counter answer }
{
    let change = answer?;
    Ok(Done {
        counter: report::counter_behind(counter, answer),
        warnings: change.counts.warnings,
    })
}

// The command's answer, with lists lent one by one: of a part of a slice that a struct holds no more than its length is known once the struct is gone.
fn answered(
    counter: u64,
    tolerance: Tolerance,
    map: &mut Map,
    command: Command,
    created: &mut [u64],
    modified: &mut [u64],
    deleted: &mut [u64],
    warnings: &mut [u64],
) -> Answer
    requires { sound_tables counter (map_tables map.old) ≡ true }
    ensures made { ended (lent_of (counter_behind counter result) map.new.lanes.now map.new.boundaries.now map.new.roads.now map.new.junctions.now map.new.rules.now map.new.stop_lines.now map.new.crosswalks.now map.new.coordinates.now created.new modified.new deleted.new warnings.new) result ≡ step tolerance command (lent_of counter map.old.lanes.now map.old.boundaries.now map.old.roads.now map.old.junctions.now map.old.rules.now map.old.stop_lines.now map.old.crosswalks.now map.old.coordinates.now created.old modified.old deleted.old warnings.old) }
    ensures same { SameSlices map.old map.new }
{
    let mut lists = Lists {
        created,
        modified,
        deleted,
        warnings,
    };
    dispatch::dispatch(counter, tolerance, map, command, &mut lists)
}

// The edit made in place. Its warnings are written from row `at` on, and what it lists as modified is marked by the rows of the old tables.
pub fn make_edit(
    counter: u64,
    tolerance: Tolerance,
    map: &mut Map,
    command: Command,
    lists: &mut Lists,
    at: usize,
    old: MapView,
    marks: &mut [u64],
) -> Result<Done, Refusal>
    requires { (sound_tables counter (map_tables map.old) ≡ true) × ((sorted_tables (view_rows old) ≡ true) × ((length marks.old ≡ 6784) × (((at + T.warning_count tolerance command (record { counter = counter; tables = (map_tables map.old) })) * 10 ≤ length lists.old.warnings.now) × ((length lists.old.created.now ≡ 13568) × ((length lists.old.modified.now ≡ 13568) × (length lists.old.deleted.now ≡ 13568)))))) }
    ensures made { T.turn_ends (map_tables map.new) marks.new lists.new.warnings.now result ≡ T.made tolerance (view_rows old.entry) command (record { counter = counter; tables = (map_tables map.old) }) marks.old at lists.old.warnings.now }
    ensures same { SameSlices map.old map.new }
    ensures same_lists { SameLists lists.old lists.new }
{
    let created = &mut *lists.created;
    let modified = &mut *lists.modified;
    let deleted = &mut *lists.deleted;
    let warnings = &mut *lists.warnings;
    let first = at * WARNING;
    let answer = answered(
        counter,
        tolerance,
        map,
        command,
        created,
        modified,
        deleted,
        &mut warnings[first..],
    );
    let n = report::answer_counts(answer);
    job_marks::mark_all(old, modified, n.modified, marks);
    turn_of(counter, answer)
}
