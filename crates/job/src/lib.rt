// A job of several edits (document 02, (a)): either all are made or the map stays as it was.
#![tactic(auto)]

ghost use Rattle.std.specs.Prelude.{◌≡◌};
ghost use Rattle.tables.specs.View.{tables_of};
ghost use Rattle.lent.specs.Lent.{map_tables, view_tables, SameSlices, SameLists};
ghost use Rattle.step.specs.Step as S;
ghost use Rattle.job_step.specs.Job.{job_lent, job_ended};
ghost use Rattle.job.specs.Calls.{Applied};
ghost use Rattle.job.specs.First.{first_tests};

use entities::Tolerance;
use job_decided::JobEnd;
use jobs::{Job, JobRefusal, MAX_EDITS};
use lent::{Lists, Map, MapView};

// The tests before the first edit, in document 02's order: how many edits, the map, the area.
fn first_tests(counter: u64, map: MapView, edits: u64, area: MapView) -> Result<(), JobRefusal>
    ensures { result ≡ first_tests counter (view_tables map.entry) edits (view_tables area.entry) }
{
    if MAX_EDITS < edits {
        return Err(JobRefusal::TooManyEdits);
    }
    if !sound_map::sound(
        counter,
        map.lanes,
        map.boundaries,
        map.roads,
        map.junctions,
        map.rules,
        map.stop_lines,
        map.crosswalks,
        map.coordinates,
    ) {
        return Err(JobRefusal::Unsound);
    }
    if !area::fits(map, area) {
        return Err(JobRefusal::NoRoom);
    }
    Ok(())
}

// The job tested and made. The second area begins with the map's slices as they came, once it is long enough.
fn make(
    counter: u64,
    tolerance: Tolerance,
    map: &mut Map,
    job: Job,
    area: &mut Map,
    lists: &mut Lists,
) -> JobEnd
    ensures made { Applied tolerance job (job_lent (S.given counter map.old lists.old) (map_tables area.old)) (job_ended (S.given result.counter map.new lists.new) (map_tables area.new) result.answer) }
    ensures same { SameSlices map.old map.new }
    ensures same_area { SameSlices area.old area.new }
    ensures same_lists { SameLists lists.old lists.new }
{
    let first = first_tests(counter, map.view(), job.count, area.view());
    if let Err(refusal) = first {
        return JobEnd {
            counter,
            answer: Err(refusal),
        };
    }
    area::keep_copy(map.view(), area);
    let old = area::front(map.view(), area.view());
    job_made::make(counter, tolerance, map, job, old, lists)
}

// Makes the job on the map that is lent, or refuses it: what it leaves of the counter, and its answer.
pub fn apply(
    counter: u64,
    tolerance: Tolerance,
    lanes: &mut [u64],
    boundaries: &mut [u64],
    roads: &mut [u64],
    junctions: &mut [u64],
    rules: &mut [u64],
    stop_lines: &mut [u64],
    crosswalks: &mut [u64],
    coordinates: &mut [f64],
    job: Job,
    old_lanes: &mut [u64],
    old_boundaries: &mut [u64],
    old_roads: &mut [u64],
    old_junctions: &mut [u64],
    old_rules: &mut [u64],
    old_stop_lines: &mut [u64],
    old_crosswalks: &mut [u64],
    old_coordinates: &mut [f64],
    created: &mut [u64],
    modified: &mut [u64],
    deleted: &mut [u64],
    warnings: &mut [u64],
) -> JobEnd
    ensures { Applied tolerance job (job_lent (S.lent_of counter lanes.old boundaries.old roads.old junctions.old rules.old stop_lines.old crosswalks.old coordinates.old created.old modified.old deleted.old warnings.old) (tables_of old_lanes.old old_boundaries.old old_roads.old old_junctions.old old_rules.old old_stop_lines.old old_crosswalks.old old_coordinates.old)) (job_ended (S.lent_of result.counter lanes.new boundaries.new roads.new junctions.new rules.new stop_lines.new crosswalks.new coordinates.new created.new modified.new deleted.new warnings.new) (tables_of old_lanes.new old_boundaries.new old_roads.new old_junctions.new old_rules.new old_stop_lines.new old_crosswalks.new old_coordinates.new) result.answer) }
{
    let mut map = Map {
        lanes,
        boundaries,
        roads,
        junctions,
        rules,
        stop_lines,
        crosswalks,
        coordinates,
    };
    let mut area = Map {
        lanes: old_lanes,
        boundaries: old_boundaries,
        roads: old_roads,
        junctions: old_junctions,
        rules: old_rules,
        stop_lines: old_stop_lines,
        crosswalks: old_crosswalks,
        coordinates: old_coordinates,
    };
    let mut lists = Lists {
        created,
        modified,
        deleted,
        warnings,
    };
    make(counter, tolerance, &mut map, job, &mut area, &mut lists)
}
