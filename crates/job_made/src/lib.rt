// A job that has passed its first tests: its edits made in place, the net lists, and the way back where it is refused.
#![tactic(auto)]

ghost use Rattle.std.specs.Prelude.{◌≡◌, true, ◌*◌, ◌≤◌, length, take};
ghost use Rattle.lists.specs.Rows.{over};
ghost use Rattle.lent.specs.Lent.{map_tables, view_tables, SameSlices, SameLists};
ghost use Rattle.tables.specs.Formed.{sound_tables};
ghost use Rattle.jobs.specs.Job.{commands};
ghost use Rattle.step.specs.Step as S;
ghost use Rattle.job_step.specs.Job.{job_ended, ending, table_edits};
ghost use Rattle.job_made.specs.Made.{unmarked, kept_from, kept_words};

use entities::Tolerance;
use job_decided::JobEnd;
use job_marks::MARKS;
use job_net::NetLists;
use job_told::KEPT;
use job_turn::{ENTITY_LIST, MOST_WARNINGS};
use jobs::Job;
use lent::{Lists, Map, MapView};
use report::{Counts, WARNING};

// Rows of the job's own warnings: behind the last that is kept there is room for those of any edit.
const WARNING_LIST: usize = (KEPT + MOST_WARNINGS) * WARNING;

// The net lists, copied into those that are lent.
fn tell_net(net: &NetLists, n: Counts, lists: &mut Lists)
    requires { ((n.created * 2 ≤ length net.now.created.now) × ((n.modified * 2 ≤ length net.now.modified.now) × (n.deleted * 2 ≤ length net.now.deleted.now))) × ((n.created * 2 ≤ length lists.old.created.now) × ((n.modified * 2 ≤ length lists.old.modified.now) × (n.deleted * 2 ≤ length lists.old.deleted.now))) }
    ensures made { (lists.new.created.now ≡ over lists.old.created.now 0 (take (n.created * 2) net.now.created.now)) × ((lists.new.modified.now ≡ over lists.old.modified.now 0 (take (n.modified * 2) net.now.modified.now)) × (lists.new.deleted.now ≡ over lists.old.deleted.now 0 (take (n.deleted * 2) net.now.deleted.now))) }
    ensures rest { lists.new.warnings.now ≡ lists.old.warnings.now }
    ensures same_lists { SameLists lists.old lists.new }
{
    let mut told = NetLists {
        created: &mut *lists.created,
        modified: &mut *lists.modified,
        deleted: &mut *lists.deleted,
    };
    job_told::tell_lists(net.view(), n, &mut told);
}

// The edits, what they come to, and then the lists or the way back.
fn make_with(
    counter: u64,
    tolerance: Tolerance,
    map: &mut Map,
    job: Job,
    old: MapView,
    marks: &mut [u64],
    own: &mut Lists,
    lists: &mut Lists,
) -> JobEnd
    requires { (sound_tables counter (map_tables map.old) ≡ true) × ((job.count ≤ 64) × ((view_tables old ≡ map_tables map.old) × ((marks.old ≡ unmarked) × ((own.old.warnings.now ≡ kept_from lists.old.warnings.now) × ((length own.old.created.now ≡ 13568) × ((length own.old.modified.now ≡ 13568) × (length own.old.deleted.now ≡ 13568))))))) }
    ensures made { job_ended (S.given result.counter map.new lists.new) (view_tables old.entry) result.answer ≡ ending (S.given counter map.old lists.old) (view_tables old.entry) (table_edits tolerance 1 (commands job) (record { counter = counter; tables = (map_tables map.old) })) }
    ensures same { SameSlices map.old map.new }
    ensures same_lists { SameLists lists.old lists.new }
{
    let ran = job_run::make_edits(counter, tolerance, map, job, own, KEPT, old, marks);
    let mut net = NetLists {
        created: &mut *own.created,
        modified: &mut *own.modified,
        deleted: &mut *own.deleted,
    };
    let kept = &mut *own.warnings;
    let end = job_decided::decided(counter, map.view(), old, marks, &mut net, ran, lists.view());
    let answer = end.answer;
    if let Ok(n) = answer {
        tell_net(&net, n, lists);
        let warnings = &mut *lists.warnings;
        job_told::tell_warnings(
            counter, tolerance, map, job, old, marks, &mut net, kept, n.warnings, warnings,
        );
        return end;
    }
    area::put_back(old, map);
    end
}

// How many words of the lent warnings have a place among those that are kept.
fn kept_words(n: usize) -> usize
    ensures { result ≡ kept_words n }
{
    n.min(KEPT * WARNING)
}

// The job's own warnings begin as the lent ones.
fn keep_front(lists: &Lists, kept: &mut [u64])
    requires { length kept.old ≡ 25600 }
    ensures { kept.new ≡ over kept.old 0 (take 5120 lists.now.warnings.now) }
{
    let m = kept_words(lists.warnings.len());
    slots::copy(&lists.warnings[..m], kept, 0);
}

// The job made on a sound map, of which the old one is a copy.
pub fn make(
    counter: u64,
    tolerance: Tolerance,
    map: &mut Map,
    job: Job,
    old: MapView,
    lists: &mut Lists,
) -> JobEnd
    requires { (sound_tables counter (map_tables map.old) ≡ true) × ((job.count ≤ 64) × (view_tables old ≡ map_tables map.old)) }
    ensures made { job_ended (S.given result.counter map.new lists.new) (view_tables old.entry) result.answer ≡ ending (S.given counter map.old lists.old) (view_tables old.entry) (table_edits tolerance 1 (commands job) (record { counter = counter; tables = (map_tables map.old) })) }
    ensures same { SameSlices map.old map.new }
    ensures same_lists { SameLists lists.old lists.new }
{
    let mut marks = [0; MARKS];
    let mut all_created = [0; ENTITY_LIST];
    let mut all_modified = [0; ENTITY_LIST];
    let mut all_deleted = [0; ENTITY_LIST];
    let mut kept = [0; WARNING_LIST];
    keep_front(lists, &mut kept);
    let mut own = Lists {
        created: &mut all_created,
        modified: &mut all_modified,
        deleted: &mut all_deleted,
        warnings: &mut kept,
    };
    make_with(
        counter, tolerance, map, job, old, &mut marks, &mut own, lists,
    )
}
