// The lists of a job that is made, and its warnings.
#![tactic(auto)]

ghost use Rattle.std.specs.Prelude.{◌≡◌, true, ◌*◌, ◌≤◌, length, take};
ghost use Rattle.lists.specs.Rows.{over};
ghost use Rattle.lent.specs.Lent.{map_tables, view_tables, SameSlices};
ghost use Rattle.tables.specs.Formed.{sound_tables};
ghost use Rattle.jobs.specs.Job.{commands};
ghost use Rattle.job_step.specs.Job.{table_edits};
ghost use Rattle.job_net.specs.Net.{SameNet};
ghost use Rattle.job_told.specs.Told as D;

use entities::Tolerance;
use job_net::{NetLists, NetView};
use jobs::Job;
use lent::{Lists, Map, MapView};
use report::{Counts, ENTITY, WARNING};

// As many warnings of a job are kept while its edits are made. A job that has more makes its edits again to tell them.
pub const KEPT: usize = 512;

// Any number of them, by the edits made again on the map that is put back. The net lists are lent one by one:
// fields that are lent again do not go into another struct in the same body.
fn tell_again(
    counter: u64,
    tolerance: Tolerance,
    map: &mut Map,
    job: Job,
    old: MapView,
    marks: &mut [u64],
    created: &mut [u64],
    modified: &mut [u64],
    deleted: &mut [u64],
    n: usize,
    warnings: &mut [u64],
)
    requires { (sound_tables counter (view_tables old) ≡ true) × ((job.count ≤ 64) × (D.MadeAll (table_edits tolerance 1 (commands job) (record { counter = counter; tables = (view_tables old) })) (map_tables map.old) n × ((n * 10 ≤ length warnings.old) × ((length marks.old ≡ 6784) × ((length created.old ≡ 13568) × ((length modified.old ≡ 13568) × (length deleted.old ≡ 13568))))))) }
    ensures made { D.ToldAs warnings.old (table_edits tolerance 1 (commands job) (record { counter = counter; tables = (view_tables old.entry) })) (map_tables map.new) warnings.new }
    ensures same { SameSlices map.old map.new }
{
    area::put_back(old, map);
    let mut lists = Lists {
        created,
        modified,
        deleted,
        warnings,
    };
    // the run of before once more, so its answer is known
    let _ = job_run::make_edits(counter, tolerance, map, job, &mut lists, n, old, marks);
}

// The warnings of a job that is made. Few were kept, and are copied; for more the map is put back, and the edits are made again.
pub fn tell_warnings(
    counter: u64,
    tolerance: Tolerance,
    map: &mut Map,
    job: Job,
    old: MapView,
    marks: &mut [u64],
    net: &mut NetLists,
    kept: &[u64],
    n: usize,
    warnings: &mut [u64],
)
    requires { (sound_tables counter (view_tables old) ≡ true) × ((job.count ≤ 64) × (D.MadeAll (table_edits tolerance 1 (commands job) (record { counter = counter; tables = (view_tables old) })) (map_tables map.old) n × (D.Kept (table_edits tolerance 1 (commands job) (record { counter = counter; tables = (view_tables old) })) kept.now warnings.old × ((n * 10 ≤ length warnings.old) × ((length kept.now ≡ 25600) × ((length marks.old ≡ 6784) × ((length net.old.created.now ≡ 13568) × ((length net.old.modified.now ≡ 13568) × (length net.old.deleted.now ≡ 13568))))))))) }
    ensures made { D.ToldAs warnings.old (table_edits tolerance 1 (commands job) (record { counter = counter; tables = (view_tables old.entry) })) (map_tables map.new) warnings.new }
    ensures same { SameSlices map.old map.new }
    ensures same_net { SameNet net.old net.new }
{
    if n <= KEPT {
        slots::copy(&kept[..n * WARNING], warnings, 0);
        return;
    }
    let created = &mut *net.created;
    let modified = &mut *net.modified;
    let deleted = &mut *net.deleted;
    tell_again(
        counter, tolerance, map, job, old, marks, created, modified, deleted, n, warnings,
    );
}

// The net lists of a job that is made, from where they stand ready.
pub fn tell_lists(own: NetView, n: Counts, lists: &mut NetLists)
    requires { ((n.created * 2 ≤ length own.created.now) × ((n.modified * 2 ≤ length own.modified.now) × (n.deleted * 2 ≤ length own.deleted.now))) × ((n.created * 2 ≤ length lists.old.created.now) × ((n.modified * 2 ≤ length lists.old.modified.now) × (n.deleted * 2 ≤ length lists.old.deleted.now))) }
    ensures made { (lists.new.created.now ≡ over lists.old.created.now 0 (take (n.created * 2) own.entry.created.now)) × ((lists.new.modified.now ≡ over lists.old.modified.now 0 (take (n.modified * 2) own.entry.modified.now)) × (lists.new.deleted.now ≡ over lists.old.deleted.now 0 (take (n.deleted * 2) own.entry.deleted.now))) }
    ensures same { SameNet lists.old lists.new }
{
    let created = &mut *lists.created;
    let modified = &mut *lists.modified;
    let deleted = &mut *lists.deleted;
    slots::copy(&own.created[..n.created * ENTITY], created, 0);
    slots::copy(&own.modified[..n.modified * ENTITY], modified, 0);
    slots::copy(&own.deleted[..n.deleted * ENTITY], deleted, 0);
}
