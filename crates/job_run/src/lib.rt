// The edits of a job one after the other on lent memory.
#![tactic(auto)]

ghost use Rattle.std.specs.Prelude.{◌≡◌, true, ◌≤◌, length};
ghost use Rattle.tables.specs.Formed.{sound_tables};
ghost use Rattle.lent.specs.Lent.{map_tables, view_rows, SameSlices, SameLists};
ghost use Rattle.jobs.specs.Job.{commands};
ghost use Rattle.job_step.specs.Job.{table_edits};
ghost use Rattle.job_marks.specs.Marks.{sorted_tables};
ghost use Rattle.job_run.specs.Runs as R;

use entities::Tolerance;
use jobs::{Done, Job, RefusedEdit};
use lent::{Lists, Map, MapView};

// The row from which an edit's warnings are written: behind those of the edits before it, as long as they are to be kept.
fn row_for(told: usize, rows: usize) -> usize
    ensures { result ≡ R.row_for told rows }
{
    told.min(rows)
}

// A run through the edits. What they list as modified is marked by the rows of the old tables, and their warnings are kept, one after the other, as long as they
// take no more than `rows` rows.
pub fn make_edits(
    counter: u64,
    tolerance: Tolerance,
    map: &mut Map,
    job: Job,
    lists: &mut Lists,
    rows: usize,
    old: MapView,
    marks: &mut [u64],
) -> Result<Done, RefusedEdit>
    requires { (sound_tables counter (map_tables map.old) ≡ true) × ((job.count ≤ 64) × ((sorted_tables (view_rows old) ≡ true) × ((length marks.old ≡ 6784) × (R.WarningRoom (table_edits tolerance 1 (commands job) (record { counter = counter; tables = (map_tables map.old) })) rows (length lists.old.warnings.now) × ((length lists.old.created.now ≡ 13568) × ((length lists.old.modified.now ≡ 13568) × (length lists.old.deleted.now ≡ 13568))))))) }
    ensures made { R.RanAs (view_rows old.entry) marks.old rows lists.old.warnings.now (map_tables map.old) (table_edits tolerance 1 (commands job) (record { counter = counter; tables = (map_tables map.old) })) result (map_tables map.new) marks.new lists.new.warnings.now }
    ensures same { SameSlices map.old map.new }
    ensures same_lists { SameLists lists.old lists.new }
{
    let mut next = counter;
    let mut told = 0;
    for i in 0..job.count {
        let edit = job.edits[i as usize];
        let command = edit.command;
        let at = row_for(told, rows);
        let turn = job_turn::make_edit(next, tolerance, map, command, lists, at, old, marks);
        match turn {
            Err(refusal) => {
                return Err(RefusedEdit {
                    place: i + 1,
                    refusal,
                });
            }
            Ok(done) => {
                next = done.counter;
                told = told + done.warnings;
            }
        }
    }
    Ok(Done {
        counter: next,
        warnings: told,
    })
}
