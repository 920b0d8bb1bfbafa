// What a job comes to once its edits have run: refused at one of them, made, or refused because its net lists do not fit.
#![tactic(auto)]

ghost use Rattle.std.specs.Prelude.{◌≡◌, length};
ghost use Rattle.lent.specs.Lent.{view_rows};
ghost use Rattle.job_net.specs.Net.{SameNet};
ghost use Rattle.job_decided.specs.Decided as D;

use job_net::NetLists;
use jobs::{Done, JobAnswer, JobRefusal, RefusedEdit};
use lent::{ListsView, MapView};

// What a job leaves of the counter, and its answer.
#[derive(Clone, Copy)]
pub struct JobEnd {
    pub counter: u64,
    pub answer: JobAnswer,
}

// The net lists are written to the job's own ones, of which each has room for all entities of a map, and tested against those that are lent.
pub fn decided(
    counter: u64,
    map: MapView,
    old: MapView,
    marks: &[u64],
    net: &mut NetLists,
    ran: Result<Done, RefusedEdit>,
    lists: ListsView,
) -> JobEnd
    requires { D.Sorted ran (view_rows map) (view_rows old) × ((length marks.now ≡ 6784) × ((length net.old.created.now ≡ 13568) × ((length net.old.modified.now ≡ 13568) × (length net.old.deleted.now ≡ 13568)))) }
    ensures made { D.DecidedAs counter (view_rows map.entry) (view_rows old.entry) marks.now net.old.created.now net.old.modified.now net.old.deleted.now ran lists.entry.created.now lists.entry.modified.now lists.entry.deleted.now lists.entry.warnings.now result net.new.created.now net.new.modified.now net.new.deleted.now }
    ensures same { SameNet net.old net.new }
{
    match ran {
        Err(stopped) => JobEnd {
            counter,
            answer: Err(JobRefusal::EditRefused {
                place: stopped.place,
                refusal: stopped.refusal,
            }),
        },
        Ok(done) => {
            let n = job_net::net_lists(map, old, marks, net, done.warnings);
            if !room::lists_fit(
                n,
                lists.created,
                lists.modified,
                lists.deleted,
                lists.warnings,
            ) {
                return JobEnd {
                    counter,
                    answer: Err(JobRefusal::NoRoom),
                };
            }
            JobEnd {
                counter: done.counter,
                answer: Ok(n),
            }
        }
    }
}
