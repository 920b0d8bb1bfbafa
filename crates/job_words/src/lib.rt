// A job and its answer as a host's numbers.
#![tactic(auto)]

ghost use Rattle.std.specs.Prelude.{◌≡◌, ◌*◌, ◌<◌, drop};
ghost use Rattle.words.specs.Words.{command_of};
ghost use Rattle.job_words.specs.JobWords as W;

use entities::Command;
use jobs::{Edit, Job, JobAnswer};
use words::COMMAND;

// Edits that a job holds.
const EDITS: usize = 64;

// An answer: the papers' number, the place of a refused edit, counted from 1, and its own number, the entity that it names (kind + 1 and id, or 0 and 0), the
// four counts, and the counter behind the call.
#[repr(C)]
#[derive(Clone, Copy)]
pub struct ToldJob {
    pub number: u64,
    pub place: u64,
    pub own: u64,
    pub kind: u64,
    pub id: u64,
    pub created: u64,
    pub modified: u64,
    pub deleted: u64,
    pub warnings: u64,
    pub counter: u64,
}

// The command of row i, of which nothing need be there.
fn command_at(rows: &[u64], i: usize) -> Command
    requires { i < 64 }
    ensures { result ≡ command_of (drop (i * 5) rows.now) }
{
    let from = i * COMMAND;
    if from < rows.len() {
        return words::command_of(&rows[from..]);
    }
    words::command_of(&rows[rows.len()..])
}

// The job that rows of words are.
pub fn job_of(rows: &[u64]) -> Job
    ensures { result ≡ W.job_of rows.now }
{
    let mut edits = [Edit {
        command: Command::RemoveLane { lane: 0 },
    }; 64];
    for i in 0..EDITS {
        edits[i] = Edit {
            command: command_at(rows, i),
        };
    }
    Job {
        count: ((rows.len() + (COMMAND - 1)) / COMMAND) as u64,
        edits,
    }
}

// The answer of a job, with the counter behind it.
pub fn tell(counter: u64, answer: JobAnswer) -> ToldJob
    ensures { result ≡ W.told_job counter answer }
{
    let entity = jobs::job_entity(answer);
    let n = jobs::job_counts(answer);
    ToldJob {
        number: jobs::job_number(answer),
        place: jobs::job_place(answer),
        own: jobs::job_own_number(answer),
        kind: words::kind_word(entity),
        id: words::id_word(entity),
        created: n.created as u64,
        modified: n.modified as u64,
        deleted: n.deleted as u64,
        warnings: n.warnings as u64,
        counter,
    }
}
