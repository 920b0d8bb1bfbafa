// A job of several edits (document 02, (a)): the job itself and its answer, by value.
#![tactic(auto)]

ghost use Rattle.std.specs.Prelude.{◌≡◌};
ghost use Rattle.jobs.specs.Answers as J;

use entities::{Command, EntityRef, Refusal};
use report::Counts;

// "up to 64 edits"
pub const MAX_EDITS: u64 = 64;

#[derive(Clone, Copy)]
pub struct Edit {
    pub command: Command,
}

// The first `count` of the edits, in order. A count above 64 is refused.
#[derive(Clone, Copy)]
pub struct Job {
    pub count: u64,
    pub edits: [Edit; 64],
}

// Why a job is not made. A refused edit has its place in the job, counted from 1.
#[derive(Clone, Copy)]
pub enum JobRefusal {
    TooManyEdits,
    Unsound,
    NoRoom,
    EditRefused { place: u64, refusal: Refusal },
}

// What edits that are made come to: the counter behind them, and how many warnings there are.
#[derive(Clone, Copy)]
pub struct Done {
    pub counter: u64,
    pub warnings: usize,
}

// An edit that was refused, and its place.
#[derive(Clone, Copy)]
pub struct RefusedEdit {
    pub place: u64,
    pub refusal: Refusal,
}

// What a job answers: the counts of its net lists, or why it was not made.
pub type JobAnswer = Result<Counts, JobRefusal>;

// The papers' number: 0 for a made job.
pub fn job_number(answer: JobAnswer) -> u64
    ensures { result ≡ J.job_number answer }
{
    match answer {
        Ok(_) => 0,
        Err(JobRefusal::TooManyEdits) => 13,
        Err(JobRefusal::Unsound) => 9,
        Err(JobRefusal::NoRoom) => 10,
        Err(
            JobRefusal::EditRefused {
                place: _,
                refusal: _,
            },
        ) => 12,
    }
}

// The place of the refused edit, from 1; 0 where no edit was refused.
pub fn job_place(answer: JobAnswer) -> u64
    ensures { result ≡ J.job_place answer }
{
    match answer {
        Ok(_) => 0,
        Err(JobRefusal::TooManyEdits) => 0,
        Err(JobRefusal::Unsound) => 0,
        Err(JobRefusal::NoRoom) => 0,
        Err(JobRefusal::EditRefused { place, refusal: _ }) => place,
    }
}

// The refused edit's own number; 0 where no edit was refused.
pub fn job_own_number(answer: JobAnswer) -> u64
    ensures { result ≡ J.job_own_number answer }
{
    match answer {
        Ok(_) => 0,
        Err(JobRefusal::TooManyEdits) => 0,
        Err(JobRefusal::Unsound) => 0,
        Err(JobRefusal::NoRoom) => 0,
        Err(JobRefusal::EditRefused { place: _, refusal }) => u64::from(refusal),
    }
}

// The entity that the refused edit names.
pub fn job_entity(answer: JobAnswer) -> Option<EntityRef>
    ensures { result ≡ J.job_entity answer }
{
    match answer {
        Ok(_) => None,
        Err(JobRefusal::TooManyEdits) => None,
        Err(JobRefusal::Unsound) => None,
        Err(JobRefusal::NoRoom) => None,
        Err(JobRefusal::EditRefused { place: _, refusal }) => refusal.entity(),
    }
}

// How many places of the lists a made job has filled; none for a refused one.
pub fn job_counts(answer: JobAnswer) -> Counts
    ensures { result ≡ J.job_counts answer }
{
    match answer {
        Ok(n) => n,
        Err(_) => no_counts(),
    }
}

fn no_counts() -> Counts
    ensures { result ≡ J.no_counts }
{
    Counts {
        created: 0,
        modified: 0,
        deleted: 0,
        warnings: 0,
    }
}
