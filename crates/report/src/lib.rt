// diagnostics.rs and the change set of edit/mod.rs: what an accepted edit writes into the lists that are lent for its answer.
#![tactic(auto)]

ghost use Rattle.std.specs.Prelude.{◌≡◌, true, cond, ◌+◌, ◌*◌, ◌^◌, ◌≤◌, ◌<◌, length, take, Some, None};
ghost use Rattle.lists.specs.Rows.{over};
ghost use Rattle.lists.specs.Select.{each, place, ascending};
ghost use Rattle.rules.specs.Edit as E;
ghost use Rattle.report.specs.declared.Notice.TheVariants as N;
ghost use Rattle.report.specs.Report as R;

use entities::{EntityKind, EntityRef, IssueCode, Refusal};

// Words of an entity and of a warning in a lent list.
pub const ENTITY: usize = 2;

pub const WARNING: usize = 10;

// How many places of each lent list an accepted call has filled: pairs of words, and rows of ten for warnings.
#[derive(Clone, Copy)]
pub struct Counts {
    pub created: usize,
    pub modified: usize,
    pub deleted: usize,
    pub warnings: usize,
}

// What an accepted edit has come to: what it has filled, and of a split the second half of its lane.
#[derive(Clone, Copy)]
pub struct Change {
    pub counts: Counts,
    pub second: Option<u64>,
}

// What a call answers.
pub type Answer = Result<Change, Refusal>;

// The paper's number: 0 for an accepted call.
pub fn answer_number(answer: Answer) -> u64
    ensures { result ≡ R.answer_number answer }
{
    match answer {
        Ok(_) => 0,
        Err(refusal) => u64::from(refusal),
    }
}

// The entity that a refusal names.
pub fn answer_entity(answer: Answer) -> Option<EntityRef>
    ensures { result ≡ R.answer_entity answer }
{
    match answer {
        Ok(_) => None,
        Err(refusal) => refusal.entity(),
    }
}

// How many places of the lists an accepted call has filled; none for a refused one.
pub fn answer_counts(answer: Answer) -> Counts
    ensures { result ≡ R.answer_counts answer }
{
    match answer {
        Ok(change) => change.counts,
        Err(_) => Counts {
            created: 0,
            modified: 0,
            deleted: 0,
            warnings: 0,
        },
    }
}

// The counter behind a call.
pub fn counter_behind(counter: u64, answer: Answer) -> u64
    requires { R.counter_behind counter answer < 2 ^ 64 }
    ensures { result ≡ R.counter_behind counter answer }
{
    let ids = answer_counts(answer).created as u64;
    if ids == 0 {
        return counter;
    }
    if counter == 0 {
        return ids + 1;
    }
    counter + ids
}

// ---- lanes named as modified

// An id put in its place among the first n, unless it is there; how many there are then.
// The list lies at the front of its slots, which are fixed memory: the count stands beside it.
pub fn named(ids: &mut [u64], n: usize, id: u64) -> usize
    requires { (n < length ids.old) × (ascending (take n ids.old) ≡ true) }
    ensures { (ids.new ≡ over ids.old 0 (place id (take n ids.old))) × (result ≡ length (place id (take n ids.old))) }
{
    if lists::contains(&ids[..n], id) {
        return n;
    }
    slots::insert(ids, n, id);
    n + 1
}

// ---- entities listed

// Entities of a kind, in the order given, from place `at` of a lent list on; the place behind.
pub fn list_ids(kind: EntityKind, ids: &[u64], out: &mut [u64], at: usize) -> usize
    requires { (at + length ids.now) * 2 ≤ length out.old }
    ensures { (result ≡ at + length ids.now) × (out.new ≡ over out.old (at * 2) (each R.entity_words (E.refs kind ids.now))) }
{
    let number = u64::from(kind);
    for i in 0..ids.len() {
        let place = (at + i) * ENTITY;
        out[place] = number;
        out[place + 1] = ids[i];
    }
    at + ids.len()
}

// The same of n ids that count up from the first.
pub fn list_up(kind: EntityKind, from: u64, n: usize, out: &mut [u64], at: usize) -> usize
    requires { (from + n ≤ 2 ^ 64) × ((at + n) * 2 ≤ length out.old) }
    ensures { (result ≡ at + n) × (out.new ≡ over out.old (at * 2) (each R.entity_words (E.refs kind (E.up_from from n)))) }
{
    let number = u64::from(kind);
    for i in 0..n {
        let place = (at + i) * ENTITY;
        out[place] = number;
        out[place + 1] = from + i as u64;
    }
    at + n
}

// ---- warnings

// A warning of one lane or of two, of one boundary, or of one and the two pieces that cut lanes have in its place.
#[derive(Clone, Copy)]
pub enum Notice {
    NoOp(u64),
    Pair(IssueCode, u64, u64),
    Unshared(u64),
    Pieces(u64, u64, u64),
}

pub fn no_op_where(on: bool, lane: u64) -> Option<Notice>
    ensures { result ≡ cond on (Some (N.NoOp lane)) None }
{
    on.then_some(Notice::NoOp(lane))
}

pub fn pair_where(on: bool, code: IssueCode, lane: u64, other: u64) -> Option<Notice>
    ensures { result ≡ cond on (Some (N.Pair code lane other)) None }
{
    on.then_some(Notice::Pair(code, lane, other))
}

// How many rows it takes.
pub fn notice_count(notice: Option<Notice>) -> usize
    ensures { result ≡ length (R.issues notice) }
{
    match notice {
        None => 0,
        Some(_) => 1,
    }
}
