// A command and an answer as a host's numbers: what C, the replays and the programs send and read.
#![tactic(auto)]

ghost use Rattle.std.specs.Prelude.{◌≡◌, ◌^◌, ◌<◌};
ghost use Rattle.tables.specs.View as View;
ghost use Rattle.report.specs.Report.{counter_behind};
ghost use Rattle.words.specs.Words as W;

use entities::{Command, EntityRef, Neighbor, Side, SplitAt};
use report::Answer;

// Words of a command's row: its number, and up to four more.
pub const COMMAND: usize = 5;

const NUMBER: usize = 0;

const LANE: usize = 1;

// The numbers of the commands, as C sends them (the C interface); any other is the removal of a lane. Inside, a command is the enum.
pub const SPLIT: u64 = 0;

pub const MERGE: u64 = 1;

pub const CONNECT: u64 = 2;

pub const DISCONNECT: u64 = 3;

pub const SET_NEIGHBOR: u64 = 4;

pub const REMOVE: u64 = 5;

// An answer: document 01's number, the entity's kind + 1 and its id, or 0 and 0, the four counts, the second half of a split lane or 0, and the counter
// behind the call.
#[repr(C)]
#[derive(Clone, Copy)]
pub struct Told {
    pub number: u64,
    pub kind: u64,
    pub id: u64,
    pub created: u64,
    pub modified: u64,
    pub deleted: u64,
    pub warnings: u64,
    pub second: u64,
    pub counter: u64,
}

// ---- a command

// A word of a row, or 0 past its end.
pub fn word(row: &[u64], k: usize) -> u64
    ensures { result ≡ View.word k row.now }
{
    row.get(k).copied().unwrap_or(0)
}

fn split_at_of(kind: u64, bits: u64) -> SplitAt
    ensures { result ≡ W.split_at_of kind bits }
{
    let place = bits::double(bits);
    if kind == 0 {
        return SplitAt::Fraction(place);
    }
    SplitAt::Station(place)
}

fn side_of(n: u64) -> Side
    ensures { result ≡ W.side_of n }
{
    if n == 0 {
        return Side::Left;
    }
    Side::Right
}

fn neighbor_of(mark: u64, lane: u64) -> Option<Neighbor>
    ensures { result ≡ W.neighbor_of mark lane }
{
    if mark == 0 {
        return None;
    }
    if mark == 1 {
        return Some(Neighbor::same(lane));
    }
    Some(Neighbor::opposite(lane))
}

// The command with this number, of its four other words.
fn command(number: u64, lane: u64, b: u64, c: u64, d: u64) -> Command
    ensures { result ≡ W.command_by number lane b c d }
{
    if number == SPLIT {
        return Command::SplitLane {
            lane,
            at: split_at_of(b, c),
            include_neighbors: d != 0,
        };
    }
    if number == MERGE {
        return Command::MergeLanes {
            first: lane,
            second: b,
        };
    }
    if number == CONNECT {
        return Command::ConnectLanes { from: lane, to: b };
    }
    if number == DISCONNECT {
        return Command::DisconnectLanes { from: lane, to: b };
    }
    if number == SET_NEIGHBOR {
        return Command::SetNeighbor {
            lane,
            side: side_of(b),
            neighbor: neighbor_of(c, d),
        };
    }
    Command::RemoveLane { lane }
}

// The command that a row of words is.
pub fn command_of(row: &[u64]) -> Command
    ensures { result ≡ W.command_of row.now }
{
    command(
        word(row, NUMBER),
        word(row, LANE),
        word(row, 2),
        word(row, 3),
        word(row, 4),
    )
}

// ---- an answer

pub fn kind_word(entity: Option<EntityRef>) -> u64
    ensures { result ≡ W.kind_word entity }
{
    match entity {
        None => 0,
        Some(e) => {
            let kind = e.kind;
            u64::from(kind) + 1
        }
    }
}

pub fn id_word(entity: Option<EntityRef>) -> u64
    ensures { result ≡ W.id_word entity }
{
    match entity {
        None => 0,
        Some(e) => e.id,
    }
}

// The second half of a split lane, or 0.
fn second_word(answer: Answer) -> u64
    ensures { result ≡ W.second_word answer }
{
    match answer {
        Ok(change) => change.second.unwrap_or(0),
        Err(_) => 0,
    }
}

// The answer to a call that had this counter.
pub fn tell(counter: u64, answer: Answer) -> Told
    requires { counter_behind counter answer < 2 ^ 64 }
    ensures { result ≡ W.told counter answer }
{
    let entity = report::answer_entity(answer);
    let n = report::answer_counts(answer);
    Told {
        number: report::answer_number(answer),
        kind: kind_word(entity),
        id: id_word(entity),
        created: n.created as u64,
        modified: n.modified as u64,
        deleted: n.deleted as u64,
        warnings: n.warnings as u64,
        second: second_word(answer),
        counter: report::counter_behind(counter, answer),
    }
}
