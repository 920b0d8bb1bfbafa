// edit/split.rs: the change set of a split, in the lists that are lent for it.
#![tactic(auto)]

ghost use Rattle.std.specs.Prelude.{◌≡◌, true, ◌+◌, ◌*◌, ◌^◌, ◌≤◌, ◌<◌, length};
ghost use Rattle.lists.specs.Rows.{over};
ghost use Rattle.lists.specs.Select.{each, ascending, numbered};
ghost use Rattle.rules.specs.Edit.{refs};
ghost use Rattle.rules.specs.Split.{dropped_beside};
ghost use Rattle.tables.specs.View.{slot_at};
ghost use Rattle.lookup.specs.Lookup.{row_at};
ghost use Rattle.report.specs.Report as R;
ghost use Rattle.split_plan.specs.Placing.{marked_rows};
ghost use Rattle.split_lists.specs.Changes as D;

use entities::{EntityKind, IssueCode};
use lent::MapView;
use report::Notice;
use tables::{BOUNDARY, JUNCTION, LANE, LEFT_SLOT, NONE, RIGHT_SLOT, ROAD, RULE};

// Words of a piece's row, and of an entity in a list.
const PIECE: usize = 3;

const ENTITY: usize = 2;

// ---- created

// The second halves, then the new pieces: the pieces are numbered first.
pub fn list_created(next: u64, ids: usize, lanes: usize, created: &mut [u64])
    requires { (next + (ids + lanes) < 2 ^ 64) × ((ids ≤ 8192) × ((lanes ≤ 1024) × ((ids + lanes) * 2 ≤ length created.old))) }
    ensures { created.new ≡ R.listed created.old (D.created_by next ids lanes) }
{
    let lane = EntityKind::Lane;
    let boundary = EntityKind::Boundary;
    let n = report::list_up(lane, next + ids as u64, lanes, created, 0);
    report::list_up(boundary, next, ids, created, n);
}

// ---- modified

// The ids of the marked rows, from place `at` on; the place behind them.
fn list_marked(
    kind: EntityKind,
    t: &[u64],
    s: usize,
    marks: &[bool],
    out: &mut [u64],
    at: usize,
) -> usize
    requires { (D.Listed s 4096 t.now marks.now) × ((at + length (D.marked_ids s marks.now t.now)) * 2 ≤ length out.old) }
    ensures { (result ≡ at + length (D.marked_ids s marks.now t.now)) × (out.new ≡ over out.old (at * 2) (each R.entity_words (refs kind (D.marked_ids s marks.now t.now)))) }
{
    let number = u64::from(kind);
    let n = t[0] as usize;
    let mut place = at;
    for i in 0..n {
        if marks[i] {
            let word = place * ENTITY;
            out[word] = number;
            out[word + 1] = t[1 + i * s];
            place += 1;
        }
    }
    place
}

// Marks of the rows of five tables.
#[derive(Clone, Copy)]
pub struct Marks<'a> {
    pub lanes: &'a [bool],
    pub boundaries: &'a [bool],
    pub roads: &'a [bool],
    pub junctions: &'a [bool],
    pub rules: &'a [bool],
}

pub fn list_modified(map: MapView, marks: Marks, modified: &mut [u64])
    requires { (D.AllListed marks.lanes.now marks.boundaries.now marks.roads.now marks.junctions.now marks.rules.now map.lanes.now map.boundaries.now map.roads.now map.junctions.now map.rules.now) × (length (D.modified_by marks.lanes.now map.lanes.now marks.boundaries.now map.boundaries.now marks.roads.now map.roads.now marks.junctions.now map.junctions.now marks.rules.now map.rules.now) * 2 ≤ length modified.old) }
    ensures { modified.new ≡ R.listed modified.old (D.modified_by marks.entry.lanes.now map.entry.lanes.now marks.entry.boundaries.now map.entry.boundaries.now marks.entry.roads.now map.entry.roads.now marks.entry.junctions.now map.entry.junctions.now marks.entry.rules.now map.entry.rules.now) }
{
    let a = list_marked(EntityKind::Lane, map.lanes, LANE, marks.lanes, modified, 0);
    let b = list_marked(
        EntityKind::Boundary,
        map.boundaries,
        BOUNDARY,
        marks.boundaries,
        modified,
        a,
    );
    let c = list_marked(EntityKind::Road, map.roads, ROAD, marks.roads, modified, b);
    let d = list_marked(
        EntityKind::Junction,
        map.junctions,
        JUNCTION,
        marks.junctions,
        modified,
        c,
    );
    list_marked(
        EntityKind::RegulatoryElement,
        map.rules,
        RULE,
        marks.rules,
        modified,
        d,
    );
}

// ---- warnings

// The warning of a boundary that is used outside the group: its first piece has a new id.
fn piece_notice(pieces: &[u64], j: usize) -> Option<Notice>
    requires { j * 3 + 3 ≤ length pieces.now }
    ensures { R.issues result ≡ D.piece_issues pieces.now j }
{
    let at = j * PIECE;
    let id = pieces[at];
    let first = pieces[at + 1];
    if first == id {
        return None;
    }
    Some(Notice::Pieces(id, first, pieces[at + 2]))
}

// How many of m pieces are warned of.
fn count_pieces(pieces: &[u64], m: usize) -> usize
    requires { (m * 3 ≤ length pieces.now) × (m ≤ 4096) }
    ensures { (result ≡ length (D.pieces_issues pieces.now 0 m)) × (result ≤ m) }
{
    let mut count = 0;
    for j in 0..m {
        count += report::notice_count(piece_notice(pieces, j));
    }
    count
}

fn warn_pieces(pieces: &[u64], m: usize, warnings: &mut [u64]) -> usize
    requires { (m * 3 ≤ length pieces.now) × (length (D.pieces_issues pieces.now 0 m) * 10 ≤ length warnings.old) }
    ensures { (result ≡ length (D.pieces_issues pieces.now 0 m)) × (warnings.new ≡ R.warned_at 0 warnings.old (D.pieces_issues pieces.now 0 m)) }
{
    let mut at = 0;
    for j in 0..m {
        at = warnings::note(warnings, at, piece_notice(pieces, j));
    }
    at
}

// The warning of a neighbour that is not cut, in the slot from word `at` on: it is not beside the second half.
fn slot_notice(lanes: &[u64], at: usize, cut: &[u64], next: u64, second: u64) -> Option<Notice>
    requires { (ascending cut.now ≡ true) × (at + 2 ≤ length lanes.now) }
    ensures { R.issues result ≡ dropped_beside (numbered next cut.now) second (slot_at at lanes.now) }
{
    if lanes[at] == NONE {
        return None;
    }
    let lane = lanes[at + 1];
    let found = find::find_row(cut, 1, cut.len(), lane);
    match found {
        Some(_) => None,
        None => Some(Notice::Pair(IssueCode::NeighborDropped, second, lane)),
    }
}

// How many neighbours of the cut lane in row i are not cut.
fn count_row(lanes: &[u64], i: usize, cut: &[u64], next: u64, second: u64) -> usize
    requires { (ascending cut.now ≡ true) × (1 + i * 52 + 52 ≤ length lanes.now) }
    ensures { (result ≡ length (D.row_dropped cut.now next second (row_at 52 lanes.now i))) × (result ≤ 2) }
{
    let row = 1 + i * LANE;
    let left = slot_notice(lanes, row + LEFT_SLOT, cut, next, second);
    let right = slot_notice(lanes, row + RIGHT_SLOT, cut, next, second);
    report::notice_count(left) + report::notice_count(right)
}

// The same of all marked lanes; the second half of the first one is `next`.
fn count_dropped(lanes: &[u64], seen: &[bool], cut: &[u64], next: u64) -> usize
    requires { D.Beside cut.now next seen.now lanes.now }
    ensures { (result ≡ length (D.rows_dropped cut.now next next (marked_rows seen.now lanes.now))) × (result ≤ 2048) }
{
    let n = lanes[0] as usize;
    let mut second = next;
    let mut count = 0;
    for i in 0..n {
        if seen[i] {
            count += count_row(lanes, i, cut, next, second);
            second += 1;
        }
    }
    count
}

// Their warnings, left before right, from place `at` on; the place behind them.
fn warn_row(
    lanes: &[u64],
    i: usize,
    cut: &[u64],
    next: u64,
    second: u64,
    warnings: &mut [u64],
    at: usize,
) -> usize
    requires { (ascending cut.now ≡ true) × ((1 + i * 52 + 52 ≤ length lanes.now) × ((at + length (D.row_dropped cut.now next second (row_at 52 lanes.now i))) * 10 ≤ length warnings.old)) }
    ensures { (result ≡ at + length (D.row_dropped cut.now next second (row_at 52 lanes.now i))) × (warnings.new ≡ R.warned_at at warnings.old (D.row_dropped cut.now next second (row_at 52 lanes.now i))) }
{
    let row = 1 + i * LANE;
    let left = slot_notice(lanes, row + LEFT_SLOT, cut, next, second);
    let right = slot_notice(lanes, row + RIGHT_SLOT, cut, next, second);
    let behind = warnings::note(warnings, at, left);
    warnings::note(warnings, behind, right)
}

fn warn_dropped(
    lanes: &[u64],
    seen: &[bool],
    cut: &[u64],
    next: u64,
    warnings: &mut [u64],
    from: usize,
)
    requires { (D.Beside cut.now next seen.now lanes.now) × ((from + length (D.rows_dropped cut.now next next (marked_rows seen.now lanes.now))) * 10 ≤ length warnings.old) }
    ensures { warnings.new ≡ R.warned_at from warnings.old (D.rows_dropped cut.now next next (marked_rows seen.now lanes.now)) }
{
    let n = lanes[0] as usize;
    let mut second = next;
    let mut at = from;
    for i in 0..n {
        if seen[i] {
            at = warn_row(lanes, i, cut, next, second, warnings, at);
            second += 1;
        }
    }
}

// How many warnings there are; m rows of pieces, and `next` is the first second half.
pub fn count_warnings(
    pieces: &[u64],
    m: usize,
    lanes: &[u64],
    seen: &[bool],
    cut: &[u64],
    next: u64,
) -> usize
    requires { (m * 3 ≤ length pieces.now) × ((m ≤ 4096) × (D.Beside cut.now next seen.now lanes.now)) }
    ensures { result ≡ length (D.warnings_by pieces.now m cut.now next seen.now lanes.now) }
{
    count_pieces(pieces, m) + count_dropped(lanes, seen, cut, next)
}

// Boundaries by id, then lanes, left before right.
pub fn warn(
    pieces: &[u64],
    m: usize,
    lanes: &[u64],
    seen: &[bool],
    cut: &[u64],
    next: u64,
    warnings: &mut [u64],
)
    requires { (m * 3 ≤ length pieces.now) × ((D.Beside cut.now next seen.now lanes.now) × (length (D.warnings_by pieces.now m cut.now next seen.now lanes.now) * 10 ≤ length warnings.old)) }
    ensures { warnings.new ≡ R.warned warnings.old (D.warnings_by pieces.now m cut.now next seen.now lanes.now) }
{
    let at = warn_pieces(pieces, m, warnings);
    warn_dropped(lanes, seen, cut, next, warnings, at);
}
