// edit/split.rs: the boundaries that a split cuts, whether each is the group's alone, and the ids of its pieces. Nothing lent is written.
#![tactic(auto)]

ghost use Rattle.std.specs.Prelude.{◌≡◌, true, not, ◌+◌, ◌*◌, ◌^◌, ◌≤◌, ◌<◌, length};
ghost use Rattle.lists.specs.Every.{all};
ghost use Rattle.lists.specs.Rows.{over};
ghost use Rattle.tables.specs.View.{word};
ghost use Rattle.lookup.specs.Lookup as K;
ghost use Rattle.split_pieces.specs.Pieces as Q;

use entities::Side;
use tables::BOUNDARY;

// Words of a piece's row: the boundary, its first piece, its second.
pub const PIECE: usize = 3;

const FIRST: usize = 1;

const SECOND: usize = 2;

// ---- which are cut

// The boundary of the lane in row j on a side is marked, if it is there.
fn mark_side(lanes: &[u64], j: usize, side: Side, boundaries: &[u64], marks: &mut [bool])
    requires { Q.Markable lanes.now boundaries.now marks.old × (j < word 0 lanes.now) }
    ensures { marks.new ≡ Q.side_marked lanes.now j side boundaries.now marks.old }
{
    let id = lookup::boundary_ref(lanes, j, side).boundary;
    let found = lookup::boundary(boundaries, id);
    match found {
        Some(x) => {
            marks[x] = true;
        }
        None => {}
    }
}

// The boundaries of the marked lanes are marked.
pub fn mark_cut(lanes: &[u64], seen: &[bool], boundaries: &[u64], marks: &mut [bool])
    requires { Q.Markable lanes.now boundaries.now marks.old × ((word 0 lanes.now ≤ length seen.now) × (all not marks.old ≡ true)) }
    ensures { marks.new ≡ over marks.old 0 (Q.cut_marks seen.now lanes.now boundaries.now) }
{
    let n = lanes[0] as usize;
    for j in 0..n {
        if seen[j] {
            mark_side(lanes, j, Side::Left, boundaries, marks);
            mark_side(lanes, j, Side::Right, boundaries, marks);
        }
    }
}

// ---- whose they are

// Whether a lane that is not marked uses a boundary.
fn used_beyond(lanes: &[u64], seen: &[bool], id: u64) -> bool
    requires { (K.sorted_table 1024 52 lanes.now ≡ true) × (word 0 lanes.now ≤ length seen.now) }
    ensures { result ≡ Q.used_beyond seen.now lanes.now id }
{
    let n = lanes[0] as usize;
    for j in 0..n {
        if !seen[j] {
            if uses::row_uses(lanes, j, id) {
                return true;
            }
        }
    }
    false
}

// How many ids the pieces of a boundary take.
fn ids_for(lanes: &[u64], seen: &[bool], id: u64) -> usize
    requires { (K.sorted_table 1024 52 lanes.now ≡ true) × (word 0 lanes.now ≤ length seen.now) }
    ensures { result ≡ Q.ids_for seen.now lanes.now id }
{
    if used_beyond(lanes, seen, id) {
        return 2;
    }
    1
}

// How many those of all marked boundaries take.
pub fn count_ids(lanes: &[u64], seen: &[bool], boundaries: &[u64], marks: &[bool]) -> usize
    requires { Q.Countable lanes.now seen.now boundaries.now marks.now }
    ensures { (result ≡ Q.ids_of seen.now lanes.now (Q.cut_keys marks.now boundaries.now)) × (result ≤ 8192) }
{
    let n = boundaries[0] as usize;
    let mut ids = 0;
    for x in 0..n {
        if marks[x] {
            ids += ids_for(lanes, seen, boundaries[1 + x * BOUNDARY]);
        }
    }
    ids
}

// ---- their pieces

// The row of a boundary's pieces, in row m; the next id behind it.
fn put_piece(pieces: &mut [u64], m: usize, id: u64, beyond: bool, next: u64) -> u64
    requires { (m * 3 + 3 ≤ length pieces.old) × (next + Q.ids_if beyond < 2 ^ 64) }
    ensures { (result ≡ next + Q.ids_if beyond) × (pieces.new ≡ over pieces.old (m * 3) (Q.piece_row beyond next id)) }
{
    let at = m * PIECE;
    pieces[at] = id;
    if beyond {
        pieces[at + FIRST] = next;
        pieces[at + SECOND] = next + 1;
        return next + 2;
    }
    pieces[at + FIRST] = id;
    pieces[at + SECOND] = next;
    next + 1
}

// The rows of all marked boundaries' pieces, in the table's order; how many there are.
pub fn list_pieces(
    lanes: &[u64],
    seen: &[bool],
    boundaries: &[u64],
    marks: &[bool],
    next: u64,
    pieces: &mut [u64],
) -> usize
    requires { (Q.Countable lanes.now seen.now boundaries.now marks.now) × ((next + Q.ids_of seen.now lanes.now (Q.cut_keys marks.now boundaries.now) < 2 ^ 64) × (length (Q.cut_keys marks.now boundaries.now) * 3 ≤ length pieces.old)) }
    ensures { (result ≡ length (Q.cut_keys marks.now boundaries.now)) × (pieces.new ≡ over pieces.old 0 (Q.piece_words seen.now lanes.now next (Q.cut_keys marks.now boundaries.now))) }
{
    let n = boundaries[0] as usize;
    let mut id = next;
    let mut m = 0;
    for x in 0..n {
        if marks[x] {
            let b = boundaries[1 + x * BOUNDARY];
            id = put_piece(pieces, m, b, used_beyond(lanes, seen, b), id);
            m += 1;
        }
    }
    m
}
