// edit/split.rs: which rows a split touches, as marks by row, found before anything lent is written.
#![tactic(auto)]

ghost use Rattle.std.specs.Prelude.{◌≡◌, true, ◌+◌, ◌*◌, ◌≤◌, ◌<◌, length};
ghost use Rattle.lists.specs.Rows.{over};
ghost use Rattle.lists.specs.Select.{any, ascending, has};
ghost use Rattle.tables.specs.View.{word};
ghost use Rattle.split_marks.specs.Touched as D;

use tables::{LANE, PREDECESSORS};

// Words of a piece's row.
const PIECE: usize = 3;

// Whether a list of ids names a cut lane.
pub fn names_cut(ids: &[u64], cut: &[u64]) -> bool
    requires { ascending cut.now ≡ true }
    ensures { result ≡ any (λ i. has i cut.now) ids.now }
{
    for id in ids {
        if rank::rank(cut, *id).is_some() {
            return true;
        }
    }
    false
}

// Whether the list at place k of the row from word `row` on does.
fn row_names(t: &[u64], row: usize, k: usize, cut: &[u64]) -> bool
    requires { (ascending cut.now ≡ true) × (row + k + 1 + word (row + k) t.now ≤ length t.now) }
    ensures { result ≡ D.names_at cut.now (row + k) t.now }
{
    let at = row + k;
    let n = t[at] as usize;
    let from = at + 1;
    let to = from + n;
    names_cut(&t[from..to], cut)
}

// The rows of s words whose lists at place k name a cut lane.
pub fn mark_rows(t: &[u64], s: usize, k: usize, cut: &[u64], marks: &mut [bool])
    requires { D.Named s k 64 4096 cut.now t.now marks.old }
    ensures { marks.new ≡ over marks.old 0 (D.row_marks cut.now s k t.now) }
{
    let n = t[0] as usize;
    for i in 0..n {
        marks[i] = row_names(t, 1 + i * s, k, cut);
    }
}

fn lane_touched(t: &[u64], row: usize, cut: &[u64]) -> bool
    requires { (ascending cut.now ≡ true) × (row + 18 + 1 + word (row + 18) t.now ≤ length t.now) }
    ensures { result ≡ D.lane_at cut.now row t.now }
{
    let found = rank::rank(cut, t[row]);
    match found {
        Some(_) => true,
        None => row_names(t, row, PREDECESSORS, cut),
    }
}

// The lanes that are cut, and those that came from one.
pub fn mark_lanes(t: &[u64], cut: &[u64], marks: &mut [bool])
    requires { D.Named 52 18 16 1024 cut.now t.now marks.old }
    ensures { marks.new ≡ over marks.old 0 (D.lane_marks cut.now t.now) }
{
    let n = t[0] as usize;
    for i in 0..n {
        marks[i] = lane_touched(t, 1 + i * LANE, cut);
    }
}

// The boundaries that are cut and keep their ids.
pub fn mark_alone(cut: &[bool], pieces: &[u64], marks: &mut [bool])
    requires { (length cut.now ≤ length marks.old) × (D.marked cut.now * 3 ≤ length pieces.now) }
    ensures { marks.new ≡ over marks.old 0 (D.alone_from pieces.now 0 cut.now) }
{
    let mut j = 0;
    for (i, is_cut) in cut.iter().enumerate() {
        if *is_cut {
            let at = j * PIECE;
            marks[i] = pieces[at + 1] == pieces[at];
            j += 1;
        } else {
            marks[i] = false;
        }
    }
}

// How many are marked.
pub fn count_marks(marks: &[bool]) -> usize
    ensures { (result ≡ D.marked marks.now) × (result ≤ length marks.now) }
{
    marks.iter().filter(|mark| **mark).count()
}
