// edit/split.rs: the tables of boundaries and of lanes after a split: rows that point to a piece, new rows behind the last one, and the halves of the lanes.
#![tactic(auto)]

ghost use Rattle.std.specs.Prelude.{◌≡◌, true, ◌+◌, ◌*◌, ◌≤◌, ◌<◌, leb, length};
ghost use Rattle.lists.specs.Every.{all};
ghost use Rattle.lists.specs.Rows.{keys};
ghost use Rattle.lists.specs.Select.{ascending};
ghost use Rattle.tables.specs.View.{word};
ghost use Rattle.tables.specs.Formed.{counted};
ghost use Rattle.store.specs.Rows.{on_rows, appended_rows};
ghost use Rattle.lookup.specs.Lookup.{row_at};
ghost use Rattle.merge_draw.specs.Redrawing.{as_given};
ghost use Rattle.split_tables.specs.Cut as D;

use tables::{
    BOUNDARY, BOUNDARY_ATTRIBUTES, BOUNDARY_ID, BOUNDARY_KIND, BOUNDARY_SIZE, BOUNDARY_START,
};

// Words of a piece's row, and of a measure.
const PIECE: usize = 3;

// ---- boundaries

// A boundary that keeps its id for its first piece points to that piece's line.
fn point_row(row: &mut [u64], pieces: &[u64], m: usize, lines: &[u64])
    requires { (length row.old ≡ 5) × ((m * 3 ≤ length pieces.now) × ((ascending (keys 3 m pieces.now) ≡ true) × (m * 3 ≤ length lines.now))) }
    ensures { row.new ≡ D.pointed_piece pieces.now m lines.now row.old }
{
    let id = row[BOUNDARY_ID];
    let found = find::find_row(pieces, PIECE, m, id);
    match found {
        Some(j) => {
            let at = j * PIECE;
            if pieces[at + 1] == id {
                row[BOUNDARY_START] = lines[at];
                row[BOUNDARY_SIZE] = lines[at + 1];
            }
        }
        None => {}
    }
}

fn point_rows(t: &mut [u64], pieces: &[u64], m: usize, lines: &[u64])
    requires { (counted 4096 5 t.old ≡ true) × ((m * 3 ≤ length pieces.now) × ((ascending (keys 3 m pieces.now) ≡ true) × (m * 3 ≤ length lines.now))) }
    ensures { t.new ≡ on_rows 5 (D.pointed_piece pieces.now m lines.now) t.old }
{
    row_walk::each_row(t, BOUNDARY, |row| point_row(row, pieces, m, lines));
}

// The new pieces of number j, of the boundary in row x, behind the last row.
fn add_row(t: &mut [u64], x: usize, pieces: &[u64], lines: &[u64], j: usize)
    requires { (x < word 0 t.old) × ((j * 3 + 3 ≤ length pieces.now) × ((j * 3 + 3 ≤ length lines.now) × ((all (λ i. leb i 4194304) lines.now ≡ true) × (1 + (word 0 t.old + length (D.new_row pieces.now lines.now j (row_at 5 t.old x))) * 5 ≤ length t.old)))) }
    ensures { t.new ≡ appended_rows 5 as_given (D.new_row pieces.now lines.now j (row_at 5 t.old x)) t.old }
{
    let at = j * PIECE;
    let row = 1 + x * BOUNDARY;
    let kind = t[row + BOUNDARY_KIND];
    let attributes = t[row + BOUNDARY_ATTRIBUTES];
    let first = pieces[at + 1];
    let start = lines[at] as usize;
    let size = lines[at + 1] as usize;
    if first != pieces[at] {
        merge_tables::add_boundary(t, first, kind, start, size, attributes);
    }
    merge_tables::add_boundary(
        t,
        pieces[at + 2],
        kind,
        start + size,
        lines[at + 2] as usize,
        attributes,
    );
}

// Those of all marked boundaries.
fn add_rows(t: &mut [u64], marks: &[bool], pieces: &[u64], m: usize, lines: &[u64])
    requires { D.BoundariesCut pieces.now m lines.now marks.now t.old }
    ensures { t.new ≡ D.pieces_added pieces.now lines.now marks.now t.old }
{
    let n = t[0] as usize;
    let mut j = 0;
    for x in 0..n {
        if marks[x] {
            add_row(t, x, pieces, lines, j);
            j += 1;
        }
    }
}

// The boundaries after the split; m rows of pieces and of their lines' measures.
pub fn cut_boundaries(t: &mut [u64], marks: &[bool], pieces: &[u64], m: usize, lines: &[u64])
    requires { D.BoundariesCut pieces.now m lines.now marks.now t.old }
    ensures { t.new ≡ D.boundaries_cut pieces.now m lines.now marks.now t.old }
{
    point_rows(t, pieces, m, lines);
    add_rows(t, marks, pieces, m, lines);
}
