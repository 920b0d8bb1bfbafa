// edit/split.rs: the rows of the lanes after a split: first halves in place of the cut lanes, second halves, and predecessors that are cut.
#![tactic(auto)]

ghost use Rattle.std.specs.Prelude.{◌≡◌, true, ◌+◌, ◌*◌, ◌≤◌, ◌<◌, length};
ghost use Rattle.lists.specs.Rows.{keys};
ghost use Rattle.lists.specs.Select.{ascending, numbered};
ghost use Rattle.rules.specs.Split as S;
ghost use Rattle.tables.specs.View.{word, slot_at};
ghost use Rattle.store.specs.Rows.{set_slot};
ghost use Rattle.split_rows.specs.Halves as D;

use tables::{
    FIRST_PREDECESSOR, LANE_CENTERLINE_SIZE, LANE_CENTERLINE_START, NONE, OPPOSITE, PREDECESSORS,
    SAME,
};

// Words of a piece's row, and of a measure.
const PIECE: usize = 3;

const LINKS: usize = 16;

// ---- boundaries

fn piece_word(second: bool, reversed: bool) -> usize
    ensures { (result ≡ D.piece_word second reversed) × (result ≤ 2) }
{
    if second == reversed {
        return 1;
    }
    2
}

// The boundary that a half has in place of one; m rows of pieces.
pub fn half_ref(boundary: u64, reversed: bool, pieces: &[u64], m: usize, second: bool) -> u64
    requires { (m * 3 ≤ length pieces.now) × (ascending (keys 3 m pieces.now) ≡ true) }
    ensures { result ≡ D.half_ref pieces.now m second boundary reversed }
{
    let found = find::find_row(pieces, PIECE, m, boundary);
    match found {
        Some(x) => pieces[x * PIECE + piece_word(second, reversed)],
        None => boundary,
    }
}

// ---- neighbours

// A neighbour of a first half: an opposite one that is cut is the second half.
pub fn first_slot(row: &mut [u64], k: usize, cut: &[u64], next: u64)
    requires { (D.Cuts next cut.now) × ((k + 2 ≤ length row.old) × (word k row.old ≤ 2)) }
    ensures { row.new ≡ set_slot k (S.first_slot (numbered next cut.now) (slot_at k row.old)) row.old }
{
    if row[k] != OPPOSITE {
        return;
    }
    let found = find::find_row(cut, 1, cut.len(), row[k + 1]);
    match found {
        Some(r) => {
            row[k + 1] = next + r as u64;
        }
        None => {}
    }
}

// A neighbour of a second half: one that is not cut stays beside the first half alone.
pub fn second_slot(row: &mut [u64], old: &[u64], k: usize, cut: &[u64], next: u64)
    requires { (D.Cuts next cut.now) × ((k + 2 ≤ length row.old) × ((k + 2 ≤ length old.now) × (word k old.now ≤ 2))) }
    ensures { row.new ≡ set_slot k (S.second_slot (numbered next cut.now) (slot_at k old.now)) row.old }
{
    row[k] = NONE;
    let way = old[k];
    if way == NONE {
        return;
    }
    let lane = old[k + 1];
    let found = find::find_row(cut, 1, cut.len(), lane);
    match found {
        Some(r) => {
            row[k] = way;
            row[k + 1] = lane;
            if way == SAME {
                row[k + 1] = next + r as u64;
            }
        }
        None => {}
    }
}

// ---- links

// Who came from a cut lane comes from its second half. New ids are larger, so they come last.
pub fn come_from(row: &mut [u64], cut: &[u64], next: u64)
    requires { (D.Cuts next cut.now) × (D.RowCame row.old) }
    ensures { row.new ≡ D.came_row cut.now next row.old }
{
    let n = row[PREDECESSORS] as usize;
    let mut seconds = [0; LINKS];
    let mut left = 0;
    let mut came = 0;
    for i in 0..n {
        let id = row[FIRST_PREDECESSOR + i];
        let found = find::find_row(cut, 1, cut.len(), id);
        match found {
            Some(r) => {
                seconds[came] = next + r as u64;
                came += 1;
            }
            None => {
                row[FIRST_PREDECESSOR + left] = id;
                left += 1;
            }
        }
    }
    slots::copy(&seconds[..came], row, FIRST_PREDECESSOR + left);
}

// ---- halves

// Where a half's centreline lies, in a row that has one.
pub fn put_center(row: &mut [u64], on: bool, start: u64, size: u64)
    requires { length row.old ≡ 52 }
    ensures { row.new ≡ D.center_onto on start size row.old }
{
    if on {
        row[LANE_CENTERLINE_START] = start;
        row[LANE_CENTERLINE_SIZE] = size;
    }
}
