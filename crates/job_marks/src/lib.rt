// What some edit of a job lists as modified, marked by the rows of the old tables.
#![tactic(auto)]

ghost use Rattle.std.specs.Prelude.{◌≡◌, true, ◌+◌, ◌*◌, ◌≤◌, ◌<◌, length};
ghost use Rattle.tables.specs.View.{word};
ghost use Rattle.lent.specs.Lent.{view_rows};
ghost use Rattle.lookup.specs.Lookup.{sorted_table};
ghost use Rattle.job_marks.specs.Marks as M;

use lent::MapView;
use report::ENTITY;
use tables::{BOUNDARY, CROSSWALK, JUNCTION, LANE, ROAD, RULE, STOP_LINE};

// Where the marks of a table begin.
pub const LANE_MARKS: usize = 0;

pub const BOUNDARY_MARKS: usize = 1024;

pub const ROAD_MARKS: usize = 5120;

pub const JUNCTION_MARKS: usize = 5376;

pub const STOP_LINE_MARKS: usize = 5632;

pub const CROSSWALK_MARKS: usize = 6144;

pub const RULE_MARKS: usize = 6272;

// Marks in all.
pub const MARKS: usize = 6784;

// Document 01's numbers of the kinds that have tables.
pub const LANE_KIND: u64 = 0;

pub const BOUNDARY_KIND: u64 = 1;

pub const ROAD_KIND: u64 = 2;

pub const JUNCTION_KIND: u64 = 3;

pub const STOP_LINE_KIND: u64 = 4;

pub const CROSSWALK_KIND: u64 = 6;

pub const RULE_KIND: u64 = 7;

// The mark of the row with an id, if there is one.
fn mark_row(table: &[u64], words: usize, first: usize, id: u64, marks: &mut [u64])
    requires { (0 < words) × ((sorted_table 4096 words table.now ≡ true) × (first + word 0 table.now ≤ length marks.old)) }
    ensures { marks.new ≡ M.mark_row words first table.now id marks.old }
{
    let n = table[0] as usize;
    let found = find::find_row(&table[1..], words, n, id);
    match found {
        Some(row) => {
            marks[first + row] = 1;
        }
        None => {}
    }
}

// The mark of one entity, by its kind's number.
fn mark_one(old: MapView, kind: u64, id: u64, marks: &mut [u64])
    requires { (M.sorted_tables (view_rows old) ≡ true) × (length marks.old ≡ 6784) }
    ensures { marks.new ≡ M.mark_one (view_rows old.entry) kind id marks.old }
{
    if kind == LANE_KIND {
        return mark_row(old.lanes, LANE, LANE_MARKS, id, marks);
    }
    if kind == BOUNDARY_KIND {
        return mark_row(old.boundaries, BOUNDARY, BOUNDARY_MARKS, id, marks);
    }
    if kind == ROAD_KIND {
        return mark_row(old.roads, ROAD, ROAD_MARKS, id, marks);
    }
    if kind == JUNCTION_KIND {
        return mark_row(old.junctions, JUNCTION, JUNCTION_MARKS, id, marks);
    }
    if kind == STOP_LINE_KIND {
        return mark_row(old.stop_lines, STOP_LINE, STOP_LINE_MARKS, id, marks);
    }
    if kind == CROSSWALK_KIND {
        return mark_row(old.crosswalks, CROSSWALK, CROSSWALK_MARKS, id, marks);
    }
    if kind == RULE_KIND {
        mark_row(old.rules, RULE, RULE_MARKS, id, marks);
    }
}

// The marks of the first n entities of a list. The count stands beside the list: of a shared part of a field of `Lists` nothing is known once it is taken.
pub fn mark_all(old: MapView, modified: &[u64], n: usize, marks: &mut [u64])
    requires { (M.sorted_tables (view_rows old) ≡ true) × ((length marks.old ≡ 6784) × (n * 2 ≤ length modified.now)) }
    ensures { marks.new ≡ M.mark_all (view_rows old.entry) (M.pairs_in n modified.now) marks.old }
{
    for i in 0..n {
        let kind = modified[i * ENTITY];
        let id = modified[i * ENTITY + 1];
        mark_one(old, kind, id, marks);
    }
}
