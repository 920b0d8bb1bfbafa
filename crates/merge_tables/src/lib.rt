// edit/merge.rs: the rows of boundaries and lanes after a merge.
#![tactic(auto)]

ghost use Rattle.std.specs.Prelude.{◌≡◌, true, [], ◌∷◌, ◌+◌, ◌*◌, ◌≤◌, length};
ghost use Rattle.tables.specs.View.{word};
ghost use Rattle.tables.specs.Formed.{counted};
ghost use Rattle.store.specs.Rows.{on_rows, appended_rows};
ghost use Rattle.merge_draw.specs.Redrawing as D;

use merge_draw::{DrawnLine, Taken};
use tables::{
    BOUNDARY, BOUNDARY_ATTRIBUTES, BOUNDARY_ID, BOUNDARY_KIND, BOUNDARY_SIZE, BOUNDARY_START, LANE,
    LANE_CENTERLINE, LANE_CENTERLINE_SIZE, LANE_CENTERLINE_START, LANE_ID, LANE_LEFT, LANE_RIGHT,
    PREDECESSORS, SUCCESSORS,
};

// The row of a boundary lets it point to its line.
fn point_row(row: &mut [u64], id: u64, start: usize, size: usize)
    requires { length row.old ≡ 5 }
    ensures { row.new ≡ D.pointed_row id start size row.old }
{
    if row[BOUNDARY_ID] == id {
        row[BOUNDARY_START] = start as u64;
        row[BOUNDARY_SIZE] = size as u64;
    }
}

// The boundary with an id points to its line.
pub fn point_boundary(t: &mut [u64], id: u64, start: usize, size: usize)
    requires { counted 4096 5 t.old ≡ true }
    ensures { t.new ≡ on_rows 5 (D.pointed_row id start size) t.old }
{
    row_walk::each_row(t, BOUNDARY, |row| point_row(row, id, start, size));
}

// A new boundary behind the last row.
pub fn add_boundary(t: &mut [u64], id: u64, kind: u64, start: usize, size: usize, attributes: u64)
    requires { 1 + (word 0 t.old + 1) * 5 ≤ length t.old }
    ensures { t.new ≡ appended_rows 5 D.as_given (D.boundary_row id kind start size attributes ∷ []) t.old }
{
    let n = t[0] as usize;
    let at = 1 + n * BOUNDARY;
    t[0] = (n + 1) as u64;
    t[at] = id;
    t[at + BOUNDARY_KIND] = kind;
    t[at + BOUNDARY_START] = start as u64;
    t[at + BOUNDARY_SIZE] = size as u64;
    t[at + BOUNDARY_ATTRIBUTES] = attributes;
}

// A lane's row without the second; who came from it comes from the first.
fn relink_row(row: &mut [u64], first: u64, second: u64)
    requires { D.Linked row.old }
    ensures { row.new ≡ D.comes_from first second row.old }
{
    let came = mentions::lists_lane(row, PREDECESSORS, second);
    forgets::forget_lane(row, second);
    if came {
        row_lists::place(row, PREDECESSORS, first);
    }
}

// A new boundary, where there is one, at place k of a lane's row.
fn put_ref(row: &mut [u64], k: usize, id: Option<u64>)
    requires { k + 2 ≤ length row.old }
    ensures { row.new ≡ D.ref_onto id k row.old }
{
    match id {
        None => {}
        Some(id) => {
            row[k] = id;
            row[k + 1] = 0;
        }
    }
}

// The joined centreline in a lane's row, or none.
fn put_center(row: &mut [u64], center: Option<DrawnLine>)
    requires { length row.old ≡ 52 }
    ensures { row.new ≡ D.center_onto center row.old }
{
    match center {
        None => {
            row[LANE_CENTERLINE] = 0;
        }
        Some(line) => {
            row[LANE_CENTERLINE] = 1;
            row[LANE_CENTERLINE_START] = line.start as u64;
            row[LANE_CENTERLINE_SIZE] = line.size as u64;
        }
    }
}

// The first lane's row.
fn take_over(row: &mut [u64], taken: Taken, successors: &[u64])
    requires { (length row.old ≡ 52) × (length successors.now ≤ 16) }
    ensures { row.new ≡ D.takes_over taken successors.now row.old }
{
    put_ref(row, LANE_LEFT, taken.left);
    put_ref(row, LANE_RIGHT, taken.right);
    put_center(row, taken.center);
    row_lists::put_list(row, SUCCESSORS, successors);
}

// A lane's row after the merge.
fn merge_row(row: &mut [u64], first: u64, second: u64, taken: Taken, successors: &[u64])
    requires { (D.Linked row.old) × (length successors.now ≤ 16) }
    ensures { row.new ≡ D.row_merged first second taken successors.now row.old }
{
    let id = row[LANE_ID];
    relink_row(row, first, second);
    if id == first {
        take_over(row, taken, successors);
    }
}

// Every lane's row; the second's is gone already.
pub fn merge_rows(t: &mut [u64], first: u64, second: u64, taken: Taken, successors: &[u64])
    requires { (D.LanesLinked t.old) × (length successors.now ≤ 16) }
    ensures { t.new ≡ on_rows 52 (D.row_merged first second taken successors.now) t.old }
{
    row_walk::each_row(
        t,
        LANE,
        |row| merge_row(row, first, second, taken, successors),
    );
}
