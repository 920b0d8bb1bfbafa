// How many points the map has after a merge. The Rust counts none: room is lent here.
#![tactic(auto)]

ghost use Rattle.std.specs.Prelude.{◌≡◌, true, ℕ, ◌+◌, ◌*◌, ◌≤◌, ◌<◌, List, length};
ghost use Rattle.std.specs.Fn.{FnReturnsAt};
ghost use Rattle.rules.specs.Sound.{total};
ghost use Rattle.tables.specs.View.{word, rows};
ghost use Rattle.lookup.specs.Lookup as K;
ghost use Rattle.merge_plan.specs.Sides.{side_points, center_points};
ghost use Rattle.merge_gone.specs.Leaving as R;

use merge_gone::Sides;
use merge_plan::{Joined, side_points};
use tables::{
    BOUNDARY, BOUNDARY_SIZE, CROSSWALK, CROSSWALK_LEFT_START, CROSSWALK_RIGHT_START, LANE,
    LANE_CENTERLINE, LANE_CENTERLINE_SIZE, STOP_LINE, STOP_LINE_START,
};

// Whether a side is joined in place, in a boundary.
pub fn joins(plan: Joined, boundary: u64, id: u64) -> bool
    ensures { result ≡ R.joins plan boundary id }
{
    match plan {
        Joined::Kept => false,
        Joined::InPlace(_) => boundary == id,
        Joined::Fresh(_) => false,
    }
}

fn new_points(plan: Joined) -> usize
    ensures { result ≡ R.new_points plan }
{
    match plan {
        Joined::Kept => 0,
        Joined::InPlace(_) => 0,
        Joined::Fresh(n) => n,
    }
}

// What a table's rows count together, at most 512 each. A row has `row` words.
fn rows_sum<F: Fn(&[u64]) -> usize>(t: &[u64], row: usize, counts: F) -> usize
    requires room { (word 0 t.now ≤ 4096) × (1 + word 0 t.now * row ≤ length t.now) }
    requires takes_rows { (w : _) → length w.now ≡ row → F.pre counts w }
    requires few { (i : ℕ) → i < word 0 t.now → (n : ℕ) → FnReturnsAt F.Fn counts (K.row_at row t.now i) n → n ≤ 512 }
    ensures few { result ≤ word 0 t.now * 512 }
    ensures sum { (g : List ℕ → ℕ) → ((w : List ℕ) (n : ℕ) → length w ≡ row → FnReturnsAt F.Fn counts w n → n ≡ g w) → result ≡ total (rows row g t.now) }
{
    let n = t[0] as usize;
    let mut sum = 0;
    for i in 0..n {
        let at = 1 + i * row;
        let end = at + row;
        sum += counts(&t[at..end]);
    }
    sum
}

// Points of the row of a boundary after the merge.
fn row_points(row: &[u64], gone: &[u64], sides: Sides) -> usize
    requires { length row.now ≡ 5 }
    ensures { result ≡ R.row_points gone.now sides row.now }
{
    let id = row[0];
    if lists::contains(gone, id) {
        return 0;
    }
    let right = sides.right;
    if joins(right, sides.right_id, id) {
        return side_points(right);
    }
    let left = sides.left;
    if joins(left, sides.left_id, id) {
        return side_points(left);
    }
    row[BOUNDARY_SIZE] as usize
}

// Points of the boundaries that stay.
fn boundary_points(boundaries: &[u64], gone: &[u64], sides: Sides) -> usize
    requires { (K.sorted_table 4096 5 boundaries.now ≡ true) × ((K.all_short 5 2 boundaries.now ≡ true) × ((side_points sides.left ≤ 512) × (side_points sides.right ≤ 512))) }
    ensures { (result ≡ R.boundary_points gone.now sides boundaries.now) × (result ≤ 2097152) }
{
    rows_sum(boundaries, BOUNDARY, |row| row_points(row, gone, sides))
}

// Points of a lane's explicit centreline after the merge.
fn center_after(row: &[u64], first: u64, second: u64, center: Option<usize>) -> usize
    requires { length row.now ≡ 52 }
    ensures { result ≡ R.center_after first second center row.now }
{
    let id = row[0];
    if id == second {
        return 0;
    }
    if id == first {
        return center.unwrap_or(0);
    }
    if row[LANE_CENTERLINE] == 0 {
        return 0;
    }
    row[LANE_CENTERLINE_SIZE] as usize
}

// Points of the explicit centrelines.
fn lane_points(lanes: &[u64], first: u64, second: u64, center: Option<usize>) -> usize
    requires { (K.sorted_table 1024 52 lanes.now ≡ true) × ((R.centers_short lanes.now ≡ true) × (center_points center ≤ 512)) }
    ensures { (result ≡ R.lane_points first second center lanes.now) × (result ≤ 524288) }
{
    rows_sum(lanes, LANE, |row| center_after(row, first, second, center))
}

// Points of the finished map.
pub fn points_after(
    lanes: &[u64],
    i: usize,
    j: usize,
    boundaries: &[u64],
    stop_lines: &[u64],
    crosswalks: &[u64],
    sides: Sides,
    center: Option<usize>,
    gone: &[u64],
) -> usize
    requires { R.Counting lanes.now i j boundaries.now stop_lines.now crosswalks.now sides center }
    ensures { result ≡ R.points_after lanes.now i j boundaries.now stop_lines.now crosswalks.now sides center gone.now }
{
    let left = sides.left;
    let right = sides.right;
    let first = lanes[1 + i * LANE];
    let second = lanes[1 + j * LANE];
    let old = boundary_points(boundaries, gone, sides);
    let new = new_points(left) + new_points(right);
    let centers = lane_points(lanes, first, second, center);
    let stops = room::column_points(stop_lines, STOP_LINE, STOP_LINE_START);
    let lefts = room::column_points(crosswalks, CROSSWALK, CROSSWALK_LEFT_START);
    let rights = room::column_points(crosswalks, CROSSWALK, CROSSWALK_RIGHT_START);
    old + new + centers + stops + (lefts + rights)
}
