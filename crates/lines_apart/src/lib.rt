// Whether no two lines of the tables share points.
#![tactic(auto)]

ghost use Rattle.std.specs.Prelude.{◌≡◌, true, false, ◌+◌, ◌*◌, ◌≤◌, ◌<◌, length};
ghost use Rattle.lists.specs.Every.{all};
ghost use Rattle.lists.specs.Select.{each};
ghost use Rattle.tables.specs.View.{rows};
ghost use Rattle.tables.specs.Formed.{counted, span_at, center_span, all_clear};
ghost use Rattle.apart.specs.Marks as G;

use tables::{
    BOUNDARY, BOUNDARY_START, CROSSWALK, CROSSWALK_LEFT_START, CROSSWALK_RIGHT_START, LANE,
    LANE_CENTERLINE, LANE_CENTERLINE_SIZE, LANE_CENTERLINE_START, STOP_LINE, STOP_LINE_START,
};

// The lines of a column: word k of a row is a start, the next a length. The marks are kept only as long as every line finds its points unmarked.
fn take_column(t: &[u64], row: usize, k: usize, marks: &mut [bool]) -> bool
    requires { (k + 2 ≤ row) × ((row ≤ 512) × ((counted 4096 row t.now ≡ true) × (all (G.within (length marks.old)) (rows row (span_at k) t.now) ≡ true))) }
    ensures { (result ≡ G.apart_by marks.old (rows row (span_at k) t.now)) × (result ≡ true → marks.new ≡ G.marked_all marks.old (rows row (span_at k) t.now)) }
{
    let n = t[0] as usize;
    for i in 0..n {
        let at = 1 + i * row + k;
        if !apart::take_line(marks, t[at], t[at + 1]) {
            return false;
        }
    }
    true
}

// A lane's explicit centreline, where its mark says that there is one.
fn take_center(w: &[u64], marks: &mut [bool]) -> bool
    requires { (length w.now ≡ 52) × (all (G.within (length marks.old)) (center_span w.now) ≡ true) }
    ensures { (result ≡ G.apart_by marks.old (center_span w.now)) × (result ≡ true → marks.new ≡ G.marked_all marks.old (center_span w.now)) }
{
    if w[LANE_CENTERLINE] == 0 {
        return true;
    }
    apart::take_line(marks, w[LANE_CENTERLINE_START], w[LANE_CENTERLINE_SIZE])
}

// The explicit centrelines of the lanes.
fn take_centers(t: &[u64], marks: &mut [bool]) -> bool
    requires { (counted 1024 52 t.now ≡ true) × (all (G.within (length marks.old)) (each (λ s. s) (rows 52 center_span t.now)) ≡ true) }
    ensures { (result ≡ G.apart_by marks.old (each (λ s. s) (rows 52 center_span t.now))) × (result ≡ true → marks.new ≡ G.marked_all marks.old (each (λ s. s) (rows 52 center_span t.now))) }
{
    let n = t[0] as usize;
    for i in 0..n {
        let at = 1 + i * LANE;
        let end = at + LANE;
        if !take_center(&t[at..end], marks) {
            return false;
        }
    }
    true
}

// Every line of the map, column by column, in the order in which lines are laid out.
fn take_all(
    lanes: &[u64],
    boundaries: &[u64],
    stop_lines: &[u64],
    crosswalks: &[u64],
    marks: &mut [bool],
) -> bool
    requires { G.takeable (length marks.old) lanes.now boundaries.now stop_lines.now crosswalks.now ≡ true }
    ensures { result ≡ G.apart_by marks.old (G.line_spans lanes.now boundaries.now stop_lines.now crosswalks.now) }
{
    if take_column(boundaries, BOUNDARY, BOUNDARY_START, marks) {
        if take_centers(lanes, marks) {
            return take_rest(stop_lines, crosswalks, marks);
        }
    }
    false
}

fn take_rest(stop_lines: &[u64], crosswalks: &[u64], marks: &mut [bool]) -> bool
    requires { G.rest_takeable (length marks.old) stop_lines.now crosswalks.now ≡ true }
    ensures { result ≡ G.apart_by marks.old (G.rest_spans stop_lines.now crosswalks.now) }
{
    if take_column(stop_lines, STOP_LINE, STOP_LINE_START, marks) {
        if take_column(crosswalks, CROSSWALK, CROSSWALK_LEFT_START, marks) {
            return take_column(crosswalks, CROSSWALK, CROSSWALK_RIGHT_START, marks);
        }
    }
    false
}

// Whether no stored point belongs to two lines, of tables whose lines lie in the store.
pub fn lines_apart(
    lanes: &[u64],
    boundaries: &[u64],
    stop_lines: &[u64],
    crosswalks: &[u64],
) -> bool
    requires { G.takeable 65536 lanes.now boundaries.now stop_lines.now crosswalks.now ≡ true }
    ensures { result ≡ all_clear (G.line_spans lanes.now boundaries.now stop_lines.now crosswalks.now) }
{
    let mut marks = [false; 65536];
    take_all(lanes, boundaries, stop_lines, crosswalks, &mut marks)
}
