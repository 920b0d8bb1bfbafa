// Whether the lines of a map lie in the order of a layout, as every split and merge leaves them: boundaries, centrelines, stop lines, crosswalks' left edges,
// their right edges. Rows may point to lines that are drawn anew, behind point `reach`; those have no part in it.
#![tactic(auto)]

ghost use Rattle.std.specs.Prelude.{◌≡◌, true, [], ◌+◌, ◌*◌, ◌≤◌, length};
ghost use Rattle.lists.specs.Every.{all};
ghost use Rattle.tables.specs.Formed.{spans, counted};
ghost use Rattle.apart.specs.Marks.{within};
ghost use Rattle.layout.specs.Layout.{column_lines, line_tables, counted_lines};
ghost use Rattle.order.specs.Order as D;

use lists::both;
use tables::{
    BOUNDARY, BOUNDARY_START, CROSSWALK, CROSSWALK_LEFT_START, CROSSWALK_RIGHT_START, LANE,
    LANE_CENTERLINE, LANE_CENTERLINE_START, STOP_LINE, STOP_LINE_START,
};

// Whether the row from word `row` on has a line: where `marked`, a lane's mark says so.
pub fn has_line(t: &[u64], row: usize, marked: bool) -> bool
    requires { row + D.least marked ≤ length t.now }
    ensures { result ≡ D.row_has marked row t.now }
{
    if marked {
        return t[row + LANE_CENTERLINE] != 0;
    }
    true
}

// The point behind a line of lines that lie one behind the other; a point behind `reach` where it is out of order.
fn line_behind(start: u64, size: u64, reach: usize, from: usize) -> usize
    requires { (reach ≤ 65536) × (within 131072 (record { start = start; size = size }) ≡ true) }
    ensures { result ≡ D.behind reach from (record { start = start; size = size }) }
{
    if size == 0 {
        return from;
    }
    let begin = start as usize;
    if reach <= begin {
        return from;
    }
    let end = begin + size as usize;
    if both(from <= begin, end <= reach) {
        return end;
    }
    reach + 1
}

// The same of the lines of a column.
fn column_behind(
    t: &[u64],
    stride: usize,
    offset: usize,
    marked: bool,
    reach: usize,
    from: usize,
) -> usize
    requires { (offset + 2 ≤ stride) × ((D.least marked ≤ stride) × ((stride ≤ 512) × ((reach ≤ 65536) × ((counted 4096 stride t.now ≡ true) × (all (within 131072) (column_lines (D.column_of stride offset marked) t.now) ≡ true))))) }
    ensures { result ≡ D.behind_all reach from (column_lines (D.column_of stride offset marked) t.now) }
{
    let n = t[0] as usize;
    let mut far = from;
    for i in 0..n {
        let row = 1 + i * stride;
        if has_line(t, row, marked) {
            let at = row + offset;
            far = line_behind(t[at], t[at + 1], reach, far);
        }
    }
    far
}

// Whether the lines that are not drawn lie in their order before point `reach`.
pub fn in_order(
    lanes: &[u64],
    boundaries: &[u64],
    stop_lines: &[u64],
    crosswalks: &[u64],
    reach: usize,
) -> bool
    requires { (reach ≤ 65536) × ((counted_lines (line_tables lanes.now boundaries.now stop_lines.now crosswalks.now []) ≡ true) × (all (within 131072) (spans (line_tables lanes.now boundaries.now stop_lines.now crosswalks.now [])) ≡ true)) }
    ensures { result ≡ D.in_order reach (spans (line_tables lanes.now boundaries.now stop_lines.now crosswalks.now [])) }
{
    let centers = column_behind(boundaries, BOUNDARY, BOUNDARY_START, false, reach, 0);
    let stops = column_behind(lanes, LANE, LANE_CENTERLINE_START, true, reach, centers);
    let lefts = column_behind(stop_lines, STOP_LINE, STOP_LINE_START, false, reach, stops);
    let rights = column_behind(
        crosswalks,
        CROSSWALK,
        CROSSWALK_LEFT_START,
        false,
        reach,
        lefts,
    );
    let last = column_behind(
        crosswalks,
        CROSSWALK,
        CROSSWALK_RIGHT_START,
        false,
        reach,
        rights,
    );
    last <= reach
}
