// Up to where the lines of a map reach, in points.
#![tactic(auto)]

ghost use Rattle.std.specs.Prelude.{◌≡◌, true, [], ◌+◌, ◌*◌, ◌≤◌, max, length, take, drop};
ghost use Rattle.lists.specs.Every.{all};
ghost use Rattle.tables.specs.Formed.{spans, counted};
ghost use Rattle.apart.specs.Marks.{within};
ghost use Rattle.layout.specs.Layout.{plain, centerlines, line_of, column_lines, line_tables, counted_lines, end_of, last_point};

use tables::{
    BOUNDARY, BOUNDARY_START, CROSSWALK, CROSSWALK_LEFT_START, CROSSWALK_RIGHT_START, LANE,
    LANE_CENTERLINE, LANE_CENTERLINE_START, STOP_LINE, STOP_LINE_START,
};

// The larger of a place and the point behind a line. An empty line has none, wherever it starts.
fn line_reach(start: u64, size: u64, most: usize) -> usize
    requires { within 65536 (record { start = start; size = size }) ≡ true }
    ensures { result ≡ max most (end_of (record { start = start; size = size })) }
{
    if size == 0 {
        return most;
    }
    let end = (start + size) as usize;
    if most < end {
        return end;
    }
    most
}

// The same of the lines of a column.
fn column_reach(t: &[u64], stride: usize, offset: usize, most: usize) -> usize
    requires { (offset + 2 ≤ stride) × ((stride ≤ 512) × ((counted 4096 stride t.now ≡ true) × (all (within 65536) (column_lines (plain stride offset) t.now) ≡ true))) }
    ensures { result ≡ max most (last_point (column_lines (plain stride offset) t.now)) }
{
    let n = t[0] as usize;
    let mut far = most;
    for i in 0..n {
        let at = 1 + i * stride + offset;
        far = line_reach(t[at], t[at + 1], far);
    }
    far
}

// The same of a lane's explicit centreline, where its mark says that there is one.
fn center_reach(lanes: &[u64], row: usize, most: usize) -> usize
    requires { (row + 52 ≤ length lanes.now) × (all (within 65536) (line_of centerlines (take 52 (drop row lanes.now))) ≡ true) }
    ensures { result ≡ max most (last_point (line_of centerlines (take 52 (drop row lanes.now)))) }
{
    if lanes[row + LANE_CENTERLINE] == 0 {
        return most;
    }
    let at = row + LANE_CENTERLINE_START;
    line_reach(lanes[at], lanes[at + 1], most)
}

// The same of the explicit centrelines of the lanes.
fn centers_reach(lanes: &[u64], most: usize) -> usize
    requires { (counted 1024 52 lanes.now ≡ true) × (all (within 65536) (column_lines centerlines lanes.now) ≡ true) }
    ensures { result ≡ max most (last_point (column_lines centerlines lanes.now)) }
{
    let n = lanes[0] as usize;
    let mut far = most;
    for i in 0..n {
        far = center_reach(lanes, 1 + i * LANE, far);
    }
    far
}

// The point behind the last that a line has.
pub fn lines_reach(
    lanes: &[u64],
    boundaries: &[u64],
    stop_lines: &[u64],
    crosswalks: &[u64],
) -> usize
    requires { (counted_lines (line_tables lanes.now boundaries.now stop_lines.now crosswalks.now []) ≡ true) × (all (within 65536) (spans (line_tables lanes.now boundaries.now stop_lines.now crosswalks.now [])) ≡ true) }
    ensures { result ≡ last_point (spans (line_tables lanes.now boundaries.now stop_lines.now crosswalks.now [])) }
{
    let centers = column_reach(boundaries, BOUNDARY, BOUNDARY_START, 0);
    let stops = centers_reach(lanes, centers);
    let lefts = column_reach(stop_lines, STOP_LINE, STOP_LINE_START, stops);
    let rights = column_reach(crosswalks, CROSSWALK, CROSSWALK_LEFT_START, lefts);
    column_reach(crosswalks, CROSSWALK, CROSSWALK_RIGHT_START, rights)
}
