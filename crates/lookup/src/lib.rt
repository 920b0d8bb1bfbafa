// map.rs: look-ups by id, stored lines and the links of a lane, in lent tables. `lane_lines` has the lines along a lane, `uses` the lanes that use a
// boundary, `anchors` the anchors of rules.
#![tactic(auto)]

ghost use Rattle.std.specs.Prelude.{◌≡◌, true, ◌+◌, ◌*◌, ◌≤◌, ◌<◌, length, get_or, drop};
ghost use Rattle.lists.specs.Rows.{keys};
ghost use Rattle.lists.specs.Select.{ascending};
ghost use Rattle.rules.specs.Names.{Left, Right};
ghost use Rattle.tables.specs.View.{word, part, ids_at, ref_at};
ghost use Rattle.tables.specs.Formed.{stored};
ghost use Rattle.lookup.specs.Lookup as K;

use entities::{BoundaryRef, Side};
use geometry::Point2;
use tables::{
    BOUNDARY, BOUNDARY_START, CROSSWALK, LANE, LANE_LEFT, LANE_RIGHT, POINT, PREDECESSORS,
    STOP_LINE, SUCCESSORS,
};

// ---- look-ups by id

// The row with an id in a table whose ids ascend. The four below are the Rust's names for it; a table's kind as a parameter would put one line in place of one.
fn row_of(table: &[u64], row: usize, id: u64) -> Option<usize>
    requires { (0 < row) × ((1 + word 0 table.now * row ≤ length table.now) × (ascending (keys row (word 0 table.now) (drop 1 table.now)) ≡ true)) }
    ensures { result ≡ K.place_of row table.now id }
{
    let n = table[0] as usize;
    find::find_row(&table[1..], row, n, id)
}

pub fn lane(lanes: &[u64], id: u64) -> Option<usize>
    requires { K.sorted_table 1024 52 lanes.now ≡ true }
    ensures { result ≡ K.place_of 52 lanes.now id }
{
    row_of(lanes, LANE, id)
}

pub fn boundary(boundaries: &[u64], id: u64) -> Option<usize>
    requires { K.sorted_table 4096 5 boundaries.now ≡ true }
    ensures { result ≡ K.place_of 5 boundaries.now id }
{
    row_of(boundaries, BOUNDARY, id)
}

pub fn stop_line(stops: &[u64], id: u64) -> Option<usize>
    requires { K.sorted_table 512 4 stops.now ≡ true }
    ensures { result ≡ K.place_of 4 stops.now id }
{
    row_of(stops, STOP_LINE, id)
}

pub fn crosswalk(crosswalks: &[u64], id: u64) -> Option<usize>
    requires { K.sorted_table 128 7 crosswalks.now ≡ true }
    ensures { result ≡ K.place_of 7 crosswalks.now id }
{
    row_of(crosswalks, CROSSWALK, id)
}

// ---- stored lines

// The part of the coordinates that is the line whose start and length, in points, stand in words `at` and `at` + 1 of a table.
pub fn line_of<'a>(table: &[u64], at: usize, coordinates: &'a [f64]) -> &'a [f64]
    requires { (at + 1 < length table.now) × (stored coordinates.now (record { start = get_or table.now at 0; size = get_or table.now (at + 1) 0 }) ≡ true) }
    ensures { result.now ≡ part coordinates.now (get_or table.now at 0) (get_or table.now (at + 1) 0) }
{
    let size = table[at + 1] as usize;
    if size == 0 {
        return &coordinates[0..0];
    }
    let from = (table[at] as usize) * POINT;
    let to = from + size * POINT;
    &coordinates[from..to]
}

// The line of the boundary in row j.
pub fn boundary_line<'a>(boundaries: &[u64], j: usize, coordinates: &'a [f64]) -> &'a [f64]
    requires { (K.sorted_table 4096 5 boundaries.now ≡ true) × ((j < word 0 boundaries.now) × (K.all_stored 5 2 coordinates.now boundaries.now ≡ true)) }
    ensures { result.now ≡ part coordinates.now (word 2 (K.row_at 5 boundaries.now j)) (word 3 (K.row_at 5 boundaries.now j)) }
{
    line_of(boundaries, 1 + j * BOUNDARY + BOUNDARY_START, coordinates)
}

// ---- a boundary along a lane

fn side_word(side: Side) -> usize
    ensures { result ≡ K.side_word side }
{
    match side {
        Side::Left => LANE_LEFT,
        Side::Right => LANE_RIGHT,
    }
}

// The reference of the lane in row i to its boundary on a side.
pub fn boundary_ref(lanes: &[u64], i: usize, side: Side) -> BoundaryRef
    requires { (K.sorted_table 1024 52 lanes.now ≡ true) × (i < word 0 lanes.now) }
    ensures { result ≡ ref_at (K.side_word side) (K.row_at 52 lanes.now i) }
{
    let at = 1 + i * LANE + side_word(side);
    BoundaryRef {
        boundary: lanes[at],
        reversed: lanes[at + 1] != 0,
    }
}

// ---- links of a lane

// The list whose count stands at word `column` of row i, as its part of the lane table.
fn links<'a>(lanes: &'a [u64], i: usize, column: usize) -> &'a [u64]
    requires { (K.sorted_table 1024 52 lanes.now ≡ true) × ((i < word 0 lanes.now) × (column + 1 + word column (K.row_at 52 lanes.now i) ≤ 52)) }
    ensures { result.now ≡ ids_at column (K.row_at 52 lanes.now i) }
{
    let at = 1 + i * LANE + column;
    let from = at + 1;
    let to = from + lanes[at] as usize;
    &lanes[from..to]
}

pub fn predecessors<'a>(lanes: &'a [u64], i: usize) -> &'a [u64]
    requires { (K.sorted_table 1024 52 lanes.now ≡ true) × ((i < word 0 lanes.now) × (word 18 (K.row_at 52 lanes.now i) ≤ 16)) }
    ensures { result.now ≡ ids_at 18 (K.row_at 52 lanes.now i) }
{
    links(lanes, i, PREDECESSORS)
}

pub fn successors<'a>(lanes: &'a [u64], i: usize) -> &'a [u64]
    requires { (K.sorted_table 1024 52 lanes.now ≡ true) × ((i < word 0 lanes.now) × (word 35 (K.row_at 52 lanes.now i) ≤ 16)) }
    ensures { result.now ≡ ids_at 35 (K.row_at 52 lanes.now i) }
{
    links(lanes, i, SUCCESSORS)
}
