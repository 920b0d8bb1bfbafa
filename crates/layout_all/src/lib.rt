// The lines of whole tables, gathered one behind the other.
#![tactic(auto)]

ghost use Rattle.std.specs.Prelude.{◌≡◌, true, ◌+◌, ◌*◌, ◌/◌, ◌≤◌, ◌<◌, length, take, drop};
ghost use Rattle.lists.specs.Every.{all};
ghost use Rattle.lists.specs.Rows.{over};
ghost use Rattle.tables.specs.Formed.{counted};
ghost use Rattle.apart.specs.Marks.{within};
ghost use Rattle.layout.specs.Layout.{sourced, line_floats, points_in, plain, centerlines, line_of, column_lines, moved, laid_from, gathered, Gatherable};
ghost use Rattle.lent.specs.Lent.{lines_tables, SameLines};

use tables::{
    BOUNDARY, BOUNDARY_START, CROSSWALK, CROSSWALK_LEFT_START, CROSSWALK_RIGHT_START, LANE,
    LANE_CENTERLINE, LANE_CENTERLINE_START, STOP_LINE, STOP_LINE_START,
};

// A column of lines in a table: the words of a row, and the word that says where a row's line starts.
#[derive(Clone, Copy)]
struct Column {
    stride: usize,
    offset: usize,
}

const BOUNDARIES: Column = Column {
    stride: BOUNDARY,
    offset: BOUNDARY_START,
};

const STOP_LINES: Column = Column {
    stride: STOP_LINE,
    offset: STOP_LINE_START,
};

const LEFT_EDGES: Column = Column {
    stride: CROSSWALK,
    offset: CROSSWALK_LEFT_START,
};

const RIGHT_EDGES: Column = Column {
    stride: CROSSWALK,
    offset: CROSSWALK_RIGHT_START,
};

// The lines of a table's column, one after another from point `at` on; the point behind them. Word 0 of the table is its count.
fn gather(
    rows: &mut [u64],
    column: Column,
    work: &[f64],
    reach: usize,
    drawn: &[f64],
    coordinates: &mut [f64],
    at: usize,
) -> usize
    requires { (reach * 3 ≤ length work.now) × ((column.offset + 2 ≤ column.stride) × ((column.stride ≤ 512) × ((counted 4096 column.stride rows.old ≡ true) × ((all (within (length (sourced reach work.now drawn.now) / 3)) (column_lines (plain column.stride column.offset) rows.old) ≡ true) × ((at + points_in (column_lines (plain column.stride column.offset) rows.old)) * 3 ≤ length coordinates.old))))) }
    ensures { (result ≡ at + points_in (column_lines (plain column.stride column.offset) rows.old)) × ((rows.new ≡ laid_from at (plain column.stride column.offset) rows.old) × (coordinates.new ≡ over coordinates.old (at * 3) (line_floats (sourced reach work.now drawn.now) (column_lines (plain column.stride column.offset) rows.old)))) }
{
    let n = rows[0] as usize;
    let mut place = at;
    for i in 0..n {
        place = layout::gather_line(
            rows,
            1 + i * column.stride + column.offset,
            work,
            reach,
            drawn,
            coordinates,
            place,
        );
    }
    place
}

// A lane's explicit centreline, where its mark says that there is one; `row` is the first word of the lane's row.
fn gather_center(
    lanes: &mut [u64],
    row: usize,
    work: &[f64],
    reach: usize,
    drawn: &[f64],
    coordinates: &mut [f64],
    at: usize,
) -> usize
    requires { (reach * 3 ≤ length work.now) × ((row + 52 ≤ length lanes.old) × ((all (within (length (sourced reach work.now drawn.now) / 3)) (line_of centerlines (take 52 (drop row lanes.old))) ≡ true) × ((at + points_in (line_of centerlines (take 52 (drop row lanes.old)))) * 3 ≤ length coordinates.old))) }
    ensures { (result ≡ at + points_in (line_of centerlines (take 52 (drop row lanes.old)))) × ((lanes.new ≡ over lanes.old row (moved centerlines at (take 52 (drop row lanes.old)))) × (coordinates.new ≡ over coordinates.old (at * 3) (line_floats (sourced reach work.now drawn.now) (line_of centerlines (take 52 (drop row lanes.old)))))) }
{
    if lanes[row + LANE_CENTERLINE] == 0 {
        return at;
    }
    layout::gather_line(
        lanes,
        row + LANE_CENTERLINE_START,
        work,
        reach,
        drawn,
        coordinates,
        at,
    )
}

// The explicit centrelines of the lanes, one after another from point `at` on; the point behind them.
fn gather_centers(
    lanes: &mut [u64],
    work: &[f64],
    reach: usize,
    drawn: &[f64],
    coordinates: &mut [f64],
    at: usize,
) -> usize
    requires { (reach * 3 ≤ length work.now) × ((counted 1024 52 lanes.old ≡ true) × ((all (within (length (sourced reach work.now drawn.now) / 3)) (column_lines centerlines lanes.old) ≡ true) × ((at + points_in (column_lines centerlines lanes.old)) * 3 ≤ length coordinates.old))) }
    ensures { (result ≡ at + points_in (column_lines centerlines lanes.old)) × ((lanes.new ≡ laid_from at centerlines lanes.old) × (coordinates.new ≡ over coordinates.old (at * 3) (line_floats (sourced reach work.now drawn.now) (column_lines centerlines lanes.old)))) }
{
    let n = lanes[0] as usize;
    let mut place = at;
    for i in 0..n {
        place = gather_center(lanes, 1 + i * LANE, work, reach, drawn, coordinates, place);
    }
    place
}

// Every line of the map, column by column: the coordinates become the lines in order, then what was there.
pub fn gather_all(lines: &mut lent::Lines, work: &[f64], reach: usize, drawn: &[f64])
    requires { (reach * 3 ≤ length work.now) × (Gatherable (sourced reach work.now drawn.now) (lines_tables lines.old)) }
    ensures made { lines_tables lines.new ≡ gathered (sourced reach work.now drawn.now) (lines_tables lines.old) }
    ensures same { SameLines lines.old lines.new }
{
    let lanes = &mut *lines.lanes;
    let boundaries = &mut *lines.boundaries;
    let stop_lines = &mut *lines.stop_lines;
    let crosswalks = &mut *lines.crosswalks;
    let out = &mut *lines.coordinates;
    let centers = gather(boundaries, BOUNDARIES, work, reach, drawn, out, 0);
    let stops = gather_centers(lanes, work, reach, drawn, out, centers);
    let lefts = gather(stop_lines, STOP_LINES, work, reach, drawn, out, stops);
    let rights = gather(crosswalks, LEFT_EDGES, work, reach, drawn, out, lefts);
    gather(crosswalks, RIGHT_EDGES, work, reach, drawn, out, rights);
}
