// Lines brought to their places within the coordinates, table by table.
#![tactic(auto)]

ghost use Rattle.std.specs.Prelude.{◌≡◌, true, [], ◌+◌, ◌-◌, ◌*◌, ◌/◌, ◌^◌, ◌≤◌, ◌<◌, length};
ghost use Rattle.tables.specs.Formed.{spans, counted};
ghost use Rattle.lent.specs.Lent.{lines_tables, SameLines};
ghost use Rattle.layout.specs.Layout as L;
ghost use Rattle.order.specs.Order.{column_of, least};
ghost use Rattle.in_place.specs.Settle as D;

use order::has_line;
use tables::{
    BOUNDARY, BOUNDARY_START, CROSSWALK, CROSSWALK_LEFT_START, CROSSWALK_RIGHT_START, LANE,
    LANE_CENTERLINE_START, STOP_LINE, STOP_LINE_START,
};

// A column of lines in a table: the words of a row, the word that says where a row's line starts, and whether a mark says which rows have one.
#[derive(Clone, Copy)]
struct Column {
    stride: usize,
    offset: usize,
    marked: bool,
}

const BOUNDARIES: Column = Column {
    stride: BOUNDARY,
    offset: BOUNDARY_START,
    marked: false,
};

const CENTERLINES: Column = Column {
    stride: LANE,
    offset: LANE_CENTERLINE_START,
    marked: true,
};

const STOP_LINES: Column = Column {
    stride: STOP_LINE,
    offset: STOP_LINE_START,
    marked: false,
};

const LEFT_EDGES: Column = Column {
    stride: CROSSWALK,
    offset: CROSSWALK_LEFT_START,
    marked: false,
};

const RIGHT_EDGES: Column = Column {
    stride: CROSSWALK,
    offset: CROSSWALK_RIGHT_START,
    marked: false,
};

// The same of a column's lines; the point behind the last one's place.
fn column_down(t: &[u64], column: Column, reach: usize, coordinates: &mut [f64], at: usize) -> usize
    requires { (D.Walked column.stride column.offset column.marked reach 65536 t.now) × (D.Movable reach [] coordinates.old (at + L.points_in (L.column_lines (column_of column.stride column.offset column.marked) t.now))) }
    ensures { (result ≡ at + L.points_in (L.column_lines (column_of column.stride column.offset column.marked) t.now)) × (coordinates.new ≡ D.down_all reach at (L.column_lines (column_of column.stride column.offset column.marked) t.now) coordinates.old) }
{
    let n = t[0] as usize;
    let mut place = at;
    for i in 0..n {
        let row = 1 + i * column.stride;
        if has_line(t, row, column.marked) {
            let k = row + column.offset;
            let size = t[k + 1] as usize;
            in_place::line_down(t[k], size, reach, coordinates, place);
            place += size;
        }
    }
    place
}

// All lines that lie behind their places; how many points all lines have.
fn all_down(lines: &mut lent::Lines, reach: usize) -> usize
    requires { (D.Placed reach 65536 (lines_tables lines.old)) × (D.Movable reach [] lines.old.coordinates.now (L.points_in (spans (lines_tables lines.old)))) }
    ensures ends { result ≡ L.points_in (spans (lines_tables lines.old)) }
    ensures made { lines_tables lines.new ≡ L.pointing (D.down_all reach 0 (spans (lines_tables lines.old)) lines.old.coordinates.now) (lines_tables lines.old) }
    ensures same { SameLines lines.old lines.new }
{
    let lanes = &mut *lines.lanes;
    let boundaries = &mut *lines.boundaries;
    let stop_lines = &mut *lines.stop_lines;
    let crosswalks = &mut *lines.crosswalks;
    let coordinates = &mut *lines.coordinates;
    let centers = column_down(boundaries, BOUNDARIES, reach, coordinates, 0);
    let stops = column_down(lanes, CENTERLINES, reach, coordinates, centers);
    let lefts = column_down(stop_lines, STOP_LINES, reach, coordinates, stops);
    let rights = column_down(crosswalks, LEFT_EDGES, reach, coordinates, lefts);
    column_down(crosswalks, RIGHT_EDGES, reach, coordinates, rights)
}

// The same of a column's lines, whose places end at point `end`; the place of the first.
fn column_up(
    t: &[u64],
    column: Column,
    reach: usize,
    drawn: &[f64],
    coordinates: &mut [f64],
    end: usize,
) -> usize
    requires { (D.Walked column.stride column.offset column.marked reach (length drawn.now / 3) t.now) × ((L.points_in (L.column_lines (column_of column.stride column.offset column.marked) t.now) ≤ end) × (D.Movable reach drawn.now coordinates.old end)) }
    ensures { (result ≡ end - L.points_in (L.column_lines (column_of column.stride column.offset column.marked) t.now)) × (coordinates.new ≡ D.up_all drawn.now reach (end - L.points_in (L.column_lines (column_of column.stride column.offset column.marked) t.now)) (L.column_lines (column_of column.stride column.offset column.marked) t.now) coordinates.old) }
{
    let mut place = end;
    let n = t[0] as usize;
    for i in (0..n).rev() {
        let row = 1 + i * column.stride;
        if has_line(t, row, column.marked) {
            let k = row + column.offset;
            let size = t[k + 1] as usize;
            place -= size;
            in_place::line_up(t[k], size, reach, drawn, coordinates, place);
        }
    }
    place
}

// All lines that are drawn or lie before their places; `end` is how many points all lines have.
fn all_up(lines: &mut lent::Lines, reach: usize, drawn: &[f64], end: usize)
    requires { (D.Placed reach (length drawn.now / 3) (lines_tables lines.old)) × ((end ≡ L.points_in (spans (lines_tables lines.old))) × (D.Movable reach drawn.now lines.old.coordinates.now end)) }
    ensures made { lines_tables lines.new ≡ L.pointing (D.up_all drawn.now reach 0 (spans (lines_tables lines.old)) lines.old.coordinates.now) (lines_tables lines.old) }
    ensures same { SameLines lines.old lines.new }
{
    let lanes = &mut *lines.lanes;
    let boundaries = &mut *lines.boundaries;
    let stop_lines = &mut *lines.stop_lines;
    let crosswalks = &mut *lines.crosswalks;
    let coordinates = &mut *lines.coordinates;
    let rights = column_up(crosswalks, RIGHT_EDGES, reach, drawn, coordinates, end);
    let lefts = column_up(crosswalks, LEFT_EDGES, reach, drawn, coordinates, rights);
    let stops = column_up(stop_lines, STOP_LINES, reach, drawn, coordinates, lefts);
    let centers = column_up(lanes, CENTERLINES, reach, drawn, coordinates, stops);
    column_up(boundaries, BOUNDARIES, reach, drawn, coordinates, centers);
}

// The rows of a column say where their lines start: one after another from point `at` on; the point behind them.
fn column_starts(t: &mut [u64], column: Column, at: usize) -> usize
    requires { (column.offset + 2 ≤ column.stride) × ((least column.marked ≤ column.stride) × ((column.stride ≤ 512) × ((counted 4096 column.stride t.old ≡ true) × (at + L.points_in (L.column_lines (column_of column.stride column.offset column.marked) t.old) < 2 ^ 64)))) }
    ensures { (result ≡ at + L.points_in (L.column_lines (column_of column.stride column.offset column.marked) t.old)) × (t.new ≡ L.laid_from at (column_of column.stride column.offset column.marked) t.old) }
{
    let n = t[0] as usize;
    let mut place = at;
    for i in 0..n {
        let row = 1 + i * column.stride;
        if has_line(t, row, column.marked) {
            let k = row + column.offset;
            let size = t[k + 1] as usize;
            t[k] = place as u64;
            place += size;
        }
    }
    place
}

// All rows do.
fn all_starts(lines: &mut lent::Lines)
    requires { (L.counted_lines (lines_tables lines.old) ≡ true) × (L.points_in (spans (lines_tables lines.old)) < 2 ^ 64) }
    ensures made { lines_tables lines.new ≡ D.started (lines_tables lines.old) }
    ensures same { SameLines lines.old lines.new }
{
    let lanes = &mut *lines.lanes;
    let boundaries = &mut *lines.boundaries;
    let stop_lines = &mut *lines.stop_lines;
    let crosswalks = &mut *lines.crosswalks;
    let centers = column_starts(boundaries, BOUNDARIES, 0);
    let stops = column_starts(lanes, CENTERLINES, centers);
    let lefts = column_starts(stop_lines, STOP_LINES, stops);
    let rights = column_starts(crosswalks, LEFT_EDGES, lefts);
    column_starts(crosswalks, RIGHT_EDGES, rights);
}

// Every line brought to its place. Rows point into the coordinates up to point `reach`, and behind it to the lines that are drawn.
pub fn settle(lines: &mut lent::Lines, reach: usize, drawn: &[f64])
    requires { D.Settleable reach drawn.now (lines_tables lines.old) }
    ensures made { lines_tables lines.new ≡ L.gathered (L.sourced reach lines.old.coordinates.now drawn.now) (lines_tables lines.old) }
    ensures same { SameLines lines.old lines.new }
{
    let end = all_down(lines, reach);
    all_up(lines, reach, drawn, end);
    all_starts(lines);
}
