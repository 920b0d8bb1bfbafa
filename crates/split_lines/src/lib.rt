// edit/split.rs: the lines of the pieces, of boundaries and of explicit centrelines: each is cut at its nearest station to the split point. First they are
// measured, so that all is decided before anything lent is written; then they are drawn into an array of work.
#![tactic(auto)]

ghost use Rattle.std.specs.Prelude.{◌≡◌, ◌+◌, ◌*◌, ◌≤◌, length};
ghost use Rattle.lists.specs.Rows.{over};
ghost use Rattle.polyline.specs.Polyline.{points, flat};
ghost use Rattle.order.specs.Order.{column_of};
ghost use Rattle.split_lines.specs.Cut as D;

use geometry::Point2;
use order::has_line;
use tables::POINT;

// Words of a measured line: where its first piece starts, that one's points, the second's points.
pub const MEASURE: usize = 3;

// Points of a line's two pieces.
#[derive(Clone, Copy)]
pub struct Sizes {
    pub first: usize,
    pub second: usize,
}

// ---- a line

// Each piece of a line of at most 256 points has at most 258.
fn line_sizes(line: &[f64], point: Point2) -> Sizes
    requires { length (points line.now) ≤ 256 }
    ensures { (result ≡ D.sizes_of point (points line.now)) × ((result.first ≤ 258) × (result.second ≤ 258)) }
{
    let found = nearest::nearest_point(line, point);
    match found {
        None => Sizes {
            first: 0,
            second: 0,
        },
        Some(near) => Sizes {
            first: stations::slice_points(line, 0.0, near.station),
            second: stations::slice_points(line, near.station, polyline::length(line)),
        },
    }
}

// The pieces of a line at the front of `out`; how many points they have.
fn put_pieces(line: &[f64], point: Point2, out: &mut [f64]) -> usize
    requires { length (D.both_lines point (points line.now)) * 3 ≤ length out.old }
    ensures { (result ≡ length (D.both_lines point (points line.now))) × (out.new ≡ over out.old 0 (flat (D.both_lines point (points line.now)))) }
{
    let found = nearest::nearest_point(line, point);
    match found {
        None => 0,
        Some(near) => {
            let pieces = stations::split_at(line, near.station, out);
            pieces.first + pieces.second
        }
    }
}

// ---- the lines of a table

// The row of a measured line, in row m; the point behind its pieces.
fn put_measure(out: &mut [u64], m: usize, at: usize, sizes: Sizes) -> usize
    requires { (m * 3 + 3 ≤ length out.old) × ((at ≤ 8388608) × ((sizes.first ≤ 258) × (sizes.second ≤ 258))) }
    ensures { (result ≡ at + (sizes.first + sizes.second)) × (out.new ≡ over out.old (m * 3) (D.measure_row at sizes)) }
{
    let row = m * MEASURE;
    out[row] = at as u64;
    out[row + 1] = sizes.first as u64;
    out[row + 2] = sizes.second as u64;
    at + sizes.first + sizes.second
}

// The line of the row from word `row` on has these pieces; a row without a line has empty ones.
fn row_sizes(
    t: &[u64],
    row: usize,
    offset: usize,
    marked: bool,
    coordinates: &[f64],
    point: Point2,
) -> Sizes
    requires { D.RowStored coordinates.now offset marked row t.now }
    ensures { (result ≡ D.sizes_of point (D.row_line coordinates.now offset marked row t.now)) × ((result.first ≤ 258) × (result.second ≤ 258)) }
{
    if has_line(t, row, marked) {
        return line_sizes(lookup::line_of(t, row + offset, coordinates), point);
    }
    Sizes {
        first: 0,
        second: 0,
    }
}

// The pieces of the chosen rows' lines measured, one behind the other from point `from` on, a row each; the point behind them.
pub fn measure(
    t: &[u64],
    stride: usize,
    offset: usize,
    marked: bool,
    chosen: &[bool],
    coordinates: &[f64],
    point: Point2,
    from: usize,
    out: &mut [u64],
) -> usize
    requires { D.Measurable coordinates.now stride offset marked chosen.now t.now from out.old }
    ensures { (result ≡ from + length (D.drawn_pieces point (D.chosen_lines coordinates.now (column_of stride offset marked) chosen.now t.now))) × ((out.new ≡ over out.old 0 (D.measured point from (D.chosen_lines coordinates.now (column_of stride offset marked) chosen.now t.now))) × (result ≤ from + 2113536)) }
{
    let n = t[0] as usize;
    let mut at = from;
    let mut m = 0;
    for i in 0..n {
        if chosen[i] {
            let s = row_sizes(t, 1 + i * stride, offset, marked, coordinates, point);
            at = put_measure(out, m, at, s);
            m += 1;
        }
    }
    at
}

// The pieces of a row's line written to `out` from point `at` on; the point behind them.
fn draw_row(
    t: &[u64],
    row: usize,
    offset: usize,
    marked: bool,
    coordinates: &[f64],
    point: Point2,
    out: &mut [f64],
    at: usize,
) -> usize
    requires { (D.RowStored coordinates.now offset marked row t.now) × ((at + length (D.both_lines point (D.row_line coordinates.now offset marked row t.now))) * 3 ≤ length out.old) }
    ensures { (result ≡ at + length (D.both_lines point (D.row_line coordinates.now offset marked row t.now))) × (out.new ≡ over out.old (at * 3) (flat (D.both_lines point (D.row_line coordinates.now offset marked row t.now)))) }
{
    if has_line(t, row, marked) {
        let line = lookup::line_of(t, row + offset, coordinates);
        let from = at * POINT;
        return at + put_pieces(line, point, &mut out[from..]);
    }
    at
}

// The pieces of the chosen rows' lines, one behind the other from point `from` of `out` on; the point behind them.
pub fn draw(
    t: &[u64],
    stride: usize,
    offset: usize,
    marked: bool,
    chosen: &[bool],
    coordinates: &[f64],
    point: Point2,
    out: &mut [f64],
    from: usize,
) -> usize
    requires { D.Drawable coordinates.now stride offset marked chosen.now t.now point from out.old }
    ensures { (result ≡ from + length (D.drawn_pieces point (D.chosen_lines coordinates.now (column_of stride offset marked) chosen.now t.now))) × (out.new ≡ over out.old (from * 3) (flat (D.drawn_pieces point (D.chosen_lines coordinates.now (column_of stride offset marked) chosen.now t.now)))) }
{
    let n = t[0] as usize;
    let mut at = from;
    for i in 0..n {
        if chosen[i] {
            at = draw_row(
                t,
                1 + i * stride,
                offset,
                marked,
                coordinates,
                point,
                out,
                at,
            );
        }
    }
    at
}
