// edit/split.rs: the centrelines of a lane's halves, before anything is written, and whether the anchor of a rule lies past the cut on both joined.
#![tactic(auto)]

ghost use Rattle.std.specs.Prelude.{◌≡◌, ◌*◌, ◌≤◌, length};
ghost use Rattle.lists.specs.Rows.{over};
ghost use Rattle.polyline.specs.Polyline.{points, flat};
ghost use Rattle.lookup.specs.Lookup as K;
ghost use Rattle.split_half.specs.Half as D;

use entities::Side;
use geometry::Point2;
use lane_lines::Drawable;
use tables::POINT;

// A line before the cut or behind it, at the front of `out`; how many points it has.
pub fn half_line(line: &[f64], point: Point2, second: bool, out: &mut [f64]) -> usize
    requires { (length (points line.now) ≤ 256) × (774 ≤ length out.old) }
    ensures { (result ≡ length (D.half_of second point (points line.now))) × ((out.new ≡ over out.old 0 (flat (D.half_of second point (points line.now)))) × (result ≤ 258)) }
{
    let found = nearest::nearest_point(line, point);
    let Some(near) = found else {
        return 0;
    };
    if second {
        return stations::slice(line, near.station, polyline::length(line), out);
    }
    stations::slice(line, 0.0, near.station, out)
}

// A half's boundary along it, of the lane in row i; `piece` is an array of work.
pub fn half_side(
    map: Drawable<'_>,
    i: usize,
    side: Side,
    point: Point2,
    second: bool,
    piece: &mut [f64],
    out: &mut [f64],
) -> Option<usize>
    requires { (D.Halving map.lanes.now map.boundaries.now map.coordinates.now i) × ((774 ≤ length piece.old) × (774 ≤ length out.old)) }
    ensures { (result ≡ K.count_of (D.row_half_side map.entry.coordinates.now map.entry.lanes.now map.entry.boundaries.now point second i side)) × (out.new ≡ D.line_over out.old (D.row_half_side map.entry.coordinates.now map.entry.lanes.now map.entry.boundaries.now point second i side)) }
{
    let r = lookup::boundary_ref(map.lanes, i, side);
    let x = lookup::boundary(map.boundaries, r.boundary)?;
    let line = lookup::boundary_line(map.boundaries, x, map.coordinates);
    let n = half_line(line, point, second != r.reversed, piece);
    let end = n * POINT;
    Some(lane_lines::put_line(&piece[..end], r.reversed, out))
}
