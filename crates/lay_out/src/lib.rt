// Every line of a map brought to its place in the order of a layout, whichever way is quickest.
#![tactic(auto)]

ghost use Rattle.std.specs.Prelude.{◌≡◌};
ghost use Rattle.lent.specs.Lent.{lines_tables, SameLines};
ghost use Rattle.layout.specs.Layout as L;
ghost use Rattle.in_place.specs.Settle.{Layable};

use gathers::SMALL_POINTS;

// Every line in its place: a small map by way of a copy, and every map whose lines are not in order; else within the coordinates.
pub fn lay_out(lines: &mut lent::Lines, reach: usize, drawn: &[f64])
    requires { Layable reach drawn.now (lines_tables lines.old) }
    ensures made { lines_tables lines.new ≡ L.gathered (L.sourced reach lines.old.coordinates.now drawn.now) (lines_tables lines.old) }
    ensures same { SameLines lines.old lines.new }
{
    let lanes = &mut *lines.lanes;
    let boundaries = &mut *lines.boundaries;
    let stop_lines = &mut *lines.stop_lines;
    let crosswalks = &mut *lines.crosswalks;
    if reach <= SMALL_POINTS {
        gathers::gather_small(lines, reach, drawn);
        return;
    }
    if order::in_order(lanes, boundaries, stop_lines, crosswalks, reach) {
        settling::settle(lines, reach, drawn);
        return;
    }
    gathers_apart::gather_apart(lines, reach, drawn);
}
