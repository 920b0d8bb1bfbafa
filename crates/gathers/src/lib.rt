// The layout by way of a copy of the coordinates, in an array of work that is as large as the map asks.
#![tactic(auto)]

ghost use Rattle.std.specs.Prelude.{◌≡◌, ◌*◌, ◌≤◌, length};
ghost use Rattle.layout.specs.Layout.{sourced, gathered, Gatherable};
ghost use Rattle.lent.specs.Lent.{lines_tables, SameLines};

use tables::POINT;

// Points that the three arrays of work hold.
pub const SMALL_POINTS: usize = 2560;

const SMALL: usize = 7680;

// Every line of the map, column by column, from a copy of the coordinates up to point `reach` made in `work`.
pub fn gather_in(lines: &mut lent::Lines, reach: usize, drawn: &[f64], work: &mut [f64])
    requires { (reach * 3 ≤ length work.old) × ((reach * 3 ≤ length lines.old.coordinates.now) × (Gatherable (sourced reach lines.old.coordinates.now drawn.now) (lines_tables lines.old))) }
    ensures made { lines_tables lines.new ≡ gathered (sourced reach lines.old.coordinates.now drawn.now) (lines_tables lines.old) }
    ensures same { SameLines lines.old lines.new }
{
    let coordinates = &mut *lines.coordinates;
    layout::copy(coordinates, 0, reach * POINT, work, 0);
    layout_all::gather_all(lines, work, reach, drawn);
}

pub fn gather_small(lines: &mut lent::Lines, reach: usize, drawn: &[f64])
    requires { (reach ≤ 2560) × ((reach * 3 ≤ length lines.old.coordinates.now) × (Gatherable (sourced reach lines.old.coordinates.now drawn.now) (lines_tables lines.old))) }
    ensures made { lines_tables lines.new ≡ gathered (sourced reach lines.old.coordinates.now drawn.now) (lines_tables lines.old) }
    ensures same { SameLines lines.old lines.new }
{
    let mut work = [0.0; SMALL];
    gather_in(lines, reach, drawn, &mut work);
}
