// Lines gathered through an array of work that holds every map's points; `gathers` has the array for small maps.
#![tactic(auto)]

ghost use Rattle.std.specs.Prelude.{◌≡◌, ◌*◌, ◌≤◌, length};
ghost use Rattle.layout.specs.Layout.{sourced, gathered, Gatherable};
ghost use Rattle.lent.specs.Lent.{lines_tables, SameLines};

// Points that the array holds, and its floats.
const MOST_POINTS: usize = 65536;

const MOST: usize = 196608;

// Answers how many points were copied. A function that goes on with its own answer is put into no other by the compiler, so that the array is on the stack
// of those maps alone that ask for it: that is what the first branch, which no map takes, is for.
pub fn gather_apart(lines: &mut lent::Lines, reach: usize, drawn: &[f64]) -> usize
    requires { (reach ≤ 65536) × ((reach * 3 ≤ length lines.old.coordinates.now) × (Gatherable (sourced reach lines.old.coordinates.now drawn.now) (lines_tables lines.old))) }
    ensures copied { result ≡ reach }
    ensures made { lines_tables lines.new ≡ gathered (sourced reach lines.old.coordinates.now drawn.now) (lines_tables lines.old) }
    ensures same { SameLines lines.old lines.new }
{
    if MOST_POINTS < reach {
        return reach - gather_apart(lines, reach, drawn);
    }
    let mut work = [0.0; MOST];
    gathers::gather_in(lines, reach, drawn, &mut work);
    reach
}
