// edit/split.rs: the arrays in which a split draws its lines, as large as these ask.
#![tactic(auto)]

ghost use Rattle.std.specs.Prelude.{◌≡◌, ◌≤◌, length};
ghost use Rattle.lent.specs.Lent.{lines_tables, SameLines};
ghost use Rattle.split_relay.specs.Given.{cutting_by};
ghost use Rattle.split_relay.specs.Relaying as W;

use lists::both;
use split_relay::Cuts;

// Floats of the two arrays of work, for 2,048 points and for as many as a map holds.
const SMALL: usize = 6144;

const LARGE: usize = 196608;

// Points that the smaller holds, lanes that are cut at most with it, and points that the larger holds.
const SMALL_DRAWN: usize = 2048;

const SMALL_GROUP: usize = 64;

const MOST_POINTS: usize = 65536;

fn relay_small(lines: &mut lent::Lines, cuts: Cuts)
    requires { (W.Relayable (cutting_by cuts) (lines_tables lines.old)) × (W.drawn_points (cutting_by cuts) (lines_tables lines.old) ≤ 2048) }
    ensures made { lines_tables lines.new ≡ W.relaid (cutting_by cuts.entry) (W.blank 6144) (lines_tables lines.old) }
    ensures same { SameLines lines.old lines.new }
{
    let mut drawn = [0.0; SMALL];
    split_relay::relay_in(lines, cuts, &mut drawn);
}

// Answers how far lines reach, and has a branch that no map takes, in which it goes on with its own answer, so that its array is on the stack only where it
// is asked for (`gathers_apart`).
fn relay_large(lines: &mut lent::Lines, cuts: Cuts) -> usize
    requires { W.Relayable (cutting_by cuts) (lines_tables lines.old) }
    ensures reached { result ≡ cuts.entry.reach }
    ensures made { lines_tables lines.new ≡ W.relaid (cutting_by cuts.entry) (W.blank 196608) (lines_tables lines.old) }
    ensures same { SameLines lines.old lines.new }
{
    if MOST_POINTS < cuts.reach {
        return cuts.reach - relay_large(lines, cuts);
    }
    let mut drawn = [0.0; LARGE];
    split_relay::relay_in(lines, cuts, &mut drawn);
    cuts.reach
}

// With an array as large as the lines ask; `points` is how many points they have.
pub fn relay(lines: &mut lent::Lines, cuts: Cuts, points: usize)
    requires { (W.Relayable (cutting_by cuts) (lines_tables lines.old)) × (points ≡ W.drawn_points (cutting_by cuts) (lines_tables lines.old)) }
    ensures made { lines_tables lines.new ≡ W.relaid (cutting_by cuts.entry) (W.blank (W.work_floats (length cuts.entry.cut.now) points)) (lines_tables lines.old) }
    ensures same { SameLines lines.old lines.new }
{
    if both(cuts.cut.len() <= SMALL_GROUP, points <= SMALL_DRAWN) {
        relay_small(lines, cuts);
        return;
    }
    relay_large(lines, cuts);
}
