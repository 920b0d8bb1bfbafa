// edit/split.rs: the tables with lines after a split: lines drawn by `split_lines`, rows written by `split_tables` and `split_lanes`, all brought to their places by `lay_out`.
#![tactic(auto)]

ghost use Rattle.std.specs.Prelude.{◌≡◌};
ghost use Rattle.lent.specs.Lent.{lines_tables, SameLines};
ghost use Rattle.split_relay.specs.Given.{cutting_by};
ghost use Rattle.split_relay.specs.Relaying as W;

use geometry::Point2;
use tables::{BOUNDARY, BOUNDARY_START, LANE, LANE_CENTERLINE_START};

// What a split has decided: the point of the cut, the point behind all stored lines, the marked lanes and their ids, the first second half's id, the marked
// boundaries, their pieces and how many they are, and the measures of the lines of pieces and halves.
#[derive(Clone, Copy)]
pub struct Cuts<'a> {
    pub point: Point2,
    pub reach: usize,
    pub seen: &'a [bool],
    pub cut: &'a [u64],
    pub next: u64,
    pub marks: &'a [bool],
    pub pieces: &'a [u64],
    pub many: usize,
    pub lines: &'a [u64],
    pub centers: &'a [u64],
}

// The tables with lines after the cut at a point; `drawn` is an array of work.
pub fn relay_in(lines: &mut lent::Lines, cuts: Cuts, drawn: &mut [f64])
    requires { (W.Relayable (cutting_by cuts) (lines_tables lines.old)) × (W.Room (cutting_by cuts) (lines_tables lines.old) drawn.old) }
    ensures made { lines_tables lines.new ≡ W.relaid (cutting_by cuts.entry) drawn.old (lines_tables lines.old) }
    ensures same { SameLines lines.old lines.new }
{
    let lanes = &mut *lines.lanes;
    let boundaries = &mut *lines.boundaries;
    let coordinates = &mut *lines.coordinates;
    let seen = cuts.seen;
    let pieces = cuts.pieces;
    let many = cuts.many;
    let behind = split_lines::draw(
        boundaries,
        BOUNDARY,
        BOUNDARY_START,
        false,
        cuts.marks,
        coordinates,
        cuts.point,
        drawn,
        0,
    );
    split_lines::draw(
        lanes,
        LANE,
        LANE_CENTERLINE_START,
        true,
        seen,
        coordinates,
        cuts.point,
        drawn,
        behind,
    );
    split_tables::cut_boundaries(boundaries, cuts.marks, pieces, many, cuts.lines);
    split_lanes::cut_lanes(lanes, seen, pieces, many, cuts.cut, cuts.next, cuts.centers);
    lay_out::lay_out(lines, cuts.reach, drawn);
}
