// edit/split.rs: where a lane is cut. Refusals come in the order of the Rust; nothing lent is written.
#![tactic(auto)]

ghost use Rattle.std.specs.Prelude.{◌≡◌, ◌+◌, ◌*◌, ◌≤◌, ◌<◌, length, Some};
ghost use Rattle.polyline.specs.Polyline.{points};
ghost use Rattle.rules.specs.Split as D;
ghost use Rattle.tables.specs.View.{word};
ghost use Rattle.lookup.specs.Lookup as K;
ghost use Rattle.split_plan.specs.Placing as P;

use entities::{Refusal, SplitAt};
use geometry::Point2;
use lane_lines::Drawable;
use lists::both;
use tables::{LANE, POINT};

// Floats in the longest line, of 256 points.
const LINE_FLOATS: usize = 768;

// The station of the cut on the split lane's line, and the point there.
#[derive(Clone, Copy)]
pub struct Cut {
    pub station: f64,
    pub point: Point2,
}

// ---- where to cut

// Whether more than a margin of a line lies on either side of a station.
pub fn cuttable(margin: f64, line: &[f64], station: f64) -> bool
    ensures { result ≡ D.cuttable margin (points line.now) station }
{
    both(margin < station, station < polyline::length(line) - margin)
}

// The cut at a station of the lane's line.
fn cut_at(piece: f64, lane: u64, line: &[f64], station: f64) -> Result<Cut, Refusal>
    ensures { result ≡ P.cutting piece lane (points line.now) station }
{
    if !cuttable(piece, line, station) {
        return Err(Refusal::PositionOutside(lane));
    }
    let found = polyline::point_at(line, station);
    let Some(p) = found else {
        return Err(Refusal::NoUsableLine(lane));
    };
    Ok(Cut {
        station,
        point: p.xy(),
    })
}

fn place_on(piece: f64, lane: u64, line: &[f64], at: SplitAt) -> Result<Cut, Refusal>
    ensures { result ≡ P.placing piece lane at (Some (points line.now)) }
{
    match at {
        SplitAt::Fraction(f) => {
            if both(0.0 < f, f < 1.0) {
                return cut_at(piece, lane, line, f * polyline::length(line));
            }
            Err(Refusal::FractionOutside)
        }
        SplitAt::Station(s) => cut_at(piece, lane, line, s),
    }
}

// The same of the lane in row i; `line` is an array of work.
fn place_in(
    piece: f64,
    map: Drawable<'_>,
    i: usize,
    at: SplitAt,
    line: &mut [f64],
) -> Result<Cut, Refusal>
    requires { (i < word 0 map.lanes.now) × (768 ≤ length line.old) }
    ensures { (result ≡ P.placed piece map.entry.coordinates.now map.entry.lanes.now map.entry.boundaries.now i at) × (line.new ≡ P.line_over line.old (K.center_line map.entry.coordinates.now map.entry.lanes.now map.entry.boundaries.now i)) }
{
    let lane = map.lanes[1 + i * LANE];
    let found = lane_lines::centerline(map, i, line);
    let Some(n) = found else {
        return Err(Refusal::NoUsableLine(lane));
    };
    let end = n * POINT;
    place_on(piece, lane, &line[..end], at)
}

pub fn place_cut(piece: f64, map: Drawable<'_>, i: usize, at: SplitAt) -> Result<Cut, Refusal>
    requires { i < word 0 map.lanes.now }
    ensures { result ≡ P.placed piece map.entry.coordinates.now map.entry.lanes.now map.entry.boundaries.now i at }
{
    let mut line = [0.0; LINE_FLOATS];
    place_in(piece, map, i, at, &mut line)
}
