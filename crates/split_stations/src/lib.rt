// edit/split.rs: the lanes that are cut, and where each is.
#![tactic(auto)]

ghost use Rattle.std.specs.Prelude.{◌≡◌, true, not, ◌+◌, ◌*◌, ◌≤◌, ◌<◌, length, Some};
ghost use Rattle.lists.specs.Every.{all};
ghost use Rattle.lists.specs.Rows.{over};
ghost use Rattle.polyline.specs.Polyline.{points};
ghost use Rattle.tables.specs.View.{word};
ghost use Rattle.row_tests.specs.Returned.{searchable};
ghost use Rattle.lookup.specs.Lookup as K;
ghost use Rattle.split_plan.specs.Placing as P;

use entities::Refusal;
use lane_lines::Drawable;
use split_plan::Cut;
use tables::{LANE, POINT};

// Floats in the longest line, of 256 points.
const LINE_FLOATS: usize = 768;

fn station_on(piece: f64, own: u64, lane: u64, line: &[f64], cut: Cut) -> Result<f64, Refusal>
    ensures { result ≡ P.stationing piece own lane cut (Some (points line.now)) }
{
    let found = nearest::nearest_point(line, cut.point);
    let Some(near) = found else {
        return Err(Refusal::NoUsableLine(lane));
    };
    let mut station = near.station;
    if lane == own {
        station = cut.station;
    }
    if split_plan::cuttable(piece, line, station) {
        return Ok(station);
    }
    Err(Refusal::PositionOutside(lane))
}

// The same of the lane in row j; `line` is an array of work.
fn station_in(
    piece: f64,
    own: u64,
    map: Drawable<'_>,
    j: usize,
    cut: Cut,
    line: &mut [f64],
) -> Result<f64, Refusal>
    requires { (j < word 0 map.lanes.now) × (768 ≤ length line.old) }
    ensures { (result ≡ P.row_station piece map.entry.coordinates.now map.entry.boundaries.now own cut (K.row_at 52 map.entry.lanes.now j)) × (line.new ≡ P.line_over line.old (K.center_line map.entry.coordinates.now map.entry.lanes.now map.entry.boundaries.now j)) }
{
    let lane = map.lanes[1 + j * LANE];
    let found = lane_lines::centerline(map, j, line);
    let Some(n) = found else {
        return Err(Refusal::NoUsableLine(lane));
    };
    let end = n * POINT;
    station_on(piece, own, lane, &line[..end], cut)
}

fn lane_station(piece: f64, own: u64, map: Drawable<'_>, j: usize, cut: Cut) -> Result<f64, Refusal>
    requires { j < word 0 map.lanes.now }
    ensures { result ≡ P.row_station piece map.entry.coordinates.now map.entry.boundaries.now own cut (K.row_at 52 map.entry.lanes.now j) }
{
    let mut line = [0.0; LINE_FLOATS];
    station_in(piece, own, map, j, cut, &mut line)
}

// The marks of the lane in row i, or of its lateral group.
pub fn choose(lanes: &[u64], i: usize, neighbors: bool, seen: &mut [bool])
    requires { (searchable lanes.now ≡ true) × ((i < word 0 lanes.now) × ((length seen.old ≡ 1024) × (all not seen.old ≡ true))) }
    ensures { seen.new ≡ over seen.old 0 (P.group_marks lanes.now i neighbors) }
{
    if neighbors {
        group::lateral_group(lanes, i, seen);
        return;
    }
    seen[i] = true;
}

// The stations of the marked lanes, and their ids, up to the first refusal.
pub fn plan_lanes(
    piece: f64,
    own: u64,
    map: Drawable<'_>,
    place: Cut,
    seen: &[bool],
    cut: &mut [u64],
    stations: &mut [f64],
) -> Result<usize, Refusal>
    requires { (word 0 map.lanes.now ≤ length seen.now) × ((word 0 map.lanes.now ≤ length cut.old) × (word 0 map.lanes.now ≤ length stations.old)) }
    ensures { (result ≡ P.stations_told (P.all_of (P.row_station piece map.entry.coordinates.now map.entry.boundaries.now own place) (P.marked_rows seen.now map.entry.lanes.now))) × ((cut.new ≡ over cut.old 0 (P.group_cut piece map.entry.coordinates.now map.entry.lanes.now map.entry.boundaries.now own place seen.now)) × (stations.new ≡ over stations.old 0 (P.group_stations piece map.entry.coordinates.now map.entry.lanes.now map.entry.boundaries.now own place seen.now))) }
{
    let n = map.lanes[0] as usize;
    let mut count = 0;
    for j in 0..n {
        if seen[j] {
            let station = lane_station(piece, own, map, j, place)?;
            cut[count] = map.lanes[1 + j * LANE];
            stations[count] = station;
            count += 1;
        }
    }
    Ok(count)
}
