// edit/split.rs: split_lane. The cut and the plans of the group first, then ids and room, then lists and tables.
#![tactic(auto)]

ghost use Rattle.std.specs.Prelude.{◌≡◌, true, ◌+◌, ◌^◌, ◌≤◌, ◌<◌};
ghost use Rattle.step.specs.Step.{given};
ghost use Rattle.lent.specs.Lent.{map_tables, SameSlices, SameLists};
ghost use Rattle.rules.specs.Sound.{next_id};
ghost use Rattle.rules.specs.Ops as O;
ghost use Rattle.tables.specs.Formed.{sound_tables};
ghost use Rattle.report.specs.Report.{counter_behind};
ghost use Rattle.step.specs.Step as S;
ghost use Rattle.split_relay.specs.Given.{cutting_by};
ghost use Rattle.split_made.specs.Made as D;
ghost use Rattle.split_facts.specs.Splitting as K;
ghost use Rattle.edit_split.specs.Parts as P;

use entities::{Refusal, SplitAt, Tolerance};
use geometry::Point2;
use lane_lines::Drawable;
use lists::both;
use report::Answer;
use split_made::Drawn;
use split_plan::Cut;
use split_relay::Cuts;
use tables::{BOUNDARY, LANE};

// Rows of lanes, boundaries and rules at most.
const MAX_LANES: usize = 1024;

const MAX_BOUNDARIES: usize = 4096;

const MAX_RULES: usize = 512;

// Words of the pieces of boundaries, and of the halves of lanes: at most 512 lanes are cut, and two boundaries of each.
const PIECE_WORDS: usize = 3072;

const CENTER_WORDS: usize = 1536;

// Marks of the rules' own lanes, 64 a rule.
const RULE_MARKS: usize = 32768;

// ---- room

// A split that is decided and measured: made, where the finished map has room.
fn split_anchored(
    map: &mut lent::Map,
    drawn: Drawn,
    cuts: Cuts,
    anchored: &[bool],
    past: &[bool],
    lists: &mut lent::Lists,
) -> Answer
    requires { P.MayMake drawn (cutting_by cuts) anchored.now past.now (map_tables map.old) }
    ensures made { D.left (map_tables map.new) lists.new.created.now lists.new.modified.now lists.new.deleted.now lists.new.warnings.now result ≡ P.split_fits drawn (cutting_by cuts.entry) anchored.now past.now (map_tables map.old) lists.old.created.now lists.old.modified.now lists.old.deleted.now lists.old.warnings.now }
    ensures same { SameSlices map.old map.new }
    ensures same_lists { SameLists lists.old lists.new }
{
    if !split_made::fits(map.view(), cuts, anchored) {
        return Err(Refusal::NoRoom);
    }
    split_made::make(map, drawn, cuts, anchored, past, lists)
}

// The same with the anchors of rules, found here.
fn split_measured(
    join: f64,
    map: &mut lent::Map,
    drawn: Drawn,
    cuts: Cuts,
    stations: &[f64],
    lists: &mut lent::Lists,
) -> Answer
    requires { P.MayAnchor join stations.now drawn (cutting_by cuts) (map_tables map.old) }
    ensures made { D.left (map_tables map.new) lists.new.created.now lists.new.modified.now lists.new.deleted.now lists.new.warnings.now result ≡ P.split_anchored join stations.now drawn (cutting_by cuts.entry) (map_tables map.old) lists.old.created.now lists.old.modified.now lists.old.deleted.now lists.old.warnings.now }
    ensures same { SameSlices map.old map.new }
    ensures same_lists { SameLists lists.old lists.new }
{
    let lanes = &mut *map.lanes;
    let boundaries = &mut *map.boundaries;
    let rules = &mut *map.rules;
    let stop_lines = &mut *map.stop_lines;
    let crosswalks = &mut *map.crosswalks;
    let coordinates = &mut *map.coordinates;
    let mut anchored = [false; MAX_RULES];
    let mut past = [false; RULE_MARKS];
    let drawable = Drawable {
        lanes,
        boundaries,
        coordinates,
    };
    split_rules::mark_rules(
        join,
        drawable,
        cuts.point,
        cuts.cut,
        stations,
        rules,
        stop_lines,
        crosswalks,
        &mut anchored,
        &mut past,
    );
    split_anchored(map, drawn, cuts, &anchored, &past, lists)
}

// ---- pieces and lines

// What is decided besides the cut: the lines reach to point `reach`, and those that are drawn to point `end`.
fn decided(counter: u64, own: u64, ids: usize, reach: usize, end: usize) -> Drawn
    requires { reach ≤ end }
    ensures { result ≡ P.drawn_by counter own ids reach end }
{
    Drawn {
        own,
        ids,
        first: room::next_id(counter),
        points: end - reach,
    }
}

// With the lines of pieces and halves measured, as if they lay behind point `reach`.
fn split_pieced(
    counter: u64,
    tolerance: Tolerance,
    map: &mut lent::Map,
    own: u64,
    point: Point2,
    seen: &[bool],
    cut: &[u64],
    stations: &[f64],
    ids: usize,
    marks: &[bool],
    pieces: &[u64],
    many: usize,
    reach: usize,
    lists: &mut lent::Lists,
) -> Answer
    requires { P.Pieced tolerance counter (map_tables map.old) own point seen.now cut.now stations.now ids marks.now pieces.now many reach }
    ensures made { S.ended (given (counter_behind counter result) map.new lists.new) result ≡ K.split_ends tolerance own point seen.now cut.now stations.now (given counter map.old lists.old) }
    ensures same { SameSlices map.old map.new }
    ensures same_lists { SameLists lists.old lists.new }
{
    let lanes = &mut *map.lanes;
    let boundaries = &mut *map.boundaries;
    let coordinates = &mut *map.coordinates;
    let mut lines = [0; PIECE_WORDS];
    let mut centers = [0; CENTER_WORDS];
    let end = split_made::measure(
        lanes,
        boundaries,
        coordinates,
        point,
        reach,
        seen,
        marks,
        &mut lines,
        &mut centers,
    );
    let drawn = decided(counter, own, ids, reach, end);
    let cuts = Cuts {
        point,
        reach,
        seen,
        cut,
        next: drawn.first + ids as u64,
        marks,
        pieces,
        many,
        lines: &lines,
        centers: &centers,
    };
    split_measured(tolerance.join, map, drawn, cuts, stations, lists)
}

// With the pieces of the marked boundaries listed.
fn split_numbered(
    counter: u64,
    tolerance: Tolerance,
    map: &mut lent::Map,
    own: u64,
    point: Point2,
    seen: &[bool],
    cut: &[u64],
    stations: &[f64],
    ids: usize,
    marks: &[bool],
    lists: &mut lent::Lists,
) -> Answer
    requires { K.Numbered tolerance counter (map_tables map.old) own point seen.now cut.now stations.now ids marks.now }
    ensures made { S.ended (given (counter_behind counter result) map.new lists.new) result ≡ K.split_ends tolerance own point seen.now cut.now stations.now (given counter map.old lists.old) }
    ensures same { SameSlices map.old map.new }
    ensures same_lists { SameLists lists.old lists.new }
{
    let lanes = &mut *map.lanes;
    let boundaries = &mut *map.boundaries;
    let stop_lines = &mut *map.stop_lines;
    let crosswalks = &mut *map.crosswalks;
    let mut pieces = [0; PIECE_WORDS];
    let first = room::next_id(counter);
    let many = split_pieces::list_pieces(lanes, seen, boundaries, marks, first, &mut pieces);
    let reach = reach::lines_reach(lanes, boundaries, stop_lines, crosswalks);
    split_pieced(
        counter, tolerance, map, own, point, seen, cut, stations, ids, marks, &pieces, many, reach,
        lists,
    )
}

// ---- ids and rows

// A group that is planned and crossed, where there are ids and rows for what is new.
fn split_planned(
    counter: u64,
    tolerance: Tolerance,
    map: &mut lent::Map,
    own: u64,
    point: Point2,
    seen: &[bool],
    cut: &[u64],
    stations: &[f64],
    lists: &mut lent::Lists,
) -> Answer
    requires { K.Planned tolerance counter (map_tables map.old) own point seen.now cut.now stations.now }
    ensures made { S.ended (given (counter_behind counter result) map.new lists.new) result ≡ K.split_ends tolerance own point seen.now cut.now stations.now (given counter map.old lists.old) }
    ensures same { SameSlices map.old map.new }
    ensures same_lists { SameLists lists.old lists.new }
{
    let lanes = &mut *map.lanes;
    let boundaries = &mut *map.boundaries;
    let mut marks = [false; MAX_BOUNDARIES];
    split_pieces::mark_cut(lanes, seen, boundaries, &mut marks);
    let ids = split_pieces::count_ids(lanes, seen, boundaries, &marks);
    if !room::ids_left(counter, ids + cut.len()) {
        return Err(Refusal::NoIds);
    }
    let n = lanes[0] as usize + cut.len();
    let b = boundaries[0] as usize + ids;
    let lanes_fit = room::rows_fit(MAX_LANES, LANE, n, lanes);
    if !both(
        lanes_fit,
        room::rows_fit(MAX_BOUNDARIES, BOUNDARY, b, boundaries),
    ) {
        return Err(Refusal::NoRoom);
    }
    split_numbered(
        counter, tolerance, map, own, point, seen, cut, stations, ids, &marks, lists,
    )
}

// ---- the group

// A group that is planned, if its boundaries cross the cut.
fn split_stationed(
    counter: u64,
    tolerance: Tolerance,
    map: &mut lent::Map,
    own: u64,
    point: Point2,
    seen: &[bool],
    cut: &[u64],
    stations: &[f64],
    lists: &mut lent::Lists,
) -> Answer
    requires { P.MayCross tolerance counter (map_tables map.old) own point seen.now cut.now stations.now }
    ensures made { S.ended (given (counter_behind counter result) map.new lists.new) result ≡ P.station_ends tolerance own point seen.now cut.now stations.now (given counter map.old lists.old) }
    ensures same { SameSlices map.old map.new }
    ensures same_lists { SameLists lists.old lists.new }
{
    let lanes = &mut *map.lanes;
    let boundaries = &mut *map.boundaries;
    let coordinates = &mut *map.coordinates;
    let drawable = Drawable {
        lanes,
        boundaries,
        coordinates,
    };
    split_cross::cross_all(drawable, point, seen)?;
    split_planned(
        counter, tolerance, map, own, point, seen, cut, stations, lists,
    )
}

// The group of the lane in row i, each lane at its own station.
fn split_group(
    counter: u64,
    tolerance: Tolerance,
    map: &mut lent::Map,
    own: u64,
    i: usize,
    place: Cut,
    neighbors: bool,
    lists: &mut lent::Lists,
) -> Answer
    requires { P.MayGroup tolerance counter (map_tables map.old) own i place neighbors }
    ensures made { S.ended (given (counter_behind counter result) map.new lists.new) result ≡ P.group_ends tolerance own i place neighbors (given counter map.old lists.old) }
    ensures same { SameSlices map.old map.new }
    ensures same_lists { SameLists lists.old lists.new }
{
    let lanes = &mut *map.lanes;
    let boundaries = &mut *map.boundaries;
    let coordinates = &mut *map.coordinates;
    let mut seen = [false; MAX_LANES];
    let mut ids = [0; MAX_LANES];
    let mut stations = [0.0; MAX_LANES];
    split_stations::choose(lanes, i, neighbors, &mut seen);
    let drawable = Drawable {
        lanes,
        boundaries,
        coordinates,
    };
    let k = split_stations::plan_lanes(
        tolerance.piece,
        own,
        drawable,
        place,
        &seen,
        &mut ids,
        &mut stations,
    )?;
    split_stationed(
        counter,
        tolerance,
        map,
        own,
        place.point,
        &seen,
        &ids[..k],
        &stations[..k],
        lists,
    )
}

// Map::split_lane: the lane, or with its neighbours everything reached through neighbour slots, cut in two. The map is sound.
pub fn split_lane(
    counter: u64,
    tolerance: Tolerance,
    map: &mut lent::Map,
    lane: u64,
    at: SplitAt,
    neighbors: bool,
    lists: &mut lent::Lists,
) -> Answer
    requires { sound_tables counter (map_tables map.old) ≡ true }
    ensures made { S.ended (given (counter_behind counter result) map.new lists.new) result ≡ S.step tolerance (O.SplitLane lane at neighbors) (given counter map.old lists.old) }
    ensures same { SameSlices map.old map.new }
    ensures same_lists { SameLists lists.old lists.new }
{
    let lanes = &mut *map.lanes;
    let boundaries = &mut *map.boundaries;
    let coordinates = &mut *map.coordinates;
    let found = lookup::lane(lanes, lane);
    let Some(i) = found else {
        return Err(Refusal::LaneAbsent(lane));
    };
    let drawable = Drawable {
        lanes,
        boundaries,
        coordinates,
    };
    let place = split_plan::place_cut(tolerance.piece, drawable, i, at)?;
    split_group(counter, tolerance, map, lane, i, place, neighbors, lists)
}
