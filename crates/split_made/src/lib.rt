// edit/split.rs: a split that is decided: its room by the measures of its lines, then its lists and its tables.
#![tactic(auto)]

ghost use Rattle.std.specs.Prelude.{◌≡◌, true, false, ◌+◌, ◌^◌, ◌<◌, length};
ghost use Rattle.lent.specs.Lent.{map_tables, view_tables, SameSlices, SameLists};
ghost use Rattle.lists.specs.Rows.{over, row_with};
ghost use Rattle.lists.specs.Select.{ascending};
ghost use Rattle.order.specs.Order.{column_of};
ghost use Rattle.split_lines.specs.Cut as C;
ghost use Rattle.split_relay.specs.Given.{cutting_by};
ghost use Rattle.split_made.specs.Made as D;

use entities::Refusal;
use geometry::Point2;
use lent::MapView;
use lists::both;
use report::{Answer, Change, Counts};
use split_relay::Cuts;
use tables::{
    BOUNDARY, BOUNDARY_START, JUNCTION, JUNCTION_LANES, LANE, LANE_CENTERLINE_START, ROAD,
    ROAD_LANES,
};

// Words of a piece's row, and of a measure.
const PIECE: usize = 3;

// What is decided besides the cut: the lane, how many ids the pieces take and the first of them, and how many points are drawn.
#[derive(Clone, Copy)]
pub struct Drawn {
    pub own: u64,
    pub ids: usize,
    pub first: u64,
    pub points: usize,
}

// ---- lines

// The pieces of the cut boundaries' lines measured, behind them those of the cut lanes' centrelines; the point behind all.
pub fn measure(
    lanes: &[u64],
    boundaries: &[u64],
    coordinates: &[f64],
    point: Point2,
    reach: usize,
    seen: &[bool],
    marks: &[bool],
    lines: &mut [u64],
    centers: &mut [u64],
) -> usize
    requires { (C.Measurable coordinates.now 5 2 false marks.now boundaries.now reach lines.old) × (C.Measurable coordinates.now 52 7 true seen.now lanes.now (reach + length (C.drawn_pieces point (C.chosen_lines coordinates.now (column_of 5 2 false) marks.now boundaries.now))) centers.old) }
    ensures { (result ≡ reach + length (C.drawn_pieces point (C.chosen_lines coordinates.now (column_of 5 2 false) marks.now boundaries.now)) + length (C.drawn_pieces point (C.chosen_lines coordinates.now (column_of 52 7 true) seen.now lanes.now))) × ((lines.new ≡ over lines.old 0 (C.measured point reach (C.chosen_lines coordinates.now (column_of 5 2 false) marks.now boundaries.now))) × (centers.new ≡ over centers.old 0 (C.measured point (reach + length (C.drawn_pieces point (C.chosen_lines coordinates.now (column_of 5 2 false) marks.now boundaries.now))) (C.chosen_lines coordinates.now (column_of 52 7 true) seen.now lanes.now)))) }
{
    let behind = split_lines::measure(
        boundaries,
        BOUNDARY,
        BOUNDARY_START,
        false,
        marks,
        coordinates,
        point,
        reach,
        lines,
    );
    split_lines::measure(
        lanes,
        LANE,
        LANE_CENTERLINE_START,
        true,
        seen,
        coordinates,
        point,
        behind,
        centers,
    )
}

// ---- room

// Whether the finished map keeps the limits and the lent lengths, its rows aside.
pub fn fits(map: MapView, cuts: Cuts, anchored: &[bool]) -> bool
    requires { D.Fittable (cutting_by cuts) anchored.now (view_tables map) }
    ensures { result ≡ D.fits_after (cutting_by cuts.entry) anchored.now (view_tables map.entry) }
{
    let points = split_room::points_after(
        map,
        cuts.seen,
        cuts.centers,
        cuts.marks,
        cuts.pieces,
        cuts.lines,
    );
    let pieces_fit = both(
        split_room::pieces_fit(&cuts.lines[..cuts.many * PIECE]),
        split_room::pieces_fit(&cuts.centers[..cuts.cut.len() * PIECE]),
    );
    let lines_fit = both(pieces_fit, room::points_fit(points, map.coordinates));
    let roads_fit = split_room::lists_fit(map.roads, ROAD, ROAD_LANES, cuts.cut);
    let junctions_fit = split_room::lists_fit(map.junctions, JUNCTION, JUNCTION_LANES, cuts.cut);
    let rules_fit = split_room::rules_fit(map.rules, anchored, cuts.cut);
    both(lines_fit, both(both(roads_fit, junctions_fit), rules_fit))
}

// ---- lists

// How many entities and warnings the lists get.
fn count(drawn: Drawn, map: MapView, cuts: Cuts, anchored: &[bool], past: &[bool]) -> Counts
    requires { D.Notable drawn.first drawn.ids (cutting_by cuts) anchored.now past.now (view_tables map) }
    ensures { result ≡ D.counts_of drawn.ids (cutting_by cuts.entry) anchored.now past.now (view_tables map.entry) }
{
    let cut = cuts.cut;
    Counts {
        created: drawn.ids + cut.len(),
        modified: split_touched::count_modified(map, cuts, anchored, past),
        deleted: 0,
        warnings: split_lists::count_warnings(
            cuts.pieces,
            cuts.many,
            map.lanes,
            cuts.seen,
            cut,
            cuts.next,
        ),
    }
}

// The lists; nothing is deleted.
fn write_lists(
    drawn: Drawn,
    map: MapView,
    cuts: Cuts,
    anchored: &[bool],
    past: &[bool],
    created: &mut [u64],
    modified: &mut [u64],
    warnings: &mut [u64],
)
    requires { D.Listable drawn.first drawn.ids (cutting_by cuts) anchored.now past.now (view_tables map) (D.noted created.old modified.old warnings.old) }
    ensures { (D.noted created.new modified.new warnings.new) ≡ D.lists_written drawn.first drawn.ids (cutting_by cuts.entry) anchored.now past.now (view_tables map.entry) (D.noted created.old modified.old warnings.old) }
{
    let cut = cuts.cut;
    split_lists::list_created(drawn.first, drawn.ids, cut.len(), created);
    split_touched::list_modified(map, cuts, anchored, past, modified);
    split_lists::warn(
        cuts.pieces,
        cuts.many,
        map.lanes,
        cuts.seen,
        cut,
        cuts.next,
        warnings,
    );
}

// ---- tables

// Roads and junctions grow, rules follow their anchors, and all lines are laid out anew; `points` is how many points are drawn.
fn write(map: &mut lent::Map, points: usize, cuts: Cuts, anchored: &[bool], past: &[bool])
    requires { D.Writable (cutting_by cuts) points anchored.now past.now (map_tables map.old) }
    ensures made { (map_tables map.new) ≡ D.tables_cut (cutting_by cuts.entry) points anchored.now past.now (map_tables map.old) }
    ensures same { SameSlices map.old map.new }
{
    let roads = &mut *map.roads;
    let junctions = &mut *map.junctions;
    let rules = &mut *map.rules;
    grows::grow_rows(roads, ROAD, ROAD_LANES, cuts.cut, cuts.next);
    grows::grow_rows(junctions, JUNCTION, JUNCTION_LANES, cuts.cut, cuts.next);
    follows::follow_rules(rules, cuts.cut, cuts.next, anchored, past);
    let mut lines = lent::Lines {
        lanes: &mut *map.lanes,
        boundaries: &mut *map.boundaries,
        stop_lines: &mut *map.stop_lines,
        crosswalks: &mut *map.crosswalks,
        coordinates: &mut *map.coordinates,
    };
    split_arrays::relay(&mut lines, cuts, points);
}

// ---- the end

// The answer: the counts, and the second half of the lane that was to be split.
fn answer(cut: &[u64], own: u64, next: u64, counts: Counts) -> Answer
    requires { (ascending cut.now ≡ true) × (next + length cut.now < 2 ^ 64) }
    ensures { result ≡ D.answer_of counts next (row_with own cut.now) }
{
    let found = find::find_row(cut, 1, cut.len(), own);
    match found {
        Some(r) => Ok(Change {
            counts,
            second: Some(next + r as u64),
        }),
        None => Ok(Change {
            counts,
            second: None,
        }),
    }
}

// Made, where the lists have room.
pub fn make(
    map: &mut lent::Map,
    drawn: Drawn,
    cuts: Cuts,
    anchored: &[bool],
    past: &[bool],
    lists: &mut lent::Lists,
) -> Answer
    requires { D.Makeable drawn (cutting_by cuts) anchored.now past.now (map_tables map.old) }
    ensures made { D.left (map_tables map.new) lists.new.created.now lists.new.modified.now lists.new.deleted.now lists.new.warnings.now result ≡ D.split_made drawn (cutting_by cuts.entry) anchored.now past.now (map_tables map.old) lists.old.created.now lists.old.modified.now lists.old.deleted.now lists.old.warnings.now }
    ensures same { SameSlices map.old map.new }
    ensures same_lists { SameLists lists.old lists.new }
{
    let created = &mut *lists.created;
    let modified = &mut *lists.modified;
    let deleted = &mut *lists.deleted;
    let warnings = &mut *lists.warnings;
    let view = map.view();
    let counts = count(drawn, view, cuts, anchored, past);
    if !room::lists_fit(counts, created, modified, deleted, warnings) {
        return Err(Refusal::NoRoom);
    }
    write_lists(
        drawn, view, cuts, anchored, past, created, modified, warnings,
    );
    write(map, drawn.points, cuts, anchored, past);
    answer(cuts.cut, drawn.own, cuts.next, counts)
}
