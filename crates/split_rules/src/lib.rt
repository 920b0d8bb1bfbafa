// edit/split.rs: the anchors of the rules that name a cut lane, and whether each lies past the cut of each lane that the rule names. Found once, before anything
// lent is written.
#![tactic(auto)]

ghost use Rattle.std.specs.Prelude.{◌≡◌, true, ◌+◌, ◌*◌, ◌≤◌, ◌<◌, length};
ghost use Rattle.std.specs.Prelude.{map as each};
ghost use Rattle.lists.specs.Rows.{over};
ghost use Rattle.lists.specs.Select.{ascending};
ghost use Rattle.tables.specs.View.{word, ids_at};
ghost use Rattle.tables.specs.Formed.{rule_formed, counted};
ghost use Rattle.lookup.specs.Lookup as K;
ghost use Rattle.split_rules.specs.Past as D;

use geometry::Point2;
use lane_lines::Drawable;
use tables::{RULE, RULE_LANES};

// Marks of a rule, one for each place of its own lanes.
const MARKS: usize = 64;

// Whether a lane is cut, and the anchor lies past its cut.
fn lane_past(
    join: f64,
    map: Drawable<'_>,
    point: Point2,
    cut: &[u64],
    stations: &[f64],
    anchor: Point2,
    id: u64,
) -> bool
    requires { (ascending cut.now ≡ true) × (length cut.now ≤ length stations.now) }
    ensures { result ≡ D.lane_past join map.entry.coordinates.now map.entry.lanes.now map.entry.boundaries.now point cut.now stations.now anchor id }
{
    let ranked = rank::rank(cut, id);
    let Some(r) = ranked else {
        return false;
    };
    let found = lookup::lane(map.lanes, id);
    let Some(i) = found else {
        return false;
    };
    split_past::past_cut(join, map, i, point, stations[r], anchor)
}

// The marks of a rule's own lanes, at the front of `past`.
fn mark_lanes(
    join: f64,
    map: Drawable<'_>,
    point: Point2,
    cut: &[u64],
    stations: &[f64],
    anchor: Point2,
    ids: &[u64],
    past: &mut [bool],
)
    requires { (ascending cut.now ≡ true) × ((length cut.now ≤ length stations.now) × (length ids.now ≤ length past.old)) }
    ensures { past.new ≡ over past.old 0 (each (D.lane_past join map.entry.coordinates.now map.entry.lanes.now map.entry.boundaries.now point cut.now stations.now anchor) ids.now) }
{
    for p in 0..ids.len() {
        past[p] = lane_past(join, map, point, cut, stations, anchor, ids[p]);
    }
}

// The anchor of the rule in row i, if it names a cut lane.
fn anchor_of(
    rules: &[u64],
    i: usize,
    cut: &[u64],
    stop_lines: &[u64],
    crosswalks: &[u64],
    coordinates: &[f64],
) -> Option<Point2>
    requires { (counted 512 330 rules.now ≡ true) × ((i < word 0 rules.now) × ((rule_formed (K.row_at 330 rules.now i) ≡ true) × ((ascending cut.now ≡ true) × (K.Crossable stop_lines.now crosswalks.now coordinates.now)))) }
    ensures { result ≡ D.anchor_of coordinates.now stop_lines.now crosswalks.now cut.now (K.row_at 330 rules.now i) }
{
    let from = 1 + i * RULE + RULE_LANES + 1;
    let n = rules[from - 1] as usize;
    let to = from + n;
    if split_marks::names_cut(&rules[from..to], cut) {
        return anchors::rule_anchor(rules, i, stop_lines, crosswalks, coordinates);
    }
    None
}

// The mark of the rule in row i, and those of its own lanes.
fn mark_rule(
    join: f64,
    map: Drawable<'_>,
    point: Point2,
    cut: &[u64],
    stations: &[f64],
    rules: &[u64],
    i: usize,
    stop_lines: &[u64],
    crosswalks: &[u64],
    past: &mut [bool],
) -> bool
    requires { D.MarkingRow map.coordinates.now map.lanes.now map.boundaries.now cut.now stations.now rules.now i stop_lines.now crosswalks.now past.old }
    ensures { (result ≡ D.is_there (D.anchor_of map.entry.coordinates.now stop_lines.now crosswalks.now cut.now (K.row_at 330 rules.now i))) × (past.new ≡ over past.old 0 (D.marks_by join map.entry.coordinates.now map.entry.lanes.now map.entry.boundaries.now point cut.now stations.now (D.anchor_of map.entry.coordinates.now stop_lines.now crosswalks.now cut.now (K.row_at 330 rules.now i)) (ids_at 5 (K.row_at 330 rules.now i)))) }
{
    let found = anchor_of(rules, i, cut, stop_lines, crosswalks, map.coordinates);
    let Some(anchor) = found else {
        return false;
    };
    let from = 1 + i * RULE + RULE_LANES + 1;
    let to = from + rules[from - 1] as usize;
    mark_lanes(
        join,
        map,
        point,
        cut,
        stations,
        anchor,
        &rules[from..to],
        past,
    );
    true
}

// Those of all rules.
pub fn mark_rules(
    join: f64,
    map: Drawable<'_>,
    point: Point2,
    cut: &[u64],
    stations: &[f64],
    rules: &[u64],
    stop_lines: &[u64],
    crosswalks: &[u64],
    anchored: &mut [bool],
    past: &mut [bool],
)
    requires { D.Marking map.coordinates.now map.lanes.now map.boundaries.now cut.now stations.now rules.now stop_lines.now crosswalks.now anchored.old past.old }
    ensures { (anchored.new ≡ over anchored.old 0 (D.anchored_by map.entry.coordinates.now stop_lines.now crosswalks.now cut.now rules.now)) × (past.new ≡ D.past_by join map.entry.coordinates.now map.entry.lanes.now map.entry.boundaries.now point cut.now stations.now stop_lines.now crosswalks.now rules.now past.old) }
{
    let n = rules[0] as usize;
    for i in 0..n {
        let first = i * MARKS;
        let last = first + MARKS;
        anchored[i] = mark_rule(
            join,
            map,
            point,
            cut,
            stations,
            rules,
            i,
            stop_lines,
            crosswalks,
            &mut past[first..last],
        );
    }
}
