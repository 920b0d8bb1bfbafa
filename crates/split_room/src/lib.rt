// edit/split.rs: whether the map after a split has room: points, lines of at most 256 points, lists of at most 64 ids. Nothing lent is written.
#![tactic(auto)]

ghost use Rattle.std.specs.Prelude.{◌≡◌, true, ◌+◌, ◌*◌, ◌≤◌, ◌<◌, ◌/◌, length};
ghost use Rattle.lists.specs.Select.{ascending};
ghost use Rattle.tables.specs.View.{word, rows};
ghost use Rattle.tables.specs.Formed.{rule_formed};
ghost use Rattle.row_tests.specs.Good.{all_rows};
ghost use Rattle.lookup.specs.Lookup.{row_at};
ghost use Rattle.split_room.specs.Fitting as D;

use lent::MapView;
use lists::both;
use tables::{
    BOUNDARY, BOUNDARY_SIZE, CROSSWALK, CROSSWALK_LEFT_START, CROSSWALK_RIGHT_START, LANE,
    LANE_CENTERLINE, LANE_CENTERLINE_SIZE, RIGHT_OF_WAY, RULE, RULE_KIND, RULE_LANES,
    RULE_PRIORITY, RULE_YIELDING, STOP_LINE, STOP_LINE_START,
};

// Words of a piece's row, and of a measure.
const PIECE: usize = 3;

const MAX_LINE_POINTS: u64 = 256;

const MAX_IDS: usize = 64;

// ---- points

// Whether each piece of the measured lines has at most 256 points.
pub fn pieces_fit(lines: &[u64]) -> bool
    ensures { result ≡ D.pieces_fit lines.now 0 (length lines.now / 3) }
{
    for line in lines.chunks_exact(PIECE) {
        if !both(line[1] <= MAX_LINE_POINTS, line[2] <= MAX_LINE_POINTS) {
            return false;
        }
    }
    true
}

// Points of the boundaries after the split.
fn boundary_points(boundaries: &[u64], marks: &[bool], pieces: &[u64], lines: &[u64]) -> usize
    requires { D.PointsOf pieces.now lines.now marks.now boundaries.now }
    ensures { (result ≡ D.boundary_points pieces.now lines.now 0 marks.now (rows 5 (λ w. w) boundaries.now)) × (result ≤ 68719476736) }
{
    let n = boundaries[0] as usize;
    let mut points = 0;
    let mut j = 0;
    for i in 0..n {
        let size = boundaries[1 + i * BOUNDARY + BOUNDARY_SIZE] as usize;
        if marks[i] {
            let at = j * PIECE;
            if pieces[at + 1] != pieces[at] {
                points += size;
            }
            points += lines[at + 1] as usize + lines[at + 2] as usize;
            j += 1;
        } else {
            points += size;
        }
    }
    points
}

// Points of a lane's explicit centreline.
fn center_points(lanes: &[u64], i: usize) -> usize
    requires { 1 + i * 52 + 52 ≤ length lanes.now }
    ensures { result ≡ D.center_points (row_at 52 lanes.now i) }
{
    let row = 1 + i * LANE;
    if lanes[row + LANE_CENTERLINE] == 0 {
        return 0;
    }
    lanes[row + LANE_CENTERLINE_SIZE] as usize
}

// Points of the explicit centrelines after the split.
fn lane_points(lanes: &[u64], seen: &[bool], centers: &[u64]) -> usize
    requires { D.CentersOf centers.now seen.now lanes.now }
    ensures { (result ≡ D.lane_points centers.now 0 seen.now (rows 52 (λ w. w) lanes.now)) × (result ≤ 68719476736) }
{
    let n = lanes[0] as usize;
    let mut points = 0;
    let mut r = 0;
    for i in 0..n {
        if seen[i] {
            let at = r * PIECE;
            points += centers[at + 1] as usize + centers[at + 2] as usize;
            r += 1;
        } else {
            points += center_points(lanes, i);
        }
    }
    points
}

// Points of the map after the split.
pub fn points_after(
    map: MapView,
    seen: &[bool],
    centers: &[u64],
    marks: &[bool],
    pieces: &[u64],
    lines: &[u64],
) -> usize
    requires { D.Counting pieces.now lines.now centers.now marks.now seen.now map.lanes.now map.boundaries.now map.stop_lines.now map.crosswalks.now }
    ensures { result ≡ D.points_after pieces.now lines.now centers.now marks.now seen.now map.entry.lanes.now map.entry.boundaries.now map.entry.stop_lines.now map.entry.crosswalks.now }
{
    let old = boundary_points(map.boundaries, marks, pieces, lines);
    let between = lane_points(map.lanes, seen, centers);
    let stops = room::column_points(map.stop_lines, STOP_LINE, STOP_LINE_START);
    let lefts = room::column_points(map.crosswalks, CROSSWALK, CROSSWALK_LEFT_START);
    let rights = room::column_points(map.crosswalks, CROSSWALK, CROSSWALK_RIGHT_START);
    old + between + stops + (lefts + rights)
}

// ---- lists

// Whether the list at place `at` has places for the second halves of the cut lanes that it names.
fn list_fits(t: &[u64], at: usize, cut: &[u64]) -> bool
    requires { (ascending cut.now ≡ true) × ((at + 1 + word at t.now ≤ length t.now) × (word at t.now ≤ 64)) }
    ensures { result ≡ D.list_fits cut.now at t.now }
{
    let n = t[at] as usize;
    let from = at + 1;
    n + grow::count_cut(&t[from..], n, cut) <= MAX_IDS
}

// Whether those of all rows of s words do, at place k of each.
pub fn lists_fit(t: &[u64], s: usize, k: usize, cut: &[u64]) -> bool
    requires { D.ListsOf s k cut.now t.now }
    ensures { result ≡ all_rows s (D.list_fits cut.now k) t.now }
{
    let n = t[0] as usize;
    for i in 0..n {
        if !list_fits(t, 1 + i * s + k, cut) {
            return false;
        }
    }
    true
}

// How many of the cut lanes stand in a list.
fn count_named(ids: &[u64], cut: &[u64]) -> usize
    requires { length cut.now ≤ 1024 }
    ensures { (result ≡ D.named_of cut.now ids.now) × (result ≤ 1024) }
{
    let mut count = 0;
    for r in 0..cut.len() {
        if lists::contains(ids, cut[r]) {
            count += 1;
        }
    }
    count
}

// Whether a rule's own lanes have places for the second halves that it gains where it has no anchor.
fn own_fits(row: &[u64], anchored: bool, cut: &[u64]) -> bool
    requires { (length row.now ≡ 330) × ((rule_formed row.now ≡ true) × (length cut.now ≤ 1024)) }
    ensures { result ≡ D.own_fits anchored cut.now row.now }
{
    if anchored {
        return true;
    }
    let n = row[RULE_LANES] as usize;
    let from = RULE_LANES + 1;
    let to = from + n;
    n + count_named(&row[from..to], cut) <= MAX_IDS
}

fn rule_fits(row: &[u64], anchored: bool, cut: &[u64]) -> bool
    requires { (ascending cut.now ≡ true) × ((length row.now ≡ 330) × ((rule_formed row.now ≡ true) × (length cut.now ≤ 1024))) }
    ensures { result ≡ D.rule_fits anchored cut.now row.now }
{
    if !own_fits(row, anchored, cut) {
        return false;
    }
    if row[RULE_KIND] != RIGHT_OF_WAY {
        return true;
    }
    both(
        list_fits(row, RULE_PRIORITY, cut),
        list_fits(row, RULE_YIELDING, cut),
    )
}

// Whether the lists of all rules have; which of them have an anchor is given.
pub fn rules_fit(rules: &[u64], anchored: &[bool], cut: &[u64]) -> bool
    requires { D.RulesOf anchored.now cut.now rules.now }
    ensures { result ≡ D.rules_fit anchored.now cut.now 0 (rows 330 (λ w. w) rules.now) }
{
    let n = rules[0] as usize;
    for i in 0..n {
        let at = 1 + i * RULE;
        let end = at + RULE;
        if !rule_fits(&rules[at..end], anchored[i], cut) {
            return false;
        }
    }
    true
}
