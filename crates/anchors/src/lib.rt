// map.rs: the anchor of a rule, half way along its first stop line or across its crosswalk.
#![tactic(auto)]

ghost use Rattle.std.specs.Prelude.{◌≡◌, true, ◌+◌, ◌*◌, ◌<◌, []};
ghost use Rattle.polyline.specs.Polyline.{points};
ghost use Rattle.rules.specs.Map.{mid, half_way, stop_anchor, cross_anchor, stop_line, crosswalk, rule_anchor};
ghost use Rattle.tables.specs.View.{word, rule_of};
ghost use Rattle.tables.specs.Formed.{counted};
ghost use Rattle.lookup.specs.Lookup as K;

use geometry::Point2;
use lists::both;
use tables::{
    CROSSWALK, CROSSWALK_LEFT_START, CROSSWALK_RIGHT_START, CROSSWALK_RULE, OTHER, RULE,
    RULE_CROSSWALK, RULE_KIND, RULE_STOP_LINES, STOP_LINE, STOP_LINE_START,
};

const RULE_FIRST_STOP: usize = 136;

// The point half way along a line.
fn mid(line: &[f64]) -> Option<Point2>
    ensures { result ≡ mid (points line.now) }
{
    let p = polyline::point_at_fraction(line, 0.5)?;
    Some(p.xy())
}

// Half way between two points, if both are there. `stations::middle` says it of points with a height; a type parameter for both would be longer than the two.
fn half_way(p: Option<Point2>, q: Option<Point2>) -> Option<Point2>
    ensures { result ≡ half_way p q }
{
    let a = p?;
    let b = q?;
    Some(a.lerp(b, 0.5))
}

fn stop_anchor(stops: &[u64], id: u64, coordinates: &[f64]) -> Option<Point2>
    requires { (K.sorted_table 512 4 stops.now ≡ true) × (K.all_stored 4 1 coordinates.now stops.now ≡ true) }
    ensures { result ≡ stop_anchor (stop_line (K.crossed coordinates.now stops.now []) id) }
{
    let j = lookup::stop_line(stops, id)?;
    mid(lookup::line_of(stops, 1 + j * STOP_LINE + STOP_LINE_START, coordinates))
}

fn crosswalk_anchor(crosswalks: &[u64], id: u64, coordinates: &[f64]) -> Option<Point2>
    requires { (K.sorted_table 128 7 crosswalks.now ≡ true) × ((K.all_stored 7 1 coordinates.now crosswalks.now ≡ true) × (K.all_stored 7 3 coordinates.now crosswalks.now ≡ true)) }
    ensures { result ≡ cross_anchor (crosswalk (K.crossed coordinates.now [] crosswalks.now) id) }
{
    let j = lookup::crosswalk(crosswalks, id)?;
    let at = 1 + j * CROSSWALK;
    let left = mid(lookup::line_of(crosswalks, at + CROSSWALK_LEFT_START, coordinates));
    let right = mid(lookup::line_of(crosswalks, at + CROSSWALK_RIGHT_START, coordinates));
    half_way(left, right)
}

// The middle of the first stop line of the rule in row i; without stop lines, the point between the crosswalk's edges.
pub fn rule_anchor(
    rules: &[u64],
    i: usize,
    stops: &[u64],
    crosswalks: &[u64],
    coordinates: &[f64],
) -> Option<Point2>
    requires { (counted 512 330 rules.now ≡ true) × ((i < word 0 rules.now) × (K.Crossable stops.now crosswalks.now coordinates.now)) }
    ensures { result ≡ rule_anchor (K.crossed coordinates.now stops.now crosswalks.now) (rule_of (K.row_at 330 rules.now i)) }
{
    let at = 1 + i * RULE;
    let kind = rules[at + RULE_KIND];
    if both(kind != OTHER, rules[at + RULE_STOP_LINES] != 0) {
        return stop_anchor(stops, rules[at + RULE_FIRST_STOP], coordinates);
    }
    if kind == CROSSWALK_RULE {
        return crosswalk_anchor(crosswalks, rules[at + RULE_CROSSWALK], coordinates);
    }
    None
}
