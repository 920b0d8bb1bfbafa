// The test of soundness, row by row: a lane, a boundary, a road, a junction, a rule, a stop line, a crosswalk. The columns are those of tables' view.
#![tactic(auto)]

ghost use Rattle.std.specs.Prelude.{◌≡◌, true, ◌||◌, not, ◌+◌, ◌≤◌, leb, eqb, length};
ghost use Rattle.tables.specs.View.{ids_at, word};
ghost use Rattle.tables.specs.Formed.{lane_formed, rule_formed};
ghost use Rattle.rules.specs.Sound.{has_content, stop_lines_fit};
ghost use Rattle.row_tests.specs.Good as G;

use lists::both;
use tables::{
    BOUNDARY_ATTRIBUTES, BOUNDARY_ID, BOUNDARY_KIND, BOUNDARY_SIZE, BOUNDARY_START,
    CROSSWALK_ATTRIBUTES, CROSSWALK_ID, CROSSWALK_LEFT_SIZE, CROSSWALK_LEFT_START,
    CROSSWALK_OUTLINE, CROSSWALK_RIGHT_SIZE, CROSSWALK_RIGHT_START, CROSSWALK_RULE,
    FIRST_PREDECESSOR, FIRST_SUCCESSOR, JUNCTION_ATTRIBUTES, JUNCTION_FIRST_LANE, JUNCTION_ID,
    JUNCTION_LANES, JUNCTION_NAME, JUNCTION_OUTLINE, LANE_ATTRIBUTES, LANE_CENTERLINE,
    LANE_CENTERLINE_SIZE, LANE_CENTERLINE_START, LANE_ID, LANE_KIND, LANE_LEFT, LANE_LEFT_REVERSED,
    LANE_ONE_WAY, LANE_RIGHT, LANE_RIGHT_REVERSED, LANE_SPEED, LANE_TURN, LEFT_LANE, LEFT_SLOT,
    OTHER, PREDECESSORS, RIGHT_LANE, RIGHT_OF_WAY, RIGHT_SLOT, ROAD_ATTRIBUTES, ROAD_FIRST_LANE,
    ROAD_ID, ROAD_LANES, ROAD_NAME, RULE_ATTRIBUTES, RULE_CONTENT, RULE_CONTROLLED, RULE_CROSSWALK,
    RULE_ID, RULE_KIND, RULE_LANES, RULE_PRIORITY, RULE_STOP_LINES, RULE_YIELDING,
    STOP_LINE_ATTRIBUTES, STOP_LINE_ID, STOP_LINE_RULE, STOP_LINE_SIZE, STOP_LINE_START,
    SUCCESSORS, TRAFFIC_SIGN,
};

// Handles are below this.
const HANDLES: u64 = 65536;

// The largest kinds, marks and counts.
const LANE_KINDS: u64 = 7;

const TURNS: u64 = 3;

const SLOT_MARKS: u64 = 2;

const LINKS: u64 = 16;

const BOUNDARY_KINDS: u64 = 13;

const IDS: u64 = 64;

pub fn handle(h: u64) -> bool
    ensures { result ≡ G.handle_good h }
{
    h < HANDLES
}

pub fn lane_formed(w: &[u64]) -> bool
    requires { length w.now ≡ 52 }
    ensures { result ≡ lane_formed w.now }
{
    let marks = both(
        both(
            both(
                both(w[LANE_LEFT_REVERSED] <= 1, w[LANE_RIGHT_REVERSED] <= 1),
                w[LANE_CENTERLINE] <= 1,
            ),
            w[LANE_SPEED] <= 1,
        ),
        w[LANE_ONE_WAY] <= 1,
    );
    both(
        both(
            both(
                both(marks, w[LEFT_SLOT] <= SLOT_MARKS),
                w[RIGHT_SLOT] <= SLOT_MARKS,
            ),
            w[PREDECESSORS] <= LINKS,
        ),
        w[SUCCESSORS] <= LINKS,
    )
}

fn slot_good(mark: u64, lane: u64, most: u64) -> bool
    ensures { result ≡ (eqb mark 0 || leb lane most) }
{
    if mark == 0 {
        return true;
    }
    lane <= most
}

pub fn lane_numbers(w: &[u64], most: u64) -> bool
    requires { length w.now ≡ 52 }
    ensures { result ≡ G.lane_numbers most w.now }
{
    let kinds = both(
        both(w[LANE_KIND] <= LANE_KINDS, w[LANE_TURN] <= TURNS),
        handle(w[LANE_ATTRIBUTES]),
    );
    let ids = both(
        both(both(kinds, w[LANE_ID] <= most), w[LANE_LEFT] <= most),
        w[LANE_RIGHT] <= most,
    );
    both(
        both(ids, slot_good(w[LEFT_SLOT], w[LEFT_LANE], most)),
        slot_good(w[RIGHT_SLOT], w[RIGHT_LANE], most),
    )
}

fn links_good(ids: &[u64], most: u64) -> bool
    ensures { result ≡ G.links_good most ids.now }
{
    both(lists::ascends(ids), lists::all_at_most(ids, most))
}

pub fn lane_good(w: &[u64], most: u64, coordinates: &[f64]) -> bool
    requires { length w.now ≡ 52 }
    ensures { result ≡ G.lane_good most coordinates.now w.now }
{
    if both(lane_formed(w), lane_numbers(w, most)) {
        let before = FIRST_PREDECESSOR + w[PREDECESSORS] as usize;
        let after = FIRST_SUCCESSOR + w[SUCCESSORS] as usize;
        if both(
            links_good(&w[FIRST_PREDECESSOR..before], most),
            links_good(&w[FIRST_SUCCESSOR..after], most),
        ) {
            if w[LANE_CENTERLINE] == 0 {
                return true;
            }
            return row_tests::sound::line_good(
                coordinates,
                w[LANE_CENTERLINE_START],
                w[LANE_CENTERLINE_SIZE],
            );
        }
    }
    false
}

pub fn boundary_good(w: &[u64], most: u64, coordinates: &[f64]) -> bool
    requires { length w.now ≡ 5 }
    ensures { result ≡ G.boundary_good most coordinates.now w.now }
{
    let numbers = both(
        both(w[BOUNDARY_ID] <= most, w[BOUNDARY_KIND] <= BOUNDARY_KINDS),
        handle(w[BOUNDARY_ATTRIBUTES]),
    );
    both(
        numbers,
        row_tests::sound::line_good(coordinates, w[BOUNDARY_START], w[BOUNDARY_SIZE]),
    )
}

pub fn road_good(w: &[u64], most: u64) -> bool
    requires { length w.now ≡ 68 }
    ensures { result ≡ G.road_good most w.now }
{
    if both(
        both(
            both(w[ROAD_ID] <= most, handle(w[ROAD_NAME])),
            handle(w[ROAD_ATTRIBUTES]),
        ),
        w[ROAD_LANES] <= IDS,
    ) {
        let end = ROAD_FIRST_LANE + w[ROAD_LANES] as usize;
        return once::lanes_good(&w[ROAD_FIRST_LANE..end], most);
    }
    false
}

pub fn junction_good(w: &[u64], most: u64) -> bool
    requires { length w.now ≡ 69 }
    ensures { result ≡ G.junction_good most w.now }
{
    let handles = both(
        both(
            both(w[JUNCTION_ID] <= most, handle(w[JUNCTION_NAME])),
            handle(w[JUNCTION_OUTLINE]),
        ),
        handle(w[JUNCTION_ATTRIBUTES]),
    );
    if both(handles, w[JUNCTION_LANES] <= IDS) {
        let end = JUNCTION_FIRST_LANE + w[JUNCTION_LANES] as usize;
        return once::lanes_good(&w[JUNCTION_FIRST_LANE..end], most);
    }
    false
}

// A list of at most 64 ids behind its count at place k.
fn list_good(w: &[u64], k: usize, most: u64) -> bool
    requires { (length w.now ≡ 330) × ((k + 65 ≤ 330) × (word k w.now ≤ 64)) }
    ensures { result ≡ G.ids_good most (ids_at k w.now) }
{
    let start = k + 1;
    let end = start + w[k] as usize;
    lists::all_at_most(&w[start..end], most)
}

// The same for a list of lanes; `once` asks that none stands twice.
fn lanes_good(w: &[u64], k: usize, once: bool, most: u64) -> bool
    requires { (length w.now ≡ 330) × ((k + 65 ≤ 330) × (word k w.now ≤ 64)) }
    ensures { result ≡ G.lanes_good once most (ids_at k w.now) }
{
    let start = k + 1;
    let end = start + w[k] as usize;
    if once {
        return once::lanes_good(&w[start..end], most);
    }
    lists::all_at_most(&w[start..end], most)
}

pub fn either(a: bool, b: bool) -> bool
    ensures { result ≡ (a || b) }
{
    a || b
}

pub fn rule_formed(w: &[u64]) -> bool
    requires { length w.now ≡ 330 }
    ensures { result ≡ rule_formed w.now }
{
    let own = both(w[RULE_LANES] <= IDS, w[RULE_CONTROLLED] <= IDS);
    let stops = either(w[RULE_KIND] == OTHER, w[RULE_STOP_LINES] <= IDS);
    let ways = either(
        w[RULE_KIND] != RIGHT_OF_WAY,
        both(w[RULE_PRIORITY] <= IDS, w[RULE_YIELDING] <= IDS),
    );
    both(both(own, stops), ways)
}

// How many stop lines a rule's kind may have.
pub fn stops_fit(kind: u64, n: u64) -> bool
    ensures { result ≡ stop_lines_fit kind n }
{
    if kind <= TRAFFIC_SIGN {
        return n <= 1;
    }
    if kind == STOP_LINE_RULE {
        return n == 1;
    }
    if kind == OTHER {
        return n == 0;
    }
    true
}

// The signals, sign data or other kind of a rule, where its kind has them.
pub fn content_good(kind: u64, content: u64) -> bool
    ensures { result ≡ (not (has_content kind) || G.handle_good content) }
{
    if kind <= TRAFFIC_SIGN {
        return handle(content);
    }
    if kind == OTHER {
        return handle(content);
    }
    true
}

pub fn rule_numbers(w: &[u64], most: u64) -> bool
    requires { length w.now ≡ 330 }
    ensures { result ≡ G.rule_numbers most w.now }
{
    let numbers = both(
        both(
            both(w[RULE_ID] <= most, w[RULE_KIND] <= OTHER),
            content_good(w[RULE_KIND], w[RULE_CONTENT]),
        ),
        handle(w[RULE_ATTRIBUTES]),
    );
    let crosswalk = either(w[RULE_KIND] != CROSSWALK_RULE, w[RULE_CROSSWALK] <= most);
    both(
        both(numbers, crosswalk),
        either(
            w[RULE_KIND] == OTHER,
            stops_fit(w[RULE_KIND], w[RULE_STOP_LINES]),
        ),
    )
}

// The lists that a rule's kind has; `once` asks that no lane stands twice in one.
pub fn rule_lists(w: &[u64], once: bool, most: u64) -> bool
    requires { (length w.now ≡ 330) × (rule_formed w.now ≡ true) }
    ensures { result ≡ G.rule_lists once most w.now }
{
    if both(
        lanes_good(w, RULE_LANES, once, most),
        list_good(w, RULE_CONTROLLED, most),
    ) {
        if w[RULE_KIND] == OTHER {
            return true;
        }
        if list_good(w, RULE_STOP_LINES, most) {
            if w[RULE_KIND] == RIGHT_OF_WAY {
                return both(
                    lanes_good(w, RULE_PRIORITY, once, most),
                    lanes_good(w, RULE_YIELDING, once, most),
                );
            }
            return true;
        }
    }
    false
}

pub fn rule_good(w: &[u64], most: u64) -> bool
    requires { length w.now ≡ 330 }
    ensures { result ≡ G.rule_good most w.now }
{
    if both(rule_formed(w), rule_numbers(w, most)) {
        return rule_lists(w, true, most);
    }
    false
}

pub fn stop_line_good(w: &[u64], most: u64, coordinates: &[f64]) -> bool
    requires { length w.now ≡ 4 }
    ensures { result ≡ G.stop_line_good most coordinates.now w.now }
{
    both(
        both(w[STOP_LINE_ID] <= most, handle(w[STOP_LINE_ATTRIBUTES])),
        row_tests::sound::line_good(coordinates, w[STOP_LINE_START], w[STOP_LINE_SIZE]),
    )
}

pub fn crosswalk_good(w: &[u64], most: u64, coordinates: &[f64]) -> bool
    requires { length w.now ≡ 7 }
    ensures { result ≡ G.crosswalk_good most coordinates.now w.now }
{
    let numbers = both(
        both(w[CROSSWALK_ID] <= most, handle(w[CROSSWALK_OUTLINE])),
        handle(w[CROSSWALK_ATTRIBUTES]),
    );
    both(
        both(
            numbers,
            row_tests::sound::line_good(
                coordinates,
                w[CROSSWALK_LEFT_START],
                w[CROSSWALK_LEFT_SIZE],
            ),
        ),
        row_tests::sound::line_good(
            coordinates,
            w[CROSSWALK_RIGHT_START],
            w[CROSSWALK_RIGHT_SIZE],
        ),
    )
}
