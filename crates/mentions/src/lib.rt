// Rows of a table that name a lane: how many there are, and their list. `forgets` and `replaces` have what they become when the lane goes or reads as another.
#![tactic(auto)]

ghost use Rattle.std.specs.Prelude.{◌≡◌, true, [], ◌∷◌, ◌+◌, ◌*◌, ◌≤◌, length};
ghost use Rattle.lists.specs.Rows.{over};
ghost use Rattle.lists.specs.Select.{has, each};
ghost use Rattle.rules.specs.Edit.{refs, when};
ghost use Rattle.tables.specs.View.{word, ids_at};
ghost use Rattle.tables.specs.Formed.{lane_formed, rule_formed};
ghost use Rattle.report.specs.Report.{entity_words};
ghost use Rattle.mentions.specs.Naming as N;
ghost use Rattle.mentions.specs.declared.Rows.TheVariants.{Rules, Orphans};

use entities::EntityKind;
use report::ENTITY;
use tables::{
    JUNCTION, JUNCTION_LANES, LANE, LANE_ID, LEFT_SLOT, NONE, PREDECESSORS, RIGHT_OF_WAY,
    RIGHT_SLOT, ROAD, ROAD_LANES, RULE, RULE_KIND, RULE_LANES, RULE_PRIORITY, RULE_YIELDING,
    SUCCESSORS,
};

// The tables whose rows name lanes; of rules also those alone that a lane's going leaves with no lane.
#[derive(Clone, Copy)]
pub enum Rows {
    Lanes,
    Roads,
    Junctions,
    Rules,
    Orphans,
}

pub fn row_words(rows: Rows) -> usize
    ensures { result ≡ N.row_words rows }
{
    match rows {
        Rows::Lanes => LANE,
        Rows::Roads => ROAD,
        Rows::Junctions => JUNCTION,
        Rows::Rules => RULE,
        Rows::Orphans => RULE,
    }
}

fn row_kind(rows: Rows) -> EntityKind
    ensures { result ≡ N.row_kind rows }
{
    match rows {
        Rows::Lanes => EntityKind::Lane,
        Rows::Roads => EntityKind::Road,
        Rows::Junctions => EntityKind::Junction,
        Rows::Rules => EntityKind::RegulatoryElement,
        Rows::Orphans => EntityKind::RegulatoryElement,
    }
}

// ---- a row that names a lane

// Whether the list at place k of a row has an id.
pub fn lists_lane(row: &[u64], k: usize, id: u64) -> bool
    requires { k + 1 + word k row.now ≤ length row.now }
    ensures { result ≡ has id (ids_at k row.now) }
{
    let from = k + 1;
    let to = from + row[k] as usize;
    lists::contains(&row[from..to], id)
}

// Whether the slot at place k of a row names a lane.
pub fn slot_names(row: &[u64], k: usize, id: u64) -> bool
    requires { k + 2 ≤ length row.now }
    ensures { result ≡ N.slot_names id k row.now }
{
    if row[k] == NONE {
        return false;
    }
    row[k + 1] == id
}

// Whether the row of another lane names a lane.
fn lane_names(row: &[u64], id: u64) -> bool
    requires { (length row.now ≡ 52) × (lane_formed row.now ≡ true) }
    ensures { result ≡ N.lane_row_names id row.now }
{
    if row[LANE_ID] == id {
        return false;
    }
    if lists_lane(row, PREDECESSORS, id) {
        return true;
    }
    if lists_lane(row, SUCCESSORS, id) {
        return true;
    }
    if slot_names(row, LEFT_SLOT, id) {
        return true;
    }
    slot_names(row, RIGHT_SLOT, id)
}

fn rule_names(row: &[u64], id: u64) -> bool
    requires { (length row.now ≡ 330) × (rule_formed row.now ≡ true) }
    ensures { result ≡ N.rule_row_names id row.now }
{
    if lists_lane(row, RULE_LANES, id) {
        return true;
    }
    if row[RULE_KIND] != RIGHT_OF_WAY {
        return false;
    }
    if lists_lane(row, RULE_PRIORITY, id) {
        return true;
    }
    lists_lane(row, RULE_YIELDING, id)
}

// Whether a rule names a lane, and has no other lane of its own.
fn orphaned(row: &[u64], id: u64) -> bool
    requires { (length row.now ≡ 330) × (rule_formed row.now ≡ true) }
    ensures { result ≡ N.names_lane Orphans id row.now }
{
    if rule_names(row, id) {
        let n = row[RULE_LANES] as usize;
        let from = RULE_LANES + 1;
        let to = from + n;
        return lists::count_of(&row[from..to], id) == n;
    }
    false
}

pub fn names_lane(row: &[u64], rows: Rows, id: u64) -> bool
    requires { (length row.now ≡ N.row_words rows) × (N.row_formed rows row.now ≡ true) }
    ensures { result ≡ N.names_lane rows id row.now }
{
    match rows {
        Rows::Lanes => lane_names(row, id),
        Rows::Roads => lists_lane(row, ROAD_LANES, id),
        Rows::Junctions => lists_lane(row, JUNCTION_LANES, id),
        Rows::Rules => rule_names(row, id),
        Rows::Orphans => orphaned(row, id),
    }
}

// ---- the rows that name a lane

// How many there are.
pub fn count(t: &[u64], rows: Rows, id: u64) -> usize
    requires { N.table_formed rows t.now ≡ true }
    ensures { result ≡ length (N.naming rows id t.now) }
{
    let s = row_words(rows);
    let n = t[0] as usize;
    let mut count = 0;
    for i in 0..n {
        let at = 1 + i * s;
        let end = at + s;
        if names_lane(&t[at..end], rows, id) {
            count += 1;
        }
    }
    count
}

// An entity put in place `at` of a list, or not; the place behind.
pub fn put_where(on: bool, kind: u64, id: u64, out: &mut [u64], at: usize) -> usize
    requires { (at + length (when on id)) * 2 ≤ length out.old }
    ensures { (result ≡ at + length (when on id)) × (out.new ≡ over out.old (at * 2) (each (λ i. kind ∷ i ∷ []) (when on id))) }
{
    if on {
        out[at * ENTITY] = kind;
        out[at * ENTITY + 1] = id;
        return at + 1;
    }
    at
}

// Their list, from place `at` of a lent one on; the place behind.
pub fn list(t: &[u64], rows: Rows, id: u64, out: &mut [u64], at: usize) -> usize
    requires { (N.table_formed rows t.now ≡ true) × ((at + length (N.naming rows id t.now)) * 2 ≤ length out.old) }
    ensures { (result ≡ at + length (N.naming rows id t.now)) × (out.new ≡ over out.old (at * 2) (each entity_words (refs (N.row_kind rows) (N.naming rows id t.now)))) }
{
    let s = row_words(rows);
    let kind = u64::from(row_kind(rows));
    let n = t[0] as usize;
    let mut place = at;
    for i in 0..n {
        let row = 1 + i * s;
        let end = row + s;
        let on = names_lane(&t[row..end], rows, id);
        place = put_where(on, kind, t[row], out, place);
    }
    place
}
