// Which row of a table fails a clause of soundness first. Clauses and tables are those of specs/Clauses.antt.
#![tactic(auto)]

ghost use Rattle.std.specs.Prelude.{◌≡◌, ℕ, Bool, true, ◌+◌, ◌<◌, ◌≤◌, List, length, drop, get_or};
ghost use Rattle.lists.specs.Rows.{keys};
ghost use Rattle.tables.specs.View.{rows, word};
ghost use Rattle.tables.specs.Formed.{counted};
ghost use Rattle.row_faults.specs.Clauses.{clause_number, table_number};
ghost use Rattle.row_faults.specs.First.{first_false, rises};
ghost use Rattle.row_faults.specs.Passes as P;

use lists::both;
use tables::{
    BOUNDARY_ATTRIBUTES, BOUNDARY_ID, BOUNDARY_KIND, CROSSWALK_ATTRIBUTES, CROSSWALK_ID,
    CROSSWALK_OUTLINE, FIRST_PREDECESSOR, FIRST_SUCCESSOR, JUNCTION_ATTRIBUTES, JUNCTION_LANES,
    JUNCTION_NAME, JUNCTION_OUTLINE, LANE_ATTRIBUTES, LANE_KIND, LANE_TURN, OTHER, PREDECESSORS,
    ROAD_ATTRIBUTES, ROAD_LANES, ROAD_NAME, RULE_ATTRIBUTES, RULE_CONTENT, RULE_KIND,
    RULE_STOP_LINES, STOP_LINE_ATTRIBUTES, STOP_LINE_ID, SUCCESSORS,
};

// The clauses of soundness.
#[derive(Clone, Copy)]
pub enum Clause {
    Counts,
    Marks,
    Kinds,
    Ids,
    Names,
    Links,
    Lines,
    Repeats,
    Points,
    Returns,
    Neighbors,
}

impl From<Clause> for u64 {
    ghost from_gives = { λ clause number. number ≡ clause_number clause };

    fn from(clause: Clause) -> u64 {
        match clause {
            Clause::Counts => 1,
            Clause::Marks => 2,
            Clause::Kinds => 3,
            Clause::Ids => 4,
            Clause::Names => 5,
            Clause::Links => 6,
            Clause::Lines => 7,
            Clause::Repeats => 11,
            Clause::Points => 8,
            Clause::Returns => 9,
            Clause::Neighbors => 10,
        }
    }
}

// The tables.
#[derive(Clone, Copy)]
pub enum Table {
    Lane,
    Boundary,
    Road,
    Junction,
    Rule,
    StopLine,
    Crosswalk,
    Coordinate,
}

impl From<Table> for u64 {
    ghost from_gives = { λ table number. number ≡ table_number table };

    fn from(table: Table) -> u64 {
        match table {
            Table::Lane => 0,
            Table::Boundary => 1,
            Table::Road => 2,
            Table::Junction => 3,
            Table::Rule => 4,
            Table::StopLine => 5,
            Table::Crosswalk => 6,
            Table::Coordinate => 7,
        }
    }
}

// The largest kinds and counts.
const LANE_KINDS: u64 = 7;

const TURNS: u64 = 3;

const BOUNDARY_KINDS: u64 = 13;

const IDS: u64 = 64;

// Every row begins with its id.
const ROW_ID: usize = 0;

// ---- lanes

fn lane_kinds(w: &[u64]) -> bool
    requires { length w.now ≡ 52 }
    ensures { result ≡ P.lane_kinds w.now }
{
    both(
        both(w[LANE_KIND] <= LANE_KINDS, w[LANE_TURN] <= TURNS),
        entity_tests::handle(w[LANE_ATTRIBUTES]),
    )
}

fn lane_named(w: &[u64], most: u64) -> bool
    requires { length w.now ≡ 52 }
    ensures { result ≡ P.lane_named most w.now }
{
    if both(
        entity_tests::lane_formed(w),
        entity_tests::lane_numbers(w, most),
    ) {
        let before = FIRST_PREDECESSOR + w[PREDECESSORS] as usize;
        let after = FIRST_SUCCESSOR + w[SUCCESSORS] as usize;
        return both(
            lists::all_at_most(&w[FIRST_PREDECESSOR..before], most),
            lists::all_at_most(&w[FIRST_SUCCESSOR..after], most),
        );
    }
    false
}

fn links_rise(w: &[u64]) -> bool
    requires { length w.now ≡ 52 }
    ensures { result ≡ P.links_rise w.now }
{
    if entity_tests::lane_formed(w) {
        let before = FIRST_PREDECESSOR + w[PREDECESSORS] as usize;
        let after = FIRST_SUCCESSOR + w[SUCCESSORS] as usize;
        return both(
            lists::ascends(&w[FIRST_PREDECESSOR..before]),
            lists::ascends(&w[FIRST_SUCCESSOR..after]),
        );
    }
    false
}

#[tactic(auto, unfolding(crate::specs::Passes::lane_passes))]
fn lane_passes(clause: Clause, w: &[u64], most: u64, coordinates: &[f64]) -> bool
    requires { length w.now ≡ 52 }
    ensures { result ≡ P.lane_passes clause most coordinates.now w.now }
{
    match clause {
        Clause::Marks => entity_tests::lane_formed(w),
        Clause::Kinds => lane_kinds(w),
        Clause::Names => lane_named(w, most),
        Clause::Links => links_rise(w),
        _ => entity_tests::lane_good(w, most, coordinates),
    }
}

// ---- rows with lines

// What a clause asks for, of what was found of a row.
fn drawn(clause: Clause, kinds: bool, named: bool, good: bool) -> bool
    ensures { result ≡ P.drawn_passes clause kinds named good }
{
    match clause {
        Clause::Marks => true,
        Clause::Kinds => kinds,
        Clause::Counts | Clause::Ids | Clause::Names | Clause::Links => named,
        _ => good,
    }
}

fn boundary_passes(clause: Clause, w: &[u64], most: u64, coordinates: &[f64]) -> bool
    requires { length w.now ≡ 5 }
    ensures { result ≡ P.boundary_passes clause most coordinates.now w.now }
{
    drawn(
        clause,
        both(
            w[BOUNDARY_KIND] <= BOUNDARY_KINDS,
            entity_tests::handle(w[BOUNDARY_ATTRIBUTES]),
        ),
        w[BOUNDARY_ID] <= most,
        entity_tests::boundary_good(w, most, coordinates),
    )
}

fn stop_line_passes(clause: Clause, w: &[u64], most: u64, coordinates: &[f64]) -> bool
    requires { length w.now ≡ 4 }
    ensures { result ≡ P.stop_line_passes clause most coordinates.now w.now }
{
    drawn(
        clause,
        entity_tests::handle(w[STOP_LINE_ATTRIBUTES]),
        w[STOP_LINE_ID] <= most,
        entity_tests::stop_line_good(w, most, coordinates),
    )
}

fn crosswalk_passes(clause: Clause, w: &[u64], most: u64, coordinates: &[f64]) -> bool
    requires { length w.now ≡ 7 }
    ensures { result ≡ P.crosswalk_passes clause most coordinates.now w.now }
{
    drawn(
        clause,
        both(
            entity_tests::handle(w[CROSSWALK_OUTLINE]),
            entity_tests::handle(w[CROSSWALK_ATTRIBUTES]),
        ),
        w[CROSSWALK_ID] <= most,
        entity_tests::crosswalk_good(w, most, coordinates),
    )
}

// ---- rows of lists

fn listed(clause: Clause, formed: bool, kinds: bool, named: bool, good: bool) -> bool
    ensures { result ≡ P.listed_passes clause formed kinds named good }
{
    match clause {
        Clause::Marks => formed,
        Clause::Kinds => kinds,
        Clause::Repeats => good,
        _ => named,
    }
}

// A row's id, and the ids behind their count at place k.
fn list_named(w: &[u64], k: usize, most: u64) -> bool
    requires { k + 65 ≤ length w.now }
    ensures { result ≡ P.list_named k most w.now }
{
    if w[k] <= IDS {
        let start = k + 1;
        let end = start + w[k] as usize;
        return both(w[ROW_ID] <= most, lists::all_at_most(&w[start..end], most));
    }
    false
}

fn road_passes(clause: Clause, w: &[u64], most: u64) -> bool
    requires { length w.now ≡ 68 }
    ensures { result ≡ P.road_passes clause most w.now }
{
    listed(
        clause,
        w[ROAD_LANES] <= IDS,
        both(
            entity_tests::handle(w[ROAD_NAME]),
            entity_tests::handle(w[ROAD_ATTRIBUTES]),
        ),
        list_named(w, ROAD_LANES, most),
        entity_tests::road_good(w, most),
    )
}

fn junction_passes(clause: Clause, w: &[u64], most: u64) -> bool
    requires { length w.now ≡ 69 }
    ensures { result ≡ P.junction_passes clause most w.now }
{
    listed(
        clause,
        w[JUNCTION_LANES] <= IDS,
        both(
            both(
                entity_tests::handle(w[JUNCTION_NAME]),
                entity_tests::handle(w[JUNCTION_OUTLINE]),
            ),
            entity_tests::handle(w[JUNCTION_ATTRIBUTES]),
        ),
        list_named(w, JUNCTION_LANES, most),
        entity_tests::junction_good(w, most),
    )
}

fn rule_kinds(w: &[u64]) -> bool
    requires { length w.now ≡ 330 }
    ensures { result ≡ P.rule_kinds w.now }
{
    both(
        both(
            both(
                w[RULE_KIND] <= OTHER,
                entity_tests::content_good(w[RULE_KIND], w[RULE_CONTENT]),
            ),
            entity_tests::handle(w[RULE_ATTRIBUTES]),
        ),
        entity_tests::either(
            w[RULE_KIND] == OTHER,
            entity_tests::stops_fit(w[RULE_KIND], w[RULE_STOP_LINES]),
        ),
    )
}

fn rule_named(w: &[u64], most: u64) -> bool
    requires { length w.now ≡ 330 }
    ensures { result ≡ P.rule_named most w.now }
{
    if both(
        entity_tests::rule_formed(w),
        entity_tests::rule_numbers(w, most),
    ) {
        return entity_tests::rule_lists(w, false, most);
    }
    false
}

fn rule_passes(clause: Clause, w: &[u64], most: u64) -> bool
    requires { length w.now ≡ 330 }
    ensures { result ≡ P.rule_passes clause most w.now }
{
    listed(
        clause,
        entity_tests::rule_formed(w),
        rule_kinds(w),
        rule_named(w, most),
        entity_tests::rule_good(w, most),
    )
}

// ---- by table

// Whether a row of a table passes a clause. The coordinates have no rows of their own, and count as the last table. The definitions speak of the pair, and a
// closure for each pair would be no plainer.
#[tactic(auto, unfolding(crate::specs::Passes::row_words, crate::specs::Passes::row_passes))]
fn row_passes(clause: Clause, table: Table, w: &[u64], most: u64, coordinates: &[f64]) -> bool
    requires { length w.now ≡ P.row_words table }
    ensures { result ≡ P.row_passes clause table most coordinates.now w.now }
{
    match table {
        Table::Lane => lane_passes(clause, w, most, coordinates),
        Table::Boundary => boundary_passes(clause, w, most, coordinates),
        Table::Road => road_passes(clause, w, most),
        Table::Junction => junction_passes(clause, w, most),
        Table::Rule => rule_passes(clause, w, most),
        Table::StopLine => stop_line_passes(clause, w, most, coordinates),
        Table::Crosswalk | Table::Coordinate => crosswalk_passes(clause, w, most, coordinates),
    }
}

// The first of n rows that fails a test, which is given the row's number; n where all pass.
pub fn first_row<F: Fn(usize) -> bool>(n: usize, test: F) -> usize
    requires { (i : ℕ) → i < n → F.pre test i }
    ensures { (tests : List Bool) → length tests ≡ n → ((i : ℕ) (b : Bool) → i < n → F.post test i b → b ≡ get_or tests i true) → result ≡ first_false tests }
{
    for i in 0..n {
        if !test(i) {
            return i;
        }
    }
    n
}

// Whether row i passes a clause.
fn row_passes_at(
    clause: Clause,
    table: Table,
    t: &[u64],
    limit: u64,
    row: usize,
    i: usize,
    most: u64,
    coordinates: &[f64],
) -> bool
    requires { (row ≡ P.row_words table) × ((counted limit row t.now ≡ true) × (i < word 0 t.now)) }
    ensures { result ≡ get_or (rows row (P.row_passes clause table most coordinates.now) t.now) i true }
{
    let at = 1 + i * row;
    let end = at + row;
    row_passes(clause, table, &t[at..end], most, coordinates)
}

// The first row of a table that does not pass a clause; the count of rows where all do.
pub fn first_failing(
    clause: Clause,
    table: Table,
    t: &[u64],
    limit: u64,
    row: usize,
    most: u64,
    coordinates: &[f64],
) -> usize
    requires { (row ≡ P.row_words table) × (counted limit row t.now ≡ true) }
    ensures { result ≡ first_false (rows row (P.row_passes clause table most coordinates.now) t.now) }
{
    let n = t[0] as usize;
    first_row(
        n,
        |i| row_passes_at(clause, table, t, limit, row, i, most, coordinates),
    )
}

// Whether the id of row i is above that of the row before it.
fn rises_at(t: &[u64], limit: u64, row: usize, i: usize) -> bool
    requires { (0 < row) × ((counted limit row t.now ≡ true) × (i < word 0 t.now)) }
    ensures { result ≡ get_or (rises (keys row (word 0 t.now) (drop 1 t.now))) i true }
{
    if i == 0 {
        return true;
    }
    t[1 + (i - 1) * row] < t[1 + i * row]
}

// The first row of a table whose id is not above the one before it; the count of rows where every id is.
pub fn first_fallen(t: &[u64], limit: u64, row: usize) -> usize
    requires { (0 < row) × (counted limit row t.now ≡ true) }
    ensures { result ≡ first_false (rises (keys row (word 0 t.now) (drop 1 t.now))) }
{
    let n = t[0] as usize;
    first_row(n, |i| rises_at(t, limit, row, i))
}
