// Which clause of soundness fails first, and at which row. A host asks after a refusal, so nothing here is in a hurry.
#![tactic(auto)]

ghost use Rattle.std.specs.Prelude.{◌≡◌, true, cond, [], ◌∷◌, ◌≤◌, ◌<◌, ltb, Some, None};
ghost use Rattle.tables.specs.View.{rows, tables_of};
ghost use Rattle.tables.specs.Formed.{counted, all_clear};
ghost use Rattle.row_tests.specs.Returned.{searchable};
ghost use Rattle.row_faults.specs.declared.Clause.TheVariants.{Counts, Points};
ghost use Rattle.row_faults.specs.declared.Table.TheVariants.{Lane, Coordinate};
ghost use Rattle.row_faults.specs.Passes as R;
ghost use Rattle.row_returns.specs.Returns.{named_back};
ghost use Rattle.apart.specs.Marks.{takeable, line_spans};
ghost use Rattle.soundness.specs.Parts.{all_counted};
ghost use Rattle.lent.specs.Lent.{view_tables};
ghost use Rattle.faults.specs.Faults as F;

use lent::MapView;
use row_faults::{Clause, Table};
use tables::{
    BOUNDARIES, BOUNDARY, CROSSWALK, CROSSWALKS, JUNCTION, JUNCTIONS, LANE, LANES, ROAD, ROADS,
    RULE, RULES, STOP_LINE, STOP_LINES,
};

// A clause and a table by their numbers, as C reads them, and a row, counted from 0; a clause of 0 is no fault.
#[repr(C)]
#[derive(Clone, Copy)]
pub struct Fault {
    pub clause: u64,
    pub table: u64,
    pub row: u64,
}

// A fault at a row, where that is one of the n rows.
fn told(clause: Clause, table: Table, row: usize, n: usize) -> Option<Fault>
    ensures { result ≡ cond (ltb row n) (Some (F.fault_at clause table row)) None }
{
    if row < n {
        return Some(Fault {
            clause: u64::from(clause),
            table: u64::from(table),
            row: row as u64,
        });
    }
    None
}

// ---- counts

fn count_fault(table: Table, t: &[u64], limit: u64, row: usize) -> Option<Fault>
    requires { (limit ≤ 4096) × (row ≤ 512) }
    ensures { result ≡ F.fault_in Counts table (counted limit row t.now ∷ []) }
{
    if row_tests::sound::counted(t, limit, row) {
        return None;
    }
    told(Clause::Counts, table, 0, 1)
}

fn counts_fault(map: MapView) -> Option<Fault>
    ensures { result ≡ F.counts_fault (view_tables map.entry) }
{
    count_fault(Table::Lane, map.lanes, LANES, LANE)
        .or(count_fault(Table::Boundary, map.boundaries, BOUNDARIES, BOUNDARY))
        .or(count_fault(Table::Road, map.roads, ROADS, ROAD))
        .or(count_fault(Table::Junction, map.junctions, JUNCTIONS, JUNCTION))
        .or(count_fault(Table::Rule, map.rules, RULES, RULE))
        .or(count_fault(Table::StopLine, map.stop_lines, STOP_LINES, STOP_LINE))
        .or(count_fault(Table::Crosswalk, map.crosswalks, CROSSWALKS, CROSSWALK))
}

// ---- rows and ids

fn row_fault(
    clause: Clause,
    table: Table,
    t: &[u64],
    limit: u64,
    row: usize,
    most: u64,
    coordinates: &[f64],
) -> Option<Fault>
    requires { (row ≡ R.row_words table) × (counted limit row t.now ≡ true) }
    ensures { result ≡ F.fault_in clause table (rows row (R.row_passes clause table most coordinates.now) t.now) }
{
    let first = row_faults::first_failing(clause, table, t, limit, row, most, coordinates);
    told(clause, table, first, t[0] as usize)
}

// One clause, of the rows of the last four tables.
fn later_rows_fault(clause: Clause, most: u64, map: MapView) -> Option<Fault>
    requires { all_counted (view_tables map) ≡ true }
    ensures { result ≡ F.later_rows_fault clause most (view_tables map.entry) }
{
    row_fault(
        clause,
        Table::Junction,
        map.junctions,
        JUNCTIONS,
        JUNCTION,
        most,
        map.coordinates,
    )
    .or(row_fault(
        clause,
        Table::Rule,
        map.rules,
        RULES,
        RULE,
        most,
        map.coordinates,
    ))
    .or(row_fault(
        clause,
        Table::StopLine,
        map.stop_lines,
        STOP_LINES,
        STOP_LINE,
        most,
        map.coordinates,
    ))
    .or(row_fault(
        clause,
        Table::Crosswalk,
        map.crosswalks,
        CROSSWALKS,
        CROSSWALK,
        most,
        map.coordinates,
    ))
}

// One clause, of the rows of every table.
fn rows_fault(clause: Clause, most: u64, map: MapView) -> Option<Fault>
    requires { all_counted (view_tables map) ≡ true }
    ensures { result ≡ F.rows_fault clause most (view_tables map.entry) }
{
    let later = later_rows_fault(clause, most, map);
    row_fault(
        clause,
        Table::Lane,
        map.lanes,
        LANES,
        LANE,
        most,
        map.coordinates,
    )
    .or(row_fault(
        clause,
        Table::Boundary,
        map.boundaries,
        BOUNDARIES,
        BOUNDARY,
        most,
        map.coordinates,
    ))
    .or(row_fault(
        clause,
        Table::Road,
        map.roads,
        ROADS,
        ROAD,
        most,
        map.coordinates,
    ))
    .or(later)
}

fn id_fault(table: Table, t: &[u64], limit: u64, row: usize) -> Option<Fault>
    requires { (0 < row) × (counted limit row t.now ≡ true) }
    ensures { result ≡ F.ids_in table row t.now }
{
    let first = row_faults::first_fallen(t, limit, row);
    told(Clause::Ids, table, first, t[0] as usize)
}

fn ids_fault(map: MapView) -> Option<Fault>
    requires { all_counted (view_tables map) ≡ true }
    ensures { result ≡ F.ids_fault (view_tables map.entry) }
{
    id_fault(Table::Lane, map.lanes, LANES, LANE)
        .or(id_fault(Table::Boundary, map.boundaries, BOUNDARIES, BOUNDARY))
        .or(id_fault(Table::Road, map.roads, ROADS, ROAD))
        .or(id_fault(Table::Junction, map.junctions, JUNCTIONS, JUNCTION))
        .or(id_fault(Table::Rule, map.rules, RULES, RULE))
        .or(id_fault(Table::StopLine, map.stop_lines, STOP_LINES, STOP_LINE))
        .or(id_fault(Table::Crosswalk, map.crosswalks, CROSSWALKS, CROSSWALK))
}

// Links that ascend, lines, and lanes that stand once in a list.
fn link_faults(most: u64, map: MapView) -> Option<Fault>
    requires { all_counted (view_tables map) ≡ true }
    ensures { result ≡ F.link_faults most (view_tables map.entry) }
{
    let links = rows_fault(Clause::Links, most, map);
    let lines = rows_fault(Clause::Lines, most, map);
    let repeats = rows_fault(Clause::Repeats, most, map);
    links.or(lines).or(repeats)
}

// The clauses of ids, and those behind them.
fn id_faults(most: u64, map: MapView) -> Option<Fault>
    requires { all_counted (view_tables map) ≡ true }
    ensures { result ≡ F.id_faults most (view_tables map.entry) }
{
    let ids = ids_fault(map);
    let names = rows_fault(Clause::Names, most, map);
    let links = link_faults(most, map);
    ids.or(names).or(links)
}

// The clauses that are asked of rows and ids, in their order.
fn form_faults(most: u64, map: MapView) -> Option<Fault>
    requires { all_counted (view_tables map) ≡ true }
    ensures { result ≡ F.row_faults most (view_tables map.entry) }
{
    let marks = rows_fault(Clause::Marks, most, map);
    let kinds = rows_fault(Clause::Kinds, most, map);
    let ids = id_faults(most, map);
    marks.or(kinds).or(ids)
}

// ---- what ties rows to each other

fn points_fault(
    lanes: &[u64],
    boundaries: &[u64],
    stop_lines: &[u64],
    crosswalks: &[u64],
) -> Option<Fault>
    requires { takeable 65536 lanes.now boundaries.now stop_lines.now crosswalks.now ≡ true }
    ensures { result ≡ F.fault_in Points Coordinate (all_clear (line_spans lanes.now boundaries.now stop_lines.now crosswalks.now) ∷ []) }
{
    if lines_apart::lines_apart(lanes, boundaries, stop_lines, crosswalks) {
        return None;
    }
    told(Clause::Points, Table::Coordinate, 0, 1)
}

fn back_fault(clause: Clause, lanes: &[u64]) -> Option<Fault>
    requires { searchable lanes.now ≡ true }
    ensures { result ≡ F.fault_in clause Lane (rows 52 (named_back clause lanes.now) lanes.now) }
{
    let first = row_returns::first_unreturned(clause, lanes);
    told(clause, Table::Lane, first, lanes[0] as usize)
}

// The first fault of a map with its counter.
fn found(
    counter: u64,
    lanes: &[u64],
    boundaries: &[u64],
    roads: &[u64],
    junctions: &[u64],
    rules: &[u64],
    stop_lines: &[u64],
    crosswalks: &[u64],
    coordinates: &[f64],
) -> Option<Fault>
    ensures { result ≡ F.found counter (tables_of lanes.now boundaries.now roads.now junctions.now rules.now stop_lines.now crosswalks.now coordinates.now) }
{
    let map = MapView {
        lanes,
        boundaries,
        roads,
        junctions,
        rules,
        stop_lines,
        crosswalks,
        coordinates,
    };
    let counts = counts_fault(map);
    if counts.is_some() {
        return counts;
    }
    let rows = form_faults(row_tests::sound::largest_id(counter), map);
    if rows.is_some() {
        return rows;
    }
    let points = points_fault(lanes, boundaries, stop_lines, crosswalks);
    let links = back_fault(Clause::Returns, lanes);
    points.or(links).or(back_fault(Clause::Neighbors, lanes))
}

// The first fault as a host is told it; all 0 where the map is sound.
#[tactic(auto, unfolding(crate::specs::Faults::fault_of))]
pub fn first_fault(
    counter: u64,
    lanes: &[u64],
    boundaries: &[u64],
    roads: &[u64],
    junctions: &[u64],
    rules: &[u64],
    stop_lines: &[u64],
    crosswalks: &[u64],
    coordinates: &[f64],
) -> Fault
    ensures { result ≡ F.fault_of counter (tables_of lanes.now boundaries.now roads.now junctions.now rules.now stop_lines.now crosswalks.now coordinates.now) }
{
    found(
        counter,
        lanes,
        boundaries,
        roads,
        junctions,
        rules,
        stop_lines,
        crosswalks,
        coordinates,
    )
    .unwrap_or(Fault {
        clause: 0,
        table: 0,
        row: 0,
    })
}
