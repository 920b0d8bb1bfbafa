// The test of soundness, table by table: every row passes.
#![tactic(auto)]

ghost use Rattle.std.specs.Prelude.{◌≡◌, ◌≤◌, ◌+◌, ◌*◌, true, false, length, MatchBool};
ghost use Rattle.std.specs.Fn.{FnReturnsAt};
ghost use Rattle.tables.specs.Formed.{counted};
ghost use Rattle.tables.specs.View.{word};
ghost use Rattle.row_tests.specs.Good as G;
ghost use Rattle.table_tests.specs.Rows.{EachRow, SomeRow};

use tables::{BOUNDARY, CROSSWALK, JUNCTION, LANE, ROAD, RULE, STOP_LINE};

// Whether each row of a table passes a test. A row has `row` words.
fn rows_pass<F: Fn(&[u64]) -> bool>(t: &[u64], row: usize, test: F) -> bool
    requires room { 1 + word 0 t.now * row ≤ length t.now }
    requires takes_rows { (w : _) → length w.now ≡ row → F.pre test w }
    ensures { MatchBool result
        (EachRow row t.now (λ w. FnReturnsAt F.Fn test w true))
        (SomeRow row t.now (λ w. FnReturnsAt F.Fn test w false)) }
{
    let n = t[0] as usize;
    for i in 0..n {
        let at = 1 + i * row;
        let end = at + row;
        if !test(&t[at..end]) {
            return false;
        }
    }
    true
}

pub fn lanes_good(t: &[u64], most: u64, coordinates: &[f64]) -> bool
    requires { counted 1024 52 t.now ≡ true }
    ensures { result ≡ G.all_rows 52 (G.lane_good most coordinates.now) t.now }
{
    rows_pass(t, LANE, |w| entity_tests::lane_good(w, most, coordinates))
}

pub fn boundaries_good(t: &[u64], most: u64, coordinates: &[f64]) -> bool
    requires { counted 4096 5 t.now ≡ true }
    ensures { result ≡ G.all_rows 5 (G.boundary_good most coordinates.now) t.now }
{
    rows_pass(
        t,
        BOUNDARY,
        |w| entity_tests::boundary_good(w, most, coordinates),
    )
}

pub fn roads_good(t: &[u64], most: u64) -> bool
    requires { counted 256 68 t.now ≡ true }
    ensures { result ≡ G.all_rows 68 (G.road_good most) t.now }
{
    rows_pass(t, ROAD, |w| entity_tests::road_good(w, most))
}

pub fn junctions_good(t: &[u64], most: u64) -> bool
    requires { counted 256 69 t.now ≡ true }
    ensures { result ≡ G.all_rows 69 (G.junction_good most) t.now }
{
    rows_pass(t, JUNCTION, |w| entity_tests::junction_good(w, most))
}

pub fn rules_good(t: &[u64], most: u64) -> bool
    requires { counted 512 330 t.now ≡ true }
    ensures { result ≡ G.all_rows 330 (G.rule_good most) t.now }
{
    rows_pass(t, RULE, |w| entity_tests::rule_good(w, most))
}

pub fn stop_lines_good(t: &[u64], most: u64, coordinates: &[f64]) -> bool
    requires { counted 512 4 t.now ≡ true }
    ensures { result ≡ G.all_rows 4 (G.stop_line_good most coordinates.now) t.now }
{
    rows_pass(
        t,
        STOP_LINE,
        |w| entity_tests::stop_line_good(w, most, coordinates),
    )
}

pub fn crosswalks_good(t: &[u64], most: u64, coordinates: &[f64]) -> bool
    requires { counted 128 7 t.now ≡ true }
    ensures { result ≡ G.all_rows 7 (G.crosswalk_good most coordinates.now) t.now }
{
    rows_pass(
        t,
        CROSSWALK,
        |w| entity_tests::crosswalk_good(w, most, coordinates),
    )
}
