// The test of soundness: the counts, the rows, the ids, the points, the links and neighbours.
#![tactic(auto)]

ghost use Rattle.std.specs.Prelude.{◌≡◌, true, ◌<◌};
ghost use Rattle.tables.specs.Formed.{counted};
ghost use Rattle.lent.specs.Lent.{view_tables};
ghost use Rattle.soundness.specs.Parts as P;

use lent::MapView;
use lists::both;
use tables::{
    BOUNDARIES, BOUNDARY, CROSSWALK, CROSSWALKS, JUNCTION, JUNCTIONS, LANE, LANES, ROAD, ROADS,
    RULE, RULES, STOP_LINE, STOP_LINES,
};

// Every table holds its count of rows.
pub fn all_counted(map: MapView) -> bool
    ensures { result ≡ P.all_counted (view_tables map.entry) }
{
    let a = both(
        row_tests::sound::counted(map.lanes, LANES, LANE),
        row_tests::sound::counted(map.boundaries, BOUNDARIES, BOUNDARY),
    );
    let b = both(
        both(a, row_tests::sound::counted(map.roads, ROADS, ROAD)),
        row_tests::sound::counted(map.junctions, JUNCTIONS, JUNCTION),
    );
    let c = both(b, row_tests::sound::counted(map.rules, RULES, RULE));
    both(
        both(
            c,
            row_tests::sound::counted(map.stop_lines, STOP_LINES, STOP_LINE),
        ),
        row_tests::sound::counted(map.crosswalks, CROSSWALKS, CROSSWALK),
    )
}

// Every row of every table passes.
pub fn all_good(most: u64, map: MapView) -> bool
    requires { P.all_counted (view_tables map) ≡ true }
    ensures { result ≡ P.all_good most (view_tables map.entry) }
{
    let a = both(
        table_tests::lanes_good(map.lanes, most, map.coordinates),
        table_tests::boundaries_good(map.boundaries, most, map.coordinates),
    );
    let b = both(
        both(a, table_tests::roads_good(map.roads, most)),
        table_tests::junctions_good(map.junctions, most),
    );
    let c = both(b, table_tests::rules_good(map.rules, most));
    both(
        both(
            c,
            table_tests::stop_lines_good(map.stop_lines, most, map.coordinates),
        ),
        table_tests::crosswalks_good(map.crosswalks, most, map.coordinates),
    )
}

// A table's ids ascend.
fn ascends(t: &[u64], limit: u64, row: usize) -> bool
    requires { (0 < row) × (counted limit row t.now ≡ true) }
    ensures { result ≡ P.ascends row t.now }
{
    lists::keys_ascend(&t[1..], row, t[0] as usize)
}

// The ids of every table ascend.
pub fn all_ascend(map: MapView) -> bool
    requires { P.all_counted (view_tables map) ≡ true }
    ensures { result ≡ P.all_ascend (view_tables map.entry) }
{
    let a = both(
        ascends(map.lanes, LANES, LANE),
        ascends(map.boundaries, BOUNDARIES, BOUNDARY),
    );
    let b = both(
        both(a, ascends(map.roads, ROADS, ROAD)),
        ascends(map.junctions, JUNCTIONS, JUNCTION),
    );
    let c = both(b, ascends(map.rules, RULES, RULE));
    both(
        both(c, ascends(map.stop_lines, STOP_LINES, STOP_LINE)),
        ascends(map.crosswalks, CROSSWALKS, CROSSWALK),
    )
}
