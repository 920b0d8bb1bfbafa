// edit/split.rs: the entities that a split modifies: rows are marked table by table, then counted or listed.
#![tactic(auto)]

ghost use Rattle.std.specs.Prelude.{◌≡◌, ◌*◌, ◌≤◌, length};
ghost use Rattle.report.specs.Report as R;
ghost use Rattle.split_touched.specs.Modified as M;

use lent::MapView;
use split_lists::Marks;
use split_relay::Cuts;
use tables::{JUNCTION, JUNCTION_LANES, ROAD, ROAD_LANES};

// Rows of each table at most.
const MAX_LANES: usize = 1024;

const MAX_BOUNDARIES: usize = 4096;

const MAX_ROADS: usize = 256;

const MAX_JUNCTIONS: usize = 256;

const MAX_RULES: usize = 512;

// Marks of the rows of all five tables.
#[derive(Drop)]
struct Touched {
    lanes: [bool; MAX_LANES],
    boundaries: [bool; MAX_BOUNDARIES],
    roads: [bool; MAX_ROADS],
    junctions: [bool; MAX_JUNCTIONS],
    rules: [bool; MAX_RULES],
}

// They are set.
fn touch(map: MapView, cuts: Cuts, anchored: &[bool], past: &[bool], marks: &mut Touched)
    requires { M.Touchable (M.told cuts.cut.now cuts.marks.now cuts.pieces.now anchored.now past.now) (M.rows_of map.lanes.now map.boundaries.now map.roads.now map.junctions.now map.rules.now) (M.marks_of marks.old.lanes marks.old.boundaries marks.old.roads marks.old.junctions marks.old.rules) }
    ensures made { M.marks_of marks.new.lanes marks.new.boundaries marks.new.roads marks.new.junctions marks.new.rules ≡ M.touched_by (M.told cuts.entry.cut.now cuts.entry.marks.now cuts.entry.pieces.now anchored.now past.now) (M.rows_of map.entry.lanes.now map.entry.boundaries.now map.entry.roads.now map.entry.junctions.now map.entry.rules.now) (M.marks_of marks.old.lanes marks.old.boundaries marks.old.roads marks.old.junctions marks.old.rules) }
    ensures as_long { M.AsLong (M.marks_of marks.old.lanes marks.old.boundaries marks.old.roads marks.old.junctions marks.old.rules) (M.marks_of marks.new.lanes marks.new.boundaries marks.new.roads marks.new.junctions marks.new.rules) }
{
    let cut = cuts.cut;
    let cut_boundaries = &cuts.marks[..map.boundaries[0] as usize];
    split_marks::mark_lanes(map.lanes, cut, &mut marks.lanes);
    split_marks::mark_alone(cut_boundaries, cuts.pieces, &mut marks.boundaries);
    split_marks::mark_rows(map.roads, ROAD, ROAD_LANES, cut, &mut marks.roads);
    split_marks::mark_rows(
        map.junctions,
        JUNCTION,
        JUNCTION_LANES,
        cut,
        &mut marks.junctions,
    );
    follows::mark_rules(map.rules, cut, anchored, past, &mut marks.rules);
}

// How many there are.
pub fn count_modified(map: MapView, cuts: Cuts, anchored: &[bool], past: &[bool]) -> usize
    requires { M.Modifiable (M.told cuts.cut.now cuts.marks.now cuts.pieces.now anchored.now past.now) (M.rows_of map.lanes.now map.boundaries.now map.roads.now map.junctions.now map.rules.now) }
    ensures { result ≡ length (M.modified_of (M.told cuts.entry.cut.now cuts.entry.marks.now cuts.entry.pieces.now anchored.now past.now) (M.rows_of map.entry.lanes.now map.entry.boundaries.now map.entry.roads.now map.entry.junctions.now map.entry.rules.now)) }
{
    let mut marks = Touched {
        lanes: [false; MAX_LANES],
        boundaries: [false; MAX_BOUNDARIES],
        roads: [false; MAX_ROADS],
        junctions: [false; MAX_JUNCTIONS],
        rules: [false; MAX_RULES],
    };
    touch(map, cuts, anchored, past, &mut marks);
    split_marks::count_marks(&marks.lanes[..map.lanes[0] as usize])
        + split_marks::count_marks(&marks.boundaries[..map.boundaries[0] as usize])
        + split_marks::count_marks(&marks.roads[..map.roads[0] as usize])
        + split_marks::count_marks(&marks.junctions[..map.junctions[0] as usize])
        + split_marks::count_marks(&marks.rules[..map.rules[0] as usize])
}

// They are listed.
pub fn list_modified(
    map: MapView,
    cuts: Cuts,
    anchored: &[bool],
    past: &[bool],
    modified: &mut [u64],
)
    requires { (M.Modifiable (M.told cuts.cut.now cuts.marks.now cuts.pieces.now anchored.now past.now) (M.rows_of map.lanes.now map.boundaries.now map.roads.now map.junctions.now map.rules.now)) × (length (M.modified_of (M.told cuts.cut.now cuts.marks.now cuts.pieces.now anchored.now past.now) (M.rows_of map.lanes.now map.boundaries.now map.roads.now map.junctions.now map.rules.now)) * 2 ≤ length modified.old) }
    ensures { modified.new ≡ R.listed modified.old (M.modified_of (M.told cuts.entry.cut.now cuts.entry.marks.now cuts.entry.pieces.now anchored.now past.now) (M.rows_of map.entry.lanes.now map.entry.boundaries.now map.entry.roads.now map.entry.junctions.now map.entry.rules.now)) }
{
    let mut marks = Touched {
        lanes: [false; MAX_LANES],
        boundaries: [false; MAX_BOUNDARIES],
        roads: [false; MAX_ROADS],
        junctions: [false; MAX_JUNCTIONS],
        rules: [false; MAX_RULES],
    };
    touch(map, cuts, anchored, past, &mut marks);
    let listed = Marks {
        lanes: &marks.lanes,
        boundaries: &marks.boundaries,
        roads: &marks.roads,
        junctions: &marks.junctions,
        rules: &marks.rules,
    };
    split_lists::list_modified(map, listed, modified);
}
