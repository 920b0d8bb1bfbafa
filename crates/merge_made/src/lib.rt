// edit/merge.rs: a merge whose sides are planned: ids and room, then the lists are written, then the tables.
#![tactic(auto)]

ghost use Rattle.std.specs.Prelude.{◌≡◌, ◌+◌, ◌*◌, ◌≤◌, length};
ghost use Rattle.step.specs.Step.{given};
ghost use Rattle.report.specs.Report.{counter_behind};
ghost use Rattle.step.specs.Step as S;
ghost use Rattle.lent.specs.Lent.{map_tables, SameSlices, SameLists};
ghost use Rattle.merge_lists.specs.Changes as C;
ghost use Rattle.merge_made.specs.Parts as P;

use entities::{Refusal, Side};
use lent::MapView;
use mentions::Rows;
use merge_lists::Notices;
use merge_plan::{Plan, side_ids};
use report::{Answer, Change, Counts};
use tables::LANE;

// Boundaries that go, at most, and that are joined in place.
const MOST_GONE: usize = 4;

const MOST_JOINED: usize = 2;

// ---- lists

// How many entities and warnings the lists get.
fn count(
    second: u64,
    plan: Plan,
    gone: usize,
    joined: &[u64],
    warnings: usize,
    map: MapView,
) -> Counts
    requires { (C.Formed map.lanes.now map.roads.now map.junctions.now map.rules.now) × ((length joined.now ≤ 2) × (gone ≤ 4)) }
    ensures { result ≡ P.counts_of second plan gone joined.now warnings map.entry.lanes.now map.entry.roads.now map.entry.junctions.now map.entry.rules.now }
{
    let left = plan.left;
    let right = plan.right;
    Counts {
        created: side_ids(left) + side_ids(right),
        modified: merge_lists::count_modified(second, joined, map),
        deleted: gone + 1,
        warnings,
    }
}

// The four lists.
fn write_lists(
    second: u64,
    next: u64,
    ids: usize,
    gone: &[u64],
    joined: &[u64],
    notices: Notices,
    map: MapView,
    lists: &mut lent::Lists,
)
    requires { P.Listable second next ids gone.now joined.now notices map.lanes.now map.roads.now map.junctions.now map.rules.now lists.old.created.now lists.old.modified.now lists.old.deleted.now lists.old.warnings.now }
    ensures made { P.lists lists.new.created.now lists.new.modified.now lists.new.deleted.now lists.new.warnings.now ≡ P.lists_written second next ids gone.now joined.now notices map.entry.lanes.now map.entry.roads.now map.entry.junctions.now map.entry.rules.now (P.lists lists.old.created.now lists.old.modified.now lists.old.deleted.now lists.old.warnings.now) }
    ensures same_lists { SameLists lists.old lists.new }
{
    let created = &mut *lists.created;
    let modified = &mut *lists.modified;
    let deleted = &mut *lists.deleted;
    let warnings = &mut *lists.warnings;
    merge_lists::list_created(next, ids, created);
    merge_lists::list_modified(second, joined, map, modified);
    merge_lists::list_deleted(second, gone, deleted);
    merge_notices::warn(notices, warnings);
}

// ---- tables

// Roads and junctions forget the second lane; in the rules it reads as the first.
fn write_named(roads: &mut [u64], junctions: &mut [u64], rules: &mut [u64], first: u64, second: u64)
    requires { P.Named roads.old junctions.old rules.old }
    ensures { P.named roads.new junctions.new rules.new ≡ P.named_written first second (P.named roads.old junctions.old rules.old) }
{
    forgets::forget(roads, Rows::Roads, second);
    forgets::forget(junctions, Rows::Junctions, second);
    replaces::replace(rules, first, second);
}

// All tables.
fn write(join: f64, map: &mut lent::Map, i: usize, j: usize, plan: Plan, next: u64, gone: &[u64])
    requires { P.Writable join plan next gone.now i j (map_tables map.old) }
    ensures made { map_tables map.new ≡ P.written join plan next gone.now i j (map_tables map.old) }
    ensures same { SameSlices map.old map.new }
{
    let lanes = &mut *map.lanes;
    let boundaries = &mut *map.boundaries;
    let roads = &mut *map.roads;
    let junctions = &mut *map.junctions;
    let rules = &mut *map.rules;
    let stop_lines = &mut *map.stop_lines;
    let crosswalks = &mut *map.crosswalks;
    let coordinates = &mut *map.coordinates;
    let first = lanes[1 + i * LANE];
    let second = lanes[1 + j * LANE];
    let reach = reach::lines_reach(lanes, boundaries, stop_lines, crosswalks);
    write_named(roads, junctions, rules, first, second);
    let mut lines = lent::Lines {
        lanes: &mut *map.lanes,
        boundaries: &mut *map.boundaries,
        stop_lines: &mut *map.stop_lines,
        crosswalks: &mut *map.crosswalks,
        coordinates: &mut *map.coordinates,
    };
    merge_relay::relay(join, &mut lines, i, j, plan, next, reach, gone);
}

// ---- the edit

// Merges the lanes in rows i and j by a plan, where ids, the map and the lists have room; `gone` and `joined` are found already.
fn merge_with(
    counter: u64,
    join: f64,
    map: &mut lent::Map,
    i: usize,
    j: usize,
    plan: Plan,
    gone: &[u64],
    joined: &[u64],
    lists: &mut lent::Lists,
) -> Answer
    requires { P.Decided counter join i j plan gone.now joined.now (map_tables map.old) }
    ensures made { S.ended (given (counter_behind counter result) map.new lists.new) result ≡ P.merge_made join i j plan gone.now joined.now (given counter map.old lists.old) }
    ensures same { SameSlices map.old map.new }
    ensures same_lists { SameLists lists.old lists.new }
{
    let view = map.view();
    let next = room::next_id(counter);
    let second = view.lanes[1 + j * LANE];
    let notices = merge_notices::notices_of(view.lanes, i, j, plan.left, plan.right, next);
    if !merge_room::fits(view, i, j, plan, gone) {
        return Err(Refusal::NoRoom);
    }
    let warnings = merge_notices::count_notices(notices);
    let counts = count(second, plan, gone.len(), joined, warnings, view);
    let seen = lists.view();
    if !room::lists_fit(
        counts,
        seen.created,
        seen.modified,
        seen.deleted,
        seen.warnings,
    ) {
        return Err(Refusal::NoRoom);
    }
    write_lists(
        second,
        next,
        counts.created,
        gone,
        joined,
        notices,
        view,
        lists,
    );
    write(join, map, i, j, plan, next, gone);
    Ok(Change {
        counts,
        second: None,
    })
}

// The same with what goes and what is joined in place, found here.
pub fn merge_found(
    counter: u64,
    join: f64,
    map: &mut lent::Map,
    i: usize,
    j: usize,
    plan: Plan,
    lists: &mut lent::Lists,
) -> Answer
    requires { P.MayMerge counter join i j plan (map_tables map.old) }
    ensures made { S.ended (given (counter_behind counter result) map.new lists.new) result ≡ P.merge_found join i j plan (given counter map.old lists.old) }
    ensures same { SameSlices map.old map.new }
    ensures same_lists { SameLists lists.old lists.new }
{
    let lanes = &mut *map.lanes;
    let boundaries = &mut *map.boundaries;
    let left = plan.left;
    let right = plan.right;
    if !room::ids_left(counter, side_ids(left) + side_ids(right)) {
        return Err(Refusal::NoIds);
    }
    let one = lookup::boundary_ref(lanes, i, Side::Left).boundary;
    let two = lookup::boundary_ref(lanes, i, Side::Right).boundary;
    let mut gone = [0; MOST_GONE];
    let n = merge_gone::gone(lanes, i, j, left, right, boundaries, &mut gone);
    let mut joined = [0; MOST_JOINED];
    let m = merge_lists::joined_ids(left, one, right, two, &mut joined);
    merge_with(
        counter,
        join,
        map,
        i,
        j,
        plan,
        &gone[..n],
        &joined[..m],
        lists,
    )
}
