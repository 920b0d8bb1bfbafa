// The net lists of a job, read off the tables of its two ends. Ids ascend in both, so that one walk through the two finds what only one of them has.
#![tactic(auto)]

ghost use Rattle.std.specs.Prelude.{◌≡◌, true, cond, not, [], ◌∷◌, ◌+◌, ◌*◌, ◌≤◌, ◌<◌, eqb, ltb, length, drop, get_or, ◌&&◌};
ghost use Rattle.lists.specs.Rows.{keys, over};
ghost use Rattle.lists.specs.Select.{each};
ghost use Rattle.report.specs.Report.{listed};
ghost use Rattle.tables.specs.View.{word};
ghost use Rattle.lent.specs.Lent.{view_rows};
ghost use Rattle.lookup.specs.Lookup.{sorted_table};
ghost use Rattle.job_marks.specs.Marks.{sorted_tables};
ghost use Rattle.job_net.specs.Net as N;

use job_marks::{
    BOUNDARY_KIND, BOUNDARY_MARKS, CROSSWALK_KIND, CROSSWALK_MARKS, JUNCTION_KIND, JUNCTION_MARKS,
    LANE_KIND, LANE_MARKS, ROAD_KIND, ROAD_MARKS, RULE_KIND, RULE_MARKS, STOP_LINE_KIND,
    STOP_LINE_MARKS,
};
use lent::MapView;
use report::Counts;
use tables::{BOUNDARY, CROSSWALK, JUNCTION, LANE, ROAD, RULE, STOP_LINE};

// Three lists that net lists are written to.
#[derive(Drop)]
pub struct NetLists<'a> {
    pub created: &'a mut [u64],
    pub modified: &'a mut [u64],
    pub deleted: &'a mut [u64],
}

// The same, for reading.
#[derive(Clone, Copy)]
pub struct NetView<'a> {
    pub created: &'a [u64],
    pub modified: &'a [u64],
    pub deleted: &'a [u64],
}

impl<'a> NetLists<'a> {
    pub fn view(&self) -> NetView<'_>
        ensures { N.SeenAs self.now result }
    {
        NetView {
            created: self.created,
            modified: self.modified,
            deleted: self.deleted,
        }
    }
}

// The first of n rows, from row `from` on, whose id is not below this one.
fn skip(rows: &[u64], s: usize, n: usize, from: usize, id: u64) -> usize
    requires { (0 < s) × ((n * s ≤ length rows.now) × (from ≤ n)) }
    ensures { result ≡ from + N.below id (drop from (keys s n rows.now)) }
{
    for j in from..n {
        if id <= rows[j * s] {
            return j;
        }
    }
    n
}

// Whether row j of n rows has this id; past them none has.
fn stands_at(rows: &[u64], s: usize, n: usize, j: usize, id: u64) -> bool
    requires { (0 < s) × (n * s ≤ length rows.now) }
    ensures { result ≡ (ltb j n && eqb (get_or (keys s n rows.now) j 0) id) }
{
    if j < n {
        return rows[j * s] == id;
    }
    false
}

// Whether an id is listed: of those that are kept, it has a mark and stands in the other table too; of the others, it does not stand there.
fn picked(kept: bool, marked: bool, stands: bool) -> bool
    ensures { result ≡ cond kept (marked && stands) (not stands) }
{
    if kept {
        return lists::both(marked, stands);
    }
    !stands
}

// The ids of a table that have a mark and stand in the other too, where `kept`, or else those that the other lacks: as entities, from place `at` of a list on.
fn list_ids(
    table: &[u64],
    other: &[u64],
    s: usize,
    marks: &[u64],
    kept: bool,
    kind: u64,
    out: &mut [u64],
    at: usize,
) -> usize
    requires { (0 < s) × ((sorted_table 4096 s table.now ≡ true) × ((sorted_table 4096 s other.now ≡ true) × ((word 0 table.now ≤ length marks.now) × ((at + word 0 table.now) * 2 ≤ length out.old)))) }
    ensures { (result ≡ at + length (N.picked_in kept (N.table_ids s other.now) marks.now (N.table_ids s table.now))) × (out.new ≡ over out.old (at * 2) (each (λ i. kind ∷ i ∷ []) (N.picked_in kept (N.table_ids s other.now) marks.now (N.table_ids s table.now)))) }
{
    let n = table[0] as usize;
    let others = other[0] as usize;
    let mut j = 0;
    let mut k = at;
    for i in 0..n {
        let id = table[1 + i * s];
        j = skip(&other[1..], s, others, j, id);
        let stands = stands_at(&other[1..], s, others, j, id);
        k = mentions::put_where(picked(kept, marks[i] == 1, stands), kind, id, out, k);
    }
    k
}

// A table as a job lists it: the words of its rows, where its marks begin, and the kind of its entities.
#[derive(Clone, Copy)]
struct Listed {
    words: usize,
    marks: usize,
    kind: u64,
}

const LANES: Listed = Listed {
    words: LANE,
    marks: LANE_MARKS,
    kind: LANE_KIND,
};

const BOUNDARIES: Listed = Listed {
    words: BOUNDARY,
    marks: BOUNDARY_MARKS,
    kind: BOUNDARY_KIND,
};

const ROADS: Listed = Listed {
    words: ROAD,
    marks: ROAD_MARKS,
    kind: ROAD_KIND,
};

const JUNCTIONS: Listed = Listed {
    words: JUNCTION,
    marks: JUNCTION_MARKS,
    kind: JUNCTION_KIND,
};

const STOP_LINES: Listed = Listed {
    words: STOP_LINE,
    marks: STOP_LINE_MARKS,
    kind: STOP_LINE_KIND,
};

const CROSSWALKS: Listed = Listed {
    words: CROSSWALK,
    marks: CROSSWALK_MARKS,
    kind: CROSSWALK_KIND,
};

const RULES: Listed = Listed {
    words: RULE,
    marks: RULE_MARKS,
    kind: RULE_KIND,
};

// What `list_ids` lists of a table, by the marks of all tables.
fn list_table(
    table: &[u64],
    other: &[u64],
    of: Listed,
    marks: &[u64],
    kept: bool,
    out: &mut [u64],
    at: usize,
) -> usize
    requires { (0 < of.words) × ((sorted_table 4096 of.words table.now ≡ true) × ((sorted_table 4096 of.words other.now ≡ true) × ((of.marks + word 0 table.now ≤ length marks.now) × ((at + word 0 table.now) * 2 ≤ length out.old)))) }
    ensures { (result ≡ at + length (N.picked_in kept (N.table_ids of.words other.now) (drop of.marks marks.now) (N.table_ids of.words table.now))) × (out.new ≡ over out.old (at * 2) (each (λ i. of.kind ∷ i ∷ []) (N.picked_in kept (N.table_ids of.words other.now) (drop of.marks marks.now) (N.table_ids of.words table.now)))) }
{
    let own = &marks[of.marks..];
    list_ids(table, other, of.words, own, kept, of.kind, out, at)
}

// What stands in the tables and has a mark and stands at the job's other end too, where `kept`, or else what that end lacks: as a list of entities from its front on;
// how many there are.
fn list_all(map: MapView, end: MapView, marks: &[u64], kept: bool, out: &mut [u64]) -> usize
    requires { (sorted_tables (view_rows map) ≡ true) × ((sorted_tables (view_rows end) ≡ true) × ((length marks.now ≡ 6784) × (13568 ≤ length out.old))) }
    ensures { (result ≡ length (N.all_picked kept (view_rows map.entry) (view_rows end.entry) marks.now)) × (out.new ≡ listed out.old (N.all_picked kept (view_rows map.entry) (view_rows end.entry) marks.now)) }
{
    let a = list_table(map.lanes, end.lanes, LANES, marks, kept, out, 0);
    let b = list_table(
        map.boundaries,
        end.boundaries,
        BOUNDARIES,
        marks,
        kept,
        out,
        a,
    );
    let c = list_table(map.roads, end.roads, ROADS, marks, kept, out, b);
    let d = list_table(map.junctions, end.junctions, JUNCTIONS, marks, kept, out, c);
    let e = list_table(
        map.stop_lines,
        end.stop_lines,
        STOP_LINES,
        marks,
        kept,
        out,
        d,
    );
    let f = list_table(
        map.crosswalks,
        end.crosswalks,
        CROSSWALKS,
        marks,
        kept,
        out,
        e,
    );
    list_table(map.rules, end.rules, RULES, marks, kept, out, f)
}

// The three net lists, each from its front on, and how many there are of each.
pub fn net_lists(
    map: MapView,
    old: MapView,
    marks: &[u64],
    net: &mut NetLists,
    told: usize,
) -> Counts
    requires { (sorted_tables (view_rows map) ≡ true) × ((sorted_tables (view_rows old) ≡ true) × ((length marks.now ≡ 6784) × ((length net.old.created.now ≡ 13568) × ((length net.old.modified.now ≡ 13568) × ((length net.old.deleted.now ≡ 13568)))))) }
    ensures made { N.NetListed (view_rows map.entry) (view_rows old.entry) marks.now told net.old.created.now net.old.modified.now net.old.deleted.now result net.new.created.now net.new.modified.now net.new.deleted.now }
    ensures same { N.SameNet net.old net.new }
{
    let created = &mut *net.created;
    let modified = &mut *net.modified;
    let deleted = &mut *net.deleted;
    Counts {
        created: list_all(map, old, marks, false, created),
        modified: list_all(old, map, marks, true, modified),
        deleted: list_all(old, map, marks, false, deleted),
        warnings: told,
    }
}
