// edit/merge.rs: the change set of a merge, in the lists that are lent for it.
#![tactic(auto)]

ghost use Rattle.std.specs.Prelude.{◌≡◌, true, ◌+◌, ◌*◌, ◌^◌, ◌≤◌, ◌<◌, length, take};
ghost use Rattle.lists.specs.Rows.{over};
ghost use Rattle.lists.specs.Select.{ascending};
ghost use Rattle.rules.specs.Names.{BoundaryKind};
ghost use Rattle.rules.specs.Edit.{refs, up_from};
ghost use Rattle.report.specs.Report.{listed};
ghost use Rattle.merge_lists.specs.Changes as C;

use entities::EntityKind;
use lent::MapView;
use mentions::Rows;
use merge_plan::Joined;
use report::Notice;

// What a merge warns of, in the order raised: attributes that differ, the neighbours that are dropped left and right, the new boundaries left and right.
#[derive(Clone, Copy)]
pub struct Notices {
    pub conflict: Option<Notice>,
    pub left: Option<Notice>,
    pub right: Option<Notice>,
    pub one: Option<Notice>,
    pub other: Option<Notice>,
}

// ---- created

// The new boundaries.
pub fn list_created(next: u64, ids: usize, created: &mut [u64])
    requires { (next + ids ≤ 2 ^ 64) × (ids * 2 ≤ length created.old) }
    ensures { created.new ≡ listed created.old (refs BoundaryKind (up_from next ids)) }
{
    let kind = EntityKind::Boundary;
    report::list_up(kind, next, ids, created, 0);
}

// ---- modified

// A boundary put among the first n, if it is joined in place; how many there are then.
// The list lies at the front of its slots, which are fixed memory: the count stands beside it.
fn add_joined(plan: Joined, id: u64, out: &mut [u64], n: usize) -> usize
    requires { (n < length out.old) × (ascending (take n out.old) ≡ true) }
    ensures { (result ≡ length (C.with_joined plan id (take n out.old))) × (out.new ≡ over out.old 0 (C.with_joined plan id (take n out.old))) }
{
    match plan {
        Joined::Kept => n,
        Joined::InPlace(_) => report::named(out, n, id),
        Joined::Fresh(_) => n,
    }
}

// The boundaries that are joined in place, in id order, and how many there are.
pub fn joined_ids(
    left: Joined,
    left_id: u64,
    right: Joined,
    right_id: u64,
    out: &mut [u64],
) -> usize
    requires { 2 ≤ length out.old }
    ensures { (result ≡ length (C.joined_ids left left_id right right_id)) × (out.new ≡ over out.old 0 (C.joined_ids left left_id right right_id)) }
{
    let n = add_joined(left, left_id, out, 0);
    add_joined(right, right_id, out, n)
}

// How many lanes, boundaries, roads, junctions and rules are modified.
pub fn count_modified(second: u64, joined: &[u64], map: MapView) -> usize
    requires { (C.Formed map.lanes.now map.roads.now map.junctions.now map.rules.now) × (length joined.now ≤ 2) }
    ensures { result ≡ length (C.touched second joined.now map.entry.lanes.now map.entry.roads.now map.entry.junctions.now map.entry.rules.now) }
{
    let a = mentions::count(map.lanes, Rows::Lanes, second);
    let b = mentions::count(map.roads, Rows::Roads, second);
    let c = mentions::count(map.junctions, Rows::Junctions, second);
    let d = mentions::count(map.rules, Rows::Rules, second);
    a + joined.len() + b + c + d
}

// Their list.
pub fn list_modified(second: u64, joined: &[u64], map: MapView, modified: &mut [u64])
    requires { (C.Formed map.lanes.now map.roads.now map.junctions.now map.rules.now) × (length (C.touched second joined.now map.lanes.now map.roads.now map.junctions.now map.rules.now) * 2 ≤ length modified.old) }
    ensures { modified.new ≡ listed modified.old (C.touched second joined.now map.entry.lanes.now map.entry.roads.now map.entry.junctions.now map.entry.rules.now) }
{
    let kind = EntityKind::Boundary;
    let a = mentions::list(map.lanes, Rows::Lanes, second, modified, 0);
    let b = report::list_ids(kind, joined, modified, a);
    let c = mentions::list(map.roads, Rows::Roads, second, modified, b);
    let d = mentions::list(map.junctions, Rows::Junctions, second, modified, c);
    mentions::list(map.rules, Rows::Rules, second, modified, d);
}

// ---- deleted

// The second lane and the boundaries that go.
pub fn list_deleted(second: u64, gone: &[u64], deleted: &mut [u64])
    requires { length (C.leaving second gone.now) * 2 ≤ length deleted.old }
    ensures { deleted.new ≡ listed deleted.old (C.leaving second gone.now) }
{
    let lane = EntityKind::Lane;
    let boundary = EntityKind::Boundary;
    let lanes = [second];
    let n = report::list_ids(lane, &lanes, deleted, 0);
    report::list_ids(boundary, gone, deleted, n);
}
