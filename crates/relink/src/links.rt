// The part of connect: the link of two rows. `gaps` has the gap between two lanes, `unlink` the part of disconnect.
ghost use Rattle.std.specs.Prelude.{◌≡◌, true, cond, ◌||◌, [], ◌≤◌, ◌<◌, length, take};
ghost use Rattle.lists.specs.Select.{has};
ghost use Rattle.rules.specs.Edit as E;
ghost use Rattle.tables.specs.View.{word};
ghost use Rattle.row_tests.specs.Returned.{searchable};
ghost use Rattle.topology.specs.Topology as T;
ghost use Rattle.relink.specs.Parts as P;

use entities::{IssueCode, Refusal};
use lists::both;
use report::{Answer, Change};
use tables::{LANE, PREDECESSORS, SUCCESSORS};

// Links in a list, at most.
const LINKS: u64 = 16;

// Whether the lane in row i leads to a lane.
pub fn leads(lanes: &[u64], i: usize, id: u64) -> bool
    requires { (searchable lanes.now ≡ true) × (i < word 0 lanes.now) }
    ensures { result ≡ has id (T.links_at lanes.now i 35) }
{
    let at = 1 + i * LANE + SUCCESSORS;
    let from = at + 1;
    let to = from + lanes[at] as usize;
    lists::contains(&lanes[from..to], id)
}

// Two lanes in id order, once each, or none.
pub fn pair_unless(skip: bool, a: u64, b: u64, ids: &mut [u64]) -> usize
    requires { 2 ≤ length ids.old }
    ensures { (take result ids.new ≡ cond skip [] (P.pair_of a b)) × (result ≡ length (cond skip [] (P.pair_of a b))) }
{
    if skip {
        return 0;
    }
    let n = report::named(ids, 0, a);
    report::named(ids, n, b)
}

// Whether a link that is not there yet has room in both lanes.
fn link_room(lanes: &[u64], i: usize, j: usize, linked: bool) -> bool
    requires { (searchable lanes.now ≡ true) × ((i < word 0 lanes.now) × (j < word 0 lanes.now)) }
    ensures { result ≡ (linked || P.link_room lanes.now i j) }
{
    if linked {
        return true;
    }
    both(
        lanes[1 + i * LANE + SUCCESSORS] < LINKS,
        lanes[1 + j * LANE + PREDECESSORS] < LINKS,
    )
}

// The link from row i to row j, unless it is there.
fn link_unless(lanes: &mut [u64], i: usize, j: usize, linked: bool)
    requires { P.Linkable lanes.old i j linked × ((linked || P.link_room lanes.old i j) ≡ true) }
    ensures { lanes.new ≡ T.lanes_changed (E.link_in (T.id_at lanes.old i) (T.id_at lanes.old j)) lanes.old }
{
    if linked {
        return;
    }
    linking::add_link(lanes, i, j);
}

// Links the lanes in rows i and j, where there is room.
pub fn link(
    lanes: &mut [u64],
    i: usize,
    j: usize,
    linked: bool,
    gap: bool,
    modified: &mut [u64],
    warnings: &mut [u64],
) -> Answer
    requires { P.Linkable lanes.old i j linked }
    ensures { P.links_written lanes.new modified.new warnings.new result ≡ P.linking lanes.old i j linked gap modified.old warnings.old }
{
    let from = lanes[1 + i * LANE];
    let to = lanes[1 + j * LANE];
    let first = report::pair_where(gap, IssueCode::GeometricGap, from, to);
    let second = report::no_op_where(linked, from);
    let mut ids = [0; 2];
    let n = pair_unless(linked, from, to, &mut ids);
    let room = link_room(lanes, i, j, linked);
    if both(room, notices::fits(n, first, second, modified, warnings)) {
        let counts = notices::report(&ids[..n], first, second, modified, warnings);
        link_unless(lanes, i, j, linked);
        let change = Change {
            counts,
            second: None,
        };
        return Ok(change);
    }
    Err(Refusal::NoRoom)
}
