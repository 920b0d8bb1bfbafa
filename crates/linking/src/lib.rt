// topology.rs: a link put into both of its lanes or taken out of both.
#![tactic(auto)]

ghost use Rattle.std.specs.Prelude.{◌≡◌, true, ◌⊎◌, ◌+◌, ◌*◌, ◌<◌};
ghost use Rattle.lists.specs.Rows.{over};
ghost use Rattle.lists.specs.Select.{place, without};
ghost use Rattle.rules.specs.Edit.{link_in, link_out};
ghost use Rattle.tables.specs.View.{word};
ghost use Rattle.row_tests.specs.Returned.{searchable};
ghost use Rattle.topology.specs.Topology as T;

use tables::{LANE, PREDECESSORS, SUCCESSORS};

// The slots of a list of links.
const LINKS: usize = 16;

// An id put in its place in the list at k of row i.
fn insert_sorted(lanes: &mut [u64], i: usize, k: usize, id: u64)
    requires { (searchable lanes.old ≡ true) × ((i < word 0 lanes.old) × (((k ≡ 18) ⊎ (k ≡ 35)) × T.Open (T.links_at lanes.old i k) id)) }
    ensures { lanes.new ≡ over lanes.old (1 + i * 52 + k) (T.link_words (place id (T.links_at lanes.old i k))) }
{
    let at = 1 + i * LANE + k;
    let n = lanes[at] as usize;
    let from = at + 1;
    let to = from + LINKS;
    slots::insert(&mut lanes[from..to], n, id);
    lanes[at] = n as u64 + 1;
}

// An id taken out of the list at k of row i.
fn remove_sorted(lanes: &mut [u64], i: usize, k: usize, id: u64)
    requires { (searchable lanes.old ≡ true) × ((i < word 0 lanes.old) × ((k ≡ 18) ⊎ (k ≡ 35))) }
    ensures { lanes.new ≡ over lanes.old (1 + i * 52 + k) (T.link_words (without id (T.links_at lanes.old i k))) }
{
    let at = 1 + i * LANE + k;
    let n = lanes[at] as usize;
    let from = at + 1;
    let to = from + LINKS;
    let left = slots::remove(&mut lanes[from..to], n, id);
    lanes[at] = left as u64;
}

// The link from the lane in row i to the lane in row j, in both lanes.
pub fn add_link(lanes: &mut [u64], i: usize, j: usize)
    requires { (searchable lanes.old ≡ true) × ((i < word 0 lanes.old) × ((j < word 0 lanes.old) × (T.Open (T.links_at lanes.old i 35) (T.id_at lanes.old j) × T.Open (T.links_at lanes.old j 18) (T.id_at lanes.old i)))) }
    ensures { lanes.new ≡ T.lanes_changed (link_in (T.id_at lanes.old i) (T.id_at lanes.old j)) lanes.old }
{
    let from = lanes[1 + i * LANE];
    let to = lanes[1 + j * LANE];
    insert_sorted(lanes, i, SUCCESSORS, to);
    insert_sorted(lanes, j, PREDECESSORS, from);
}

// The same link taken out of both.
pub fn remove_link(lanes: &mut [u64], i: usize, j: usize)
    requires { (searchable lanes.old ≡ true) × ((i < word 0 lanes.old) × (j < word 0 lanes.old)) }
    ensures { lanes.new ≡ T.lanes_changed (link_out (T.id_at lanes.old i) (T.id_at lanes.old j)) lanes.old }
{
    let from = lanes[1 + i * LANE];
    let to = lanes[1 + j * LANE];
    remove_sorted(lanes, i, SUCCESSORS, to);
    remove_sorted(lanes, j, PREDECESSORS, from);
}
