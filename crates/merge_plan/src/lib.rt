// edit/merge.rs: what a merge decides before anything is written. Lines are not drawn here: a joined line's points are counted from the two lines' own.
#![tactic(auto)]

ghost use Rattle.std.specs.Prelude.{◌≡◌, true, [], ◌<◌};
ghost use Rattle.tables.specs.View.{word};
ghost use Rattle.lookup.specs.Lookup as K;
ghost use Rattle.merge_plan.specs.Deciding as P;
ghost use Rattle.merge_plan.specs.Sides as S;

use entities::Refusal;
use lists::both;
use tables::LANE;

// How a side of two lanes is merged; of a joined line, the number of its points.
#[derive(Clone, Copy)]
pub enum Joined {
    Kept,
    InPlace(usize),
    Fresh(usize),
}

// Both sides, and how many points the joined explicit centreline has, where there is one.
#[derive(Clone, Copy)]
pub struct Plan {
    pub left: Joined,
    pub right: Joined,
    pub center: Option<usize>,
}

// ---- plans in numbers

// How many points a side draws.
pub fn side_points(plan: Joined) -> usize
    ensures { result ≡ S.side_points plan }
{
    match plan {
        Joined::Kept => 0,
        Joined::InPlace(n) => n,
        Joined::Fresh(n) => n,
    }
}

// How many ids a side allocates.
pub fn side_ids(plan: Joined) -> usize
    ensures { result ≡ S.side_ids plan }
{
    match plan {
        Joined::Kept => 0,
        Joined::InPlace(_) => 0,
        Joined::Fresh(_) => 1,
    }
}

pub fn is_fresh(plan: Joined) -> bool
    ensures { result ≡ S.is_fresh plan }
{
    match plan {
        Joined::Kept => false,
        Joined::InPlace(_) => false,
        Joined::Fresh(_) => true,
    }
}

// ---- may they be merged

// Whether a list holds one id alone.
fn only(ids: &[u64], id: u64) -> bool
    ensures { result ≡ P.holds_only ids.now id }
{
    if ids.len() == 1 {
        return ids[0] == id;
    }
    false
}

// Whether the lane in row j is the one that follows the lane in row i, and comes from it alone.
pub fn mergeable(lanes: &[u64], i: usize, j: usize) -> bool
    requires { P.Linked lanes.now i j }
    ensures { result ≡ P.follows (P.lane_in [] lanes.now i) (P.lane_in [] lanes.now j) }
{
    let first = lanes[1 + i * LANE];
    let second = lanes[1 + j * LANE];
    if first == second {
        return false;
    }
    both(
        only(lookup::successors(lanes, i), second),
        only(lookup::predecessors(lanes, j), first),
    )
}

// ---- one side

// Whether each of two boundaries is its lane's alone; the lanes are in rows i and j.
pub fn alone(lanes: &[u64], i: usize, one: u64, j: usize, two: u64) -> bool
    requires { (K.sorted_table 1024 52 lanes.now ≡ true) × ((i < word 0 lanes.now) × (j < word 0 lanes.now)) }
    ensures { result ≡ P.both_alone lanes.now i one j two }
{
    let first = lanes[1 + i * LANE];
    let second = lanes[1 + j * LANE];
    if uses::used_besides(lanes, one, first) {
        return false;
    }
    !uses::used_besides(lanes, two, second)
}

// ---- what is warned of

// Whether speed limits differ, as floats: two NaNs do. A mark of 0 is no limit.
pub fn speeds_differ(one: u64, x: u64, two: u64, y: u64) -> bool
    ensures { result ≡ P.speed_words one x two y }
{
    if one == 0 {
        return two != 0;
    }
    if two == 0 {
        return true;
    }
    bits::double(x) != bits::double(y)
}
