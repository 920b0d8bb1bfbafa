// edit/split.rs: the second half of a cut lane, as a row.
#![tactic(auto)]

ghost use Rattle.std.specs.Prelude.{◌≡◌, true, ◌+◌, ◌*◌, ◌<◌, length};
ghost use Rattle.tables.specs.Formed.{lane_formed};
ghost use Rattle.split_rows.specs.Halves as D;

use tables::{
    LANE_ATTRIBUTES, LANE_CENTERLINE, LANE_ID, LANE_KIND, LANE_LEFT, LANE_LEFT_REVERSED,
    LANE_ONE_WAY, LANE_RIGHT, LANE_RIGHT_REVERSED, LANE_SPEED, LANE_TURN, LEFT_SLOT, PREDECESSORS,
    RIGHT_SLOT, SUCCESSORS,
};

const MEASURE: usize = 3;

const LANE_SPEED_BITS: usize = 10;

// What a second half has of the cut lane as it was: kind, boundaries, limit, attributes.
fn second_head(row: &mut [u64], old: &[u64], id: u64, left: u64, right: u64)
    requires { (length row.old ≡ 52) × (length old.now ≡ 52) }
    ensures { row.new ≡ D.head_row id left right old.now row.old }
{
    row[LANE_ID] = id;
    row[LANE_KIND] = old[LANE_KIND];
    row[LANE_LEFT] = left;
    row[LANE_LEFT_REVERSED] = old[LANE_LEFT_REVERSED];
    row[LANE_RIGHT] = right;
    row[LANE_RIGHT_REVERSED] = old[LANE_RIGHT_REVERSED];
    row[LANE_CENTERLINE] = old[LANE_CENTERLINE];
    row[LANE_SPEED] = old[LANE_SPEED];
    if old[LANE_SPEED] != 0 {
        row[LANE_SPEED_BITS] = old[LANE_SPEED_BITS];
    }
    row[LANE_ONE_WAY] = old[LANE_ONE_WAY];
    row[LANE_TURN] = old[LANE_TURN];
    row[LANE_ATTRIBUTES] = old[LANE_ATTRIBUTES];
}

// A second half's row written onto `row`, from the cut lane's row as it was. Words that it does not use stay.
pub fn second_half(
    row: &mut [u64],
    old: &[u64],
    pieces: &[u64],
    m: usize,
    cut: &[u64],
    next: u64,
    centers: &[u64],
    rank: usize,
)
    requires { (D.Halved pieces.now m cut.now next centers.now) × ((rank < length cut.now) × ((length row.old ≡ 52) × ((length old.now ≡ 52) × (lane_formed old.now ≡ true)))) }
    ensures { row.new ≡ D.second_row pieces.now m cut.now next centers.now rank old.now row.old }
{
    let measure = rank * MEASURE;
    let start = centers[measure] + centers[measure + 1];
    let size = centers[measure + 2];
    let left = split_rows::half_ref(
        old[LANE_LEFT],
        old[LANE_LEFT_REVERSED] != 0,
        pieces,
        m,
        true,
    );
    let right = split_rows::half_ref(
        old[LANE_RIGHT],
        old[LANE_RIGHT_REVERSED] != 0,
        pieces,
        m,
        true,
    );
    second_head(row, old, next + rank as u64, left, right);
    let on = old[LANE_CENTERLINE] != 0;
    split_rows::put_center(row, on, start, size);
    split_rows::second_slot(row, old, LEFT_SLOT, cut, next);
    split_rows::second_slot(row, old, RIGHT_SLOT, cut, next);
    let first = [old[LANE_ID]];
    row_lists::put_list(row, PREDECESSORS, &first);
    let from = SUCCESSORS + 1;
    let to = from + old[SUCCESSORS] as usize;
    row_lists::put_list(row, SUCCESSORS, &old[from..to]);
}
