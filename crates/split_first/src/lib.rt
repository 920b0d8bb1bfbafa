// edit/split.rs: the first half of a cut lane, and every row of a lane after the split.
#![tactic(auto)]

ghost use Rattle.std.specs.Prelude.{◌≡◌, true, ◌+◌, ◌*◌, ◌<◌, length};
ghost use Rattle.tables.specs.Formed.{lane_formed};
ghost use Rattle.split_rows.specs.Halves as D;

use tables::{
    LANE_CENTERLINE, LANE_ID, LANE_LEFT, LANE_LEFT_REVERSED, LANE_RIGHT, LANE_RIGHT_REVERSED,
    LEFT_SLOT, RIGHT_SLOT, SUCCESSORS,
};

const MEASURE: usize = 3;

// A cut lane's row becomes its first half's, but for its predecessors.
fn first_half(
    row: &mut [u64],
    pieces: &[u64],
    m: usize,
    cut: &[u64],
    next: u64,
    centers: &[u64],
    rank: usize,
)
    requires { (D.Halved pieces.now m cut.now next centers.now) × ((rank < length cut.now) × ((length row.old ≡ 52) × (lane_formed row.old ≡ true))) }
    ensures { row.new ≡ D.first_row pieces.now m cut.now next centers.now rank row.old }
{
    let measure = rank * MEASURE;
    let second = [next + rank as u64];
    row[LANE_LEFT] = split_rows::half_ref(
        row[LANE_LEFT],
        row[LANE_LEFT_REVERSED] != 0,
        pieces,
        m,
        false,
    );
    row[LANE_RIGHT] = split_rows::half_ref(
        row[LANE_RIGHT],
        row[LANE_RIGHT_REVERSED] != 0,
        pieces,
        m,
        false,
    );
    let on = row[LANE_CENTERLINE] != 0;
    split_rows::put_center(row, on, centers[measure], centers[measure + 1]);
    split_rows::first_slot(row, LEFT_SLOT, cut, next);
    split_rows::first_slot(row, RIGHT_SLOT, cut, next);
    row_lists::put_list(row, SUCCESSORS, &second);
}

// Any lane's row after the split.
pub fn cut_row(row: &mut [u64], pieces: &[u64], m: usize, cut: &[u64], next: u64, centers: &[u64])
    requires { (D.Halved pieces.now m cut.now next centers.now) × (D.RowCuts next row.old) }
    ensures { row.new ≡ D.lane_cut pieces.now m cut.now next centers.now row.old }
{
    let found = find::find_row(cut, 1, cut.len(), row[LANE_ID]);
    match found {
        Some(rank) => {
            first_half(row, pieces, m, cut, next, centers, rank);
        }
        None => {}
    }
    split_rows::come_from(row, cut, next);
}
