// edit/split.rs: the table of lanes after a split.
#![tactic(auto)]

ghost use Rattle.std.specs.Prelude.{◌≡◌, true, ◌+◌, ◌*◌, ◌≤◌, ◌<◌, length};
ghost use Rattle.lists.specs.Rows.{over};
ghost use Rattle.tables.specs.Formed.{counted, lane_formed};
ghost use Rattle.store.specs.Rows.{on_rows};
ghost use Rattle.lookup.specs.Lookup.{row_at};
ghost use Rattle.split_rows.specs.Halves as W;
ghost use Rattle.split_tables.specs.Cut as D;

use tables::LANE;

// The second half of the lane in row i, written onto row `at`; the lane is at place `rank` among the cut ones.
fn put_half(
    t: &mut [u64],
    i: usize,
    at: usize,
    pieces: &[u64],
    m: usize,
    cut: &[u64],
    next: u64,
    centers: &[u64],
    rank: usize,
)
    requires { (W.Halved pieces.now m cut.now next centers.now) × ((rank < length cut.now) × ((i < at) × ((1 + at * 52 + 52 ≤ length t.old) × (lane_formed (row_at 52 t.old i) ≡ true)))) }
    ensures { t.new ≡ over t.old (1 + at * 52) (W.second_row pieces.now m cut.now next centers.now rank (row_at 52 t.old i) (row_at 52 t.old at)) }
{
    let from = 1 + i * LANE;
    let to = from + LANE;
    let begin = 1 + at * LANE;
    let end = begin + LANE;
    let mut old = [0; LANE];
    slots::copy(&t[from..to], &mut old, 0);
    split_second::second_half(
        &mut t[begin..end],
        &old,
        pieces,
        m,
        cut,
        next,
        centers,
        rank,
    );
}

// The second halves of the marked lanes behind the last row, not counted yet.
fn put_halves(
    t: &mut [u64],
    seen: &[bool],
    pieces: &[u64],
    m: usize,
    cut: &[u64],
    next: u64,
    centers: &[u64],
)
    requires { D.LanesCut pieces.now m cut.now next centers.now seen.now t.old }
    ensures { t.new ≡ D.halves_put pieces.now m cut.now next centers.now seen.now t.old }
{
    let n = t[0] as usize;
    let mut rank = 0;
    for i in 0..n {
        if seen[i] {
            put_half(t, i, n + rank, pieces, m, cut, next, centers, rank);
            rank += 1;
        }
    }
}

// Every row that is counted.
fn cut_rows(t: &mut [u64], pieces: &[u64], m: usize, cut: &[u64], next: u64, centers: &[u64])
    requires { (W.Halved pieces.now m cut.now next centers.now) × ((counted 1024 52 t.old ≡ true) × D.RowsCut next t.old) }
    ensures { t.new ≡ on_rows 52 (W.lane_cut pieces.now m cut.now next centers.now) t.old }
{
    row_walk::each_row(
        t,
        LANE,
        |row| split_first::cut_row(row, pieces, m, cut, next, centers),
    );
}

// The lanes after the split.
pub fn cut_lanes(
    t: &mut [u64],
    seen: &[bool],
    pieces: &[u64],
    m: usize,
    cut: &[u64],
    next: u64,
    centers: &[u64],
)
    requires { D.LanesCut pieces.now m cut.now next centers.now seen.now t.old }
    ensures { t.new ≡ D.lanes_cut pieces.now m cut.now next centers.now seen.now t.old }
{
    put_halves(t, seen, pieces, m, cut, next, centers);
    cut_rows(t, pieces, m, cut, next, centers);
    let n = t[0] as usize;
    t[0] = (n + cut.len()) as u64;
}
