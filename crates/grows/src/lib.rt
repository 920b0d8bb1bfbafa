// edit/split.rs: lists of lanes in rows, that gain each second half after its first: roads, junctions, and of a right of way those that have priority and those
// that yield.
#![tactic(auto)]

ghost use Rattle.std.specs.Prelude.{◌≡◌, true, suc, ◌+◌, ◌≤◌, length};
ghost use Rattle.store.specs.Rows.{on_rows};
ghost use Rattle.grows.specs.Growing as G;

// In the list at place k of a row, which has 64 slots.
pub fn grow_list(row: &mut [u64], k: usize, cut: &[u64], next: u64)
    requires { (G.Numbered next cut.now) × ((suc k + 64 ≤ length row.old) × (G.list_grows next cut.now k row.old ≡ true)) }
    ensures { row.new ≡ G.grows_at next cut.now k row.old }
{
    let n = row[k] as usize;
    let from = k + 1;
    let grown = grow::grow(&mut row[from..], n, cut, next);
    row[k] = grown.count as u64;
}

// In the list of every row of s words.
pub fn grow_rows(t: &mut [u64], s: usize, k: usize, cut: &[u64], next: u64)
    requires { G.Grows next cut.now s k t.old }
    ensures { t.new ≡ on_rows s (G.grows_at next cut.now k) t.old }
{
    row_walk::each_row(t, s, |row| grow_list(row, k, cut, next));
}
