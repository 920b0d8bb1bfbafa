// How a map is written back into lent memory: the definitions and their theorems, and the moves of words that edits share.
#![tactic(auto)]

ghost use Rattle.std.specs.Prelude.{◌≡◌, not, cond, ◌+◌, ◌*◌, ◌≤◌, ◌<◌, length, take, drop};
ghost use Rattle.lists.specs.Rows.{over};
ghost use Rattle.lists.specs.Select.{has};
ghost use Rattle.tables.specs.View.{word};
ghost use Rattle.store.specs.Rows.{stays, kept_rows};

use lists::both;

// Row i moved down to row `kept` if it stays; how many rows are kept then.
fn keep_row(t: &mut [u64], s: usize, stay: bool, i: usize, kept: usize) -> usize
    requires { (0 < s) × ((1 + i * s + s ≤ length t.old) × (kept ≤ i)) }
    ensures { (result ≡ cond stay (kept + 1) kept) × (t.new ≡ cond stay (over t.old (1 + kept * s) (take s (drop (1 + i * s) t.old))) t.old) }
{
    if stay {
        slots::move_down(t, 1 + kept * s, 1 + i * s, s);
        return kept + 1;
    }
    kept
}

// The rows with neither of two ids, moved to the front of a table; what lies behind them stays.
pub fn keep_rows(t: &mut [u64], s: usize, a: u64, b: u64)
    requires { (0 < s) × (1 + word 0 t.old * s ≤ length t.old) }
    ensures { t.new ≡ kept_rows s (stays a b) t.old }
{
    let n = t[0] as usize;
    let mut kept = 0;
    for i in 0..n {
        let id = t[1 + i * s];
        kept = keep_row(t, s, both(id != a, id != b), i, kept);
    }
    t[0] = kept as u64;
}

// The rows whose ids are not among `gone`, moved to the front of a table; what lies behind them stays.
pub fn drop_rows(t: &mut [u64], s: usize, gone: &[u64])
    requires { (0 < s) × (1 + word 0 t.old * s ≤ length t.old) }
    ensures { t.new ≡ kept_rows s (λ i. not (has i gone.now)) t.old }
{
    let n = t[0] as usize;
    let mut kept = 0;
    for i in 0..n {
        let id = t[1 + i * s];
        let stay = !lists::contains(gone, id);
        kept = keep_row(t, s, stay, i, kept);
    }
    t[0] = kept as u64;
}
