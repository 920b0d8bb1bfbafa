// A walk over the rows of a table, each of which is changed in its place.
#![tactic(auto)]

ghost use Rattle.std.specs.Prelude.{◌≡◌, ℕ, ◌+◌, ◌*◌, ◌<◌, ◌≤◌, List, length};
ghost use Rattle.store.specs.Rows.{on_rows};
ghost use Rattle.tables.specs.View.{word};
ghost use Rattle.lookup.specs.Lookup.{row_at};

// Every row that the table counts is changed. A row has `row` words, and each is lent alone.
pub fn each_row<F: Fn(&mut [u64])>(t: &mut [u64], row: usize, change: F)
    requires room { 1 + word 0 t.old * row ≤ length t.old }
    requires takes_rows { (i : ℕ) → i < word 0 t.old → (w : _) → w.now ≡ row_at row t.old i → F.pre change w }
    ensures { (g : List ℕ → List ℕ) → ((i : ℕ) → i < word 0 t.old → (w : _) → (v : _) → w.now ≡ row_at row t.old i → F.post change w tt v → v.now ≡ g (row_at row t.old i)) → t.new ≡ on_rows row g t.old }
{
    let n = t[0] as usize;
    for i in 0..n {
        let at = 1 + i * row;
        let end = at + row;
        change(&mut t[at..end]);
    }
}
