// A row of a table found by its id.
#![tactic(auto)]

ghost use Rattle.std.specs.Prelude.{◌≡◌, true, ◌*◌, ◌≤◌, ◌<◌, length};
ghost use Rattle.lists.specs.Select.{ascending};
ghost use Rattle.lists.specs.Rows.{keys, row_with, Among};

// Among `size` rows from row `from` on, the one whose first word is id, by halves; no other row has it. A turn has one test and no way out of the
// loop, so that the processor need not guess where a search ends. A table is lent rows, not a slice of ids, so the library's search has nothing to look in.
fn find_among(rows: &[u64], s: usize, n: usize, id: u64, from: usize, size: usize) -> Option<usize>
    requires { (0 < s) × ((n * s ≤ length rows.now) × ((ascending (keys s n rows.now) ≡ true) × Among (keys s n rows.now) id from size)) }
    ensures { result ≡ row_with id (keys s n rows.now) }
{
    let mut low = from;
    let mut left = size;
    while 1 < left {
        let half = left / 2;
        if rows[(low + half) * s] <= id {
            low += half;
        }
        left -= half;
    }
    if rows[low * s] == id {
        return Some(low);
    }
    None
}

// The row of n rows of s words whose first word is id: the first words ascend.
pub fn find_row(rows: &[u64], s: usize, n: usize, id: u64) -> Option<usize>
    requires { (0 < s) × ((n * s ≤ length rows.now) × (ascending (keys s n rows.now) ≡ true)) }
    ensures { result ≡ row_with id (keys s n rows.now) }
{
    if n == 0 {
        return None;
    }
    find_among(rows, s, n, id, 0, n)
}
