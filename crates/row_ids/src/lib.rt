// The ids of a table's rows, side by side in an array, and the row with an id. They lie close together there, and no step of the search is a jump that the
// processor could guess wrong: a search does not wait for the one before it.
#![tactic(auto)]

ghost use Rattle.std.specs.Prelude.{◌≡◌, cond, ◌*◌, ◌≤◌, ◌<◌, ltb, length, take};
ghost use Rattle.lists.specs.Rows.{keys, row_with};
ghost use Rattle.row_ids.specs.Listed.{Spare, Listed, Ready};

// As many ids as a table can have rows. The array is full, with a count n beside it: fixed memory, and a search whose size is known before.
pub const ROOM: usize = 1024;

// What stands where no id does: no word is larger.
pub const NO_ID: u64 = 18446744073709551615;

// The first words of n rows of s words, at the front of an array with no id in it.
pub fn list_ids(rows: &[u64], s: usize, n: usize, ids: &mut [u64])
    requires { (0 < s) × ((n * s ≤ length rows.now) × ((n ≤ 1024) × ((length ids.old ≡ 1024) × Spare 0 ids.old))) }
    ensures { Listed (keys s n rows.now) ids.new }
{
    for i in 0..n {
        ids[i] = rows[i * s];
    }
}

// A half to go past, or nothing: a sum, where a choice between two places would become a jump.
fn past(key: u64, id: u64, half: usize) -> usize
    ensures { result ≡ cond (ltb key id) half 0 }
{
    if key < id {
        return half;
    }
    0
}

// The row of the first n that has an id, by halves of the whole array, whose size is known before.
fn find_listed(ids: &[u64], n: usize, id: u64) -> Option<usize>
    requires { Ready n ids.now }
    ensures { result ≡ row_with id (take n ids.now) }
{
    let mut low = 0;
    let mut left = ROOM;
    while 1 < left {
        let half = left / 2;
        low += past(ids[low + half - 1], id, half);
        left -= half;
    }
    if low < n {
        if ids[low] == id {
            return Some(low);
        }
    }
    None
}

// Where an id stands if no id between it and that of row `near` is missing; some row if not.
fn guess(ids: &[u64], n: usize, id: u64, near: usize) -> usize
    requires { (n ≤ length ids.now) × (near < n) }
    ensures { result < n }
{
    let here = ids[near];
    if here <= id {
        if id - here < (n - near) as u64 {
            return near + (id - here) as usize;
        }
        return near;
    }
    if here - id <= near as u64 {
        return near - (here - id) as usize;
    }
    near
}

// The row beside row `near`, on the side of an id.
fn beside(ids: &[u64], n: usize, id: u64, near: usize) -> usize
    requires { (n ≤ length ids.now) × (near < n) }
    ensures { result < n }
{
    if ids[near] < id {
        if near + 1 < n {
            return near + 1;
        }
        return near;
    }
    if 0 < near {
        return near - 1;
    }
    near
}

// The row of the first n that has an id: most ids that a lane names stand where the difference of the ids says, or beside it. Nothing rests on these two looks.
pub fn find_id(ids: &[u64], n: usize, id: u64, near: usize) -> Option<usize>
    requires { (near < n) × Ready n ids.now }
    ensures { result ≡ row_with id (take n ids.now) }
{
    let row = guess(ids, n, id, near);
    if ids[row] == id {
        return Some(row);
    }
    let next = beside(ids, n, id, near);
    if ids[next] == id {
        return Some(next);
    }
    find_listed(ids, n, id)
}
