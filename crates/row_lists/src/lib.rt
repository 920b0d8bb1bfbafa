// map.rs: a list of ids in a row: an id taken out or put in its place, or the list written anew.
#![tactic(auto)]

ghost use Rattle.std.specs.Prelude.{◌≡◌, true, false, ◌+◌, ◌≤◌, ◌<◌, length};
ghost use Rattle.lists.specs.Select as L;
ghost use Rattle.lists.specs.Select.{without, has, ascending};
ghost use Rattle.tables.specs.View.{word, ids_at};
ghost use Rattle.store.specs.Rows.{set_list};

// An id taken out of the list at place k of a row, wherever it stands there.
pub fn forget(row: &mut [u64], k: usize, id: u64)
    requires { k + 1 + word k row.old ≤ length row.old }
    ensures { row.new ≡ set_list k (without id (ids_at k row.old)) row.old }
{
    let n = row[k] as usize;
    let from = k + 1;
    let to = from + n;
    let left = slots::remove(&mut row[from..to], n, id);
    row[k] = left as u64;
}

// An id put in its place in the ascending list at place k of a row, unless it stands there.
pub fn place(row: &mut [u64], k: usize, id: u64)
    requires { (k + 1 + word k row.old ≤ length row.old) × ((ascending (ids_at k row.old) ≡ true) × (has id (ids_at k row.old) ≡ false → k + 1 + word k row.old < length row.old)) }
    ensures { row.new ≡ set_list k (L.place id (ids_at k row.old)) row.old }
{
    let n = row[k] as usize;
    let from = k + 1;
    let to = from + n;
    if lists::contains(&row[from..to], id) {
        return;
    }
    let more = n + 1;
    let end = from + more;
    slots::insert(&mut row[from..end], n, id);
    row[k] = more as u64;
}

// Ids that become the list at place k of a row.
pub fn put_list(row: &mut [u64], k: usize, ids: &[u64])
    requires { k + 1 + length ids.now ≤ length row.old }
    ensures { row.new ≡ set_list k ids.now row.old }
{
    slots::copy(ids, row, k + 1);
    row[k] = ids.len() as u64;
}
