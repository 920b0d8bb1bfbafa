// Where an id stands in an ascending list of ids. Most that are looked for lie outside the list, so its ends are tried first.
#![tactic(auto)]

ghost use Rattle.std.specs.Prelude.{◌≡◌, true, length};
ghost use Rattle.lists.specs.Rows.{keys, row_with};
ghost use Rattle.lists.specs.Select.{ascending};

pub fn rank(ids: &[u64], id: u64) -> Option<usize>
    requires { ascending (keys 1 (length ids.now) ids.now) ≡ true }
    ensures { result ≡ row_with id (keys 1 (length ids.now) ids.now) }
{
    let n = ids.len();
    if n == 0 {
        return None;
    }
    if id < ids[0] {
        return None;
    }
    if ids[n - 1] < id {
        return None;
    }
    find::find_row(ids, 1, n, id)
}
