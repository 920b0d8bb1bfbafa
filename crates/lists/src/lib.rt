// Lists and rows in lent words. A list is a slice whole; a table's rows are cut from it by their length.
#![tactic(auto)]

ghost use Rattle.std.specs.Prelude.{◌≡◌, true, false, ◌&&◌, ◌-◌, ◌*◌, ◌≤◌, ◌<◌, leb, eqb, length, take};
ghost use Rattle.lists.specs.Every.{all};
ghost use Rattle.lists.specs.Select.{keep, has, ascending};
ghost use Rattle.lists.specs.Rows.{keys};

// Both, with no branch.
pub fn both(a: bool, b: bool) -> bool
    ensures { result ≡ (a && b) }
{
    a && b
}

// Whether an id stands in a list.
pub fn contains(ids: &[u64], id: u64) -> bool
    ensures { result ≡ has id ids.now }
{
    for x in ids {
        if id == *x {
            return true;
        }
    }
    false
}

// Whether each id is larger than the one before.
pub fn ascends(ids: &[u64]) -> bool
    ensures { result ≡ ascending ids.now }
{
    for i in 1..ids.len() {
        if ids[i] <= ids[i - 1] {
            return false;
        }
    }
    true
}

// Whether no id of a list passes a bound.
pub fn all_at_most(ids: &[u64], most: u64) -> bool
    ensures { result ≡ all (λ i. leb i most) ids.now }
{
    for id in ids {
        if most < *id {
            return false;
        }
    }
    true
}

// Whether the first words of n rows of s words ascend.
pub fn keys_ascend(rows: &[u64], s: usize, n: usize) -> bool
    requires { (0 < s) × (n * s ≤ length rows.now) }
    ensures { result ≡ ascending (keys s n rows.now) }
{
    for i in 1..n {
        if rows[i * s] <= rows[(i - 1) * s] {
            return false;
        }
    }
    true
}

// How often an id stands in a list.
pub fn count_of(ids: &[u64], id: u64) -> usize
    ensures { result ≡ length (keep (eqb id) ids.now) }
{
    let mut count = 0;
    for x in ids {
        if id == *x {
            count += 1;
        }
    }
    count
}
