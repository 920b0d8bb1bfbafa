// Lists in lent words written: ids put in, taken out, replaced and moved. A list's n ids are the front of its slots in a lent row, with the count in a word before
// them (the C interface), so a number goes with the slots where they are more than the list.
#![tactic(auto)]

ghost use Rattle.std.specs.Prelude.{◌≡◌, true, false, cond, [], ◌∷◌, ◌++◌, map, ◌+◌, ◌-◌, ◌≤◌, ◌<◌, eqb, length, take, drop};
ghost use Rattle.lists.specs.Select.{has, ascending, place, without};
ghost use Rattle.lists.specs.Rows.{over};

// An id put in its place in an ascending list of n ids that lacks it; the slots past the list stay.
pub fn insert(slots: &mut [u64], n: usize, id: u64)
    requires { (n < length slots.old) × ((ascending (take n slots.old) ≡ true) × (has id (take n slots.old) ≡ false)) }
    ensures { slots.new ≡ over slots.old 0 (place id (take n slots.old)) }
{
    for i in (0..n).rev() {
        let before = slots[i];
        if before < id {
            slots[i + 1] = id;
            return;
        }
        slots[i + 1] = before;
    }
    slots[0] = id;
}

// Every id of a list of n ids taken out; how many are left. The slots past them stay.
pub fn remove(slots: &mut [u64], n: usize, id: u64) -> usize
    requires { n ≤ length slots.old }
    ensures { (result ≡ length (without id (take n slots.old))) × (slots.new ≡ over slots.old 0 (without id (take n slots.old))) }
{
    let mut left = 0;
    for i in 0..n {
        let x = slots[i];
        if id != x {
            slots[left] = x;
            left += 1;
        }
    }
    left
}

// Every `from` in a list becomes `to`.
pub fn replace(ids: &mut [u64], from: u64, to: u64)
    ensures { ids.new ≡ map (λ x. cond (eqb x from) to x) ids.old }
{
    for i in 0..ids.len() {
        if ids[i] == from {
            ids[i] = to;
        }
    }
}

// n words moved from a place down to another.
pub fn move_down(words: &mut [u64], to: usize, from: usize, n: usize)
    requires { (to ≤ from) × (from + n ≤ length words.old) }
    ensures { words.new ≡ over words.old to (take n (drop from words.old)) }
{
    words.copy_within(from..from + n, to);
}

// An id put behind a list of n ids; the slots past it stay.
pub fn append(slots: &mut [u64], n: usize, id: u64)
    requires { n < length slots.old }
    ensures { slots.new ≡ over slots.old 0 (take n slots.old ++ (id ∷ [])) }
{
    slots[n] = id;
}

// A list written over another from a place on.
pub fn copy(from: &[u64], to: &mut [u64], at: usize)
    requires { at + length from.now ≤ length to.old }
    ensures { to.new ≡ over to.old at from.now }
{
    let end = at + from.len();
    to[at..end].copy_from_slice(from);
}
