// Whether no id stands twice in a list, in any order and whether its lanes are there or not.
#![tactic(auto)]

ghost use Rattle.std.specs.Prelude.{◌≡◌, ◌&&◌, leb};
ghost use Rattle.lists.specs.Every.{all};
ghost use Rattle.lists.specs.Select.{distinct};

// Marks for remainders of ids: a prime number, so that ids in even steps have marks of their own.
const MARKS: usize = 509;

// Each id has a mark, by its remainder; only where that is set are the ids before it looked through.
pub fn each_once(ids: &[u64]) -> bool
    ensures { result ≡ distinct ids.now }
{
    let mut seen = [false; MARKS];
    for i in 0..ids.len() {
        let mark = ids[i] as usize % MARKS;
        if seen[mark] {
            if lists::contains(&ids[..i], ids[i]) {
                return false;
            }
        }
        seen[mark] = true;
    }
    true
}

// No id passes a bound or stands twice. Of ids that ascend the last is the largest, and none is another.
pub fn lanes_good(ids: &[u64], most: u64) -> bool
    ensures { result ≡ (all (λ i. leb i most) ids.now && distinct ids.now) }
{
    if lists::ascends(ids) {
        if ids.len() == 0 {
            return true;
        }
        return ids[ids.len() - 1] <= most;
    }
    if lists::all_at_most(ids, most) {
        return each_once(ids);
    }
    false
}
