// Lists that grow: each cut lane is followed by its second half. A list's n ids are the front of the slots of a lent row, which it grows into: fixed memory.
#![tactic(auto)]

ghost use Rattle.std.specs.Prelude.{◌≡◌, true, ◌+◌, ◌-◌, ◌^◌, ◌≤◌, ◌<◌, length, get_or, take};
ghost use Rattle.lists.specs.Select.{keep, has, ascending, with_second, insert_after, numbered, written_behind};
ghost use Rattle.lists.specs.Rows.{over};
ghost use Rattle.grow.specs.Moves.{moved_to};

// How many ids of a list of n ids stand in an ascending list of cut lanes.
pub fn count_cut(ids: &[u64], n: usize, cut: &[u64]) -> usize
    requires { (n ≤ length ids.now) × (ascending cut.now ≡ true) }
    ensures { result ≡ length (keep (λ i. has i cut.now) (take n ids.now)) }
{
    let mut count = 0;
    for i in 0..n {
        if let Some(_) = rank::rank(cut, ids[i]) {
            count += 1;
        }
    }
    count
}

// Where an id was moved to: the first of its slots, and how many were written.
#[derive(Clone, Copy)]
struct Moved {
    to: usize,
    written: usize,
}

// The id at place i put into the slots that end before `to`, with its second half behind it if it is cut. An id that stays where it is is not written.
fn move_up(slots: &mut [u64], i: usize, to: usize, cut: &[u64], next: u64) -> Moved
    requires { (i + 1 < to) × ((to ≤ length slots.old) × ((ascending cut.now ≡ true) × (next + length cut.now ≤ 2 ^ 64))) }
    ensures { (result ≡ moved_to i to (with_second (numbered next cut.now) (get_or slots.old i 0))) × (slots.new ≡ over slots.old result.to (with_second (numbered next cut.now) (get_or slots.old i 0))) }
{
    let id = slots[i];
    let last = to - 1;
    let Some(r) = rank::rank(cut, id) else {
        slots[last] = id;
        return Moved {
            to: last,
            written: 1,
        };
    };
    let second = next + r as u64;
    slots[last] = second;
    if i + 2 == to {
        return Moved { to: i, written: 1 };
    }
    let front = to - 2;
    slots[front] = id;
    Moved {
        to: front,
        written: 2,
    }
}

// What growing a list has left: how many ids it has then, and how many were written.
#[derive(Clone, Copy)]
pub struct Grown {
    pub count: usize,
    pub written: usize,
}

// Each cut lane's second half put after every occurrence of its first in a list of n ids; the second half of the cut lane at place r is next + r. In place, from
// the back: an id is written once, and none before or at the first cut lane. The slots past the list stay. The two ends move by what was written, so no range counts them.
pub fn grow(slots: &mut [u64], n: usize, cut: &[u64], next: u64) -> Grown
    requires { (n ≤ length slots.old) × ((ascending cut.now ≡ true) × ((next + length cut.now ≤ 2 ^ 64) × (length (insert_after (numbered next cut.now) (take n slots.old)) ≤ length slots.old))) }
    ensures { (result ≡ record { count = length (insert_after (numbered next cut.now) (take n slots.old)); written = written_behind (numbered next cut.now) (take n slots.old) }) × (slots.new ≡ over slots.old 0 (insert_after (numbered next cut.now) (take n slots.old))) }
{
    let total = n + count_cut(slots, n, cut);
    let mut i = n;
    let mut to = total;
    let mut written = 0;
    while i < to {
        i -= 1;
        let moved = move_up(slots, i, to, cut, next);
        to = moved.to;
        written += moved.written;
    }
    Grown {
        count: total,
        written,
    }
}
