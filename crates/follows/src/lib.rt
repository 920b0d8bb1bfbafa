// edit/split.rs: rules where lanes are cut. A rule's own lanes follow its anchor: the second half takes the place of the first where the anchor lies past the
// cut; without an anchor it comes behind the first. Those that have priority and those that yield gain the second halves.
#![tactic(auto)]

ghost use Rattle.std.specs.Prelude.{◌≡◌, true, ◌+◌, ◌≤◌, ◌<◌, length, take};
ghost use Rattle.lists.specs.Rows.{over};
ghost use Rattle.lists.specs.Select.{any, ascending, has};
ghost use Rattle.rules.specs.Turns.{swap_first};
ghost use Rattle.tables.specs.View.{word, ids_at};
ghost use Rattle.tables.specs.Formed.{rule_formed};
ghost use Rattle.mentions.specs.Naming.{change_at};
ghost use Rattle.grows.specs.Growing.{Numbered};
ghost use Rattle.follows.specs.Following as F;

use tables::{RIGHT_OF_WAY, RULE, RULE_KIND, RULE_LANES, RULE_PRIORITY, RULE_YIELDING};

// Marks of a rule, one for each place of its own lanes.
const MARKS: usize = 64;

// The place of the first `id` of a list, or its length.
fn first_place(ids: &[u64], id: u64) -> usize
    ensures { (result ≡ F.first_place id ids.now) × (result ≤ length ids.now) }
{
    for i in 0..ids.len() {
        if ids[i] == id {
            return i;
        }
    }
    ids.len()
}

// An id put behind the first `id` of a list of n ids, which stands at place p. From the back, so that none is overwritten before it is moved.
// The list lies at the front of its slots, which are fixed memory: the count stands beside it.
fn insert_behind(slots: &mut [u64], n: usize, p: usize, id: u64, second: u64)
    requires { (n < length slots.old) × ((p ≡ F.first_place id (take n slots.old)) × (p < n)) }
    ensures { slots.new ≡ over slots.old 0 (swap_first id (F.pair id second) (take n slots.old)) }
{
    slots.copy_within(p + 1..n, p + 2);
    slots[p + 1] = second;
}

// One cut lane in a rule's own lanes.
fn follow(row: &mut [u64], id: u64, second: u64, anchored: bool, past: &[bool])
    requires { (length row.old ≡ 330) × ((word 5 row.old ≤ 64) × ((length past.now ≡ 64) × (length (F.followed anchored past.now id second (ids_at 5 row.old)) ≤ 64))) }
    ensures { row.new ≡ change_at (F.followed anchored past.now id second) 5 row.old }
{
    let n = row[RULE_LANES] as usize;
    let from = RULE_LANES + 1;
    let to = from + n;
    let p = first_place(&row[from..to], id);
    if p == n {
        return;
    }
    if anchored {
        if past[p] {
            row[from + p] = second;
        }
        return;
    }
    let end = to + 1;
    insert_behind(&mut row[from..end], n, p, id, second);
    row[RULE_LANES] = (n + 1) as u64;
}

// All cut lanes.
fn follow_all(row: &mut [u64], cut: &[u64], next: u64, anchored: bool, past: &[bool])
    requires { (Numbered next cut.now) × ((length row.old ≡ 330) × ((word 5 row.old ≤ 64) × ((length past.now ≡ 64) × (length (F.followed_all anchored past.now next cut.now (ids_at 5 row.old)) ≤ 64)))) }
    ensures { row.new ≡ change_at (F.followed_all anchored past.now next cut.now) 5 row.old }
{
    for r in 0..cut.len() {
        follow(row, cut[r], next + r as u64, anchored, past);
    }
}

// A rule's row.
fn follow_rule(row: &mut [u64], cut: &[u64], next: u64, anchored: bool, past: &[bool])
    requires { (Numbered next cut.now) × ((length row.old ≡ 330) × ((length past.now ≡ 64) × (F.rule_room anchored past.now next cut.now row.old ≡ true))) }
    ensures { row.new ≡ F.rule_follows anchored past.now next cut.now row.old }
{
    let kind = row[RULE_KIND];
    follow_all(row, cut, next, anchored, past);
    if kind != RIGHT_OF_WAY {
        return;
    }
    grows::grow_list(row, RULE_PRIORITY, cut, next);
    grows::grow_list(row, RULE_YIELDING, cut, next);
}

// All rules; which have an anchor, and the marks of each, one rule behind the other.
pub fn follow_rules(t: &mut [u64], cut: &[u64], next: u64, anchored: &[bool], past: &[bool])
    requires { F.Follows anchored.now past.now next cut.now t.old }
    ensures { t.new ≡ F.rules_follow anchored.now past.now next cut.now t.old }
{
    let n = t[0] as usize;
    for i in 0..n {
        let at = 1 + i * RULE;
        let end = at + RULE;
        let first = i * MARKS;
        let last = first + MARKS;
        follow_rule(&mut t[at..end], cut, next, anchored[i], &past[first..last]);
    }
}

// ---- which differ

// Whether a rule's own lanes become others: a cut lane's second half comes behind it, or takes its place.
fn own_differ(row: &[u64], cut: &[u64], anchored: bool, past: &[bool]) -> bool
    requires { (length row.now ≡ 330) × ((word 5 row.now ≤ 64) × (length past.now ≡ 64)) }
    ensures { result ≡ F.own_differ anchored past.now cut.now (ids_at 5 row.now) }
{
    let n = row[RULE_LANES] as usize;
    let from = RULE_LANES + 1;
    let to = from + n;
    for r in 0..cut.len() {
        let p = first_place(&row[from..to], cut[r]);
        if p < n {
            if !anchored {
                return true;
            }
            if past[p] {
                return true;
            }
        }
    }
    false
}

// Whether the list at place k names a cut lane.
fn list_differs(row: &[u64], k: usize, cut: &[u64]) -> bool
    requires { (ascending cut.now ≡ true) × ((k + 1 + word k row.now ≤ length row.now) × (word k row.now ≤ 64)) }
    ensures { result ≡ any (λ i. has i cut.now) (ids_at k row.now) }
{
    let n = row[k] as usize;
    let from = k + 1;
    grow::count_cut(&row[from..], n, cut) != 0
}

// Whether a rule differs after the cut.
fn rule_differs(row: &[u64], cut: &[u64], anchored: bool, past: &[bool]) -> bool
    requires { (ascending cut.now ≡ true) × ((length row.now ≡ 330) × ((rule_formed row.now ≡ true) × (length past.now ≡ 64))) }
    ensures { result ≡ F.row_differs anchored past.now cut.now row.now }
{
    if own_differ(row, cut, anchored, past) {
        return true;
    }
    if row[RULE_KIND] != RIGHT_OF_WAY {
        return false;
    }
    if list_differs(row, RULE_PRIORITY, cut) {
        return true;
    }
    list_differs(row, RULE_YIELDING, cut)
}

// The rules that do.
pub fn mark_rules(t: &[u64], cut: &[u64], anchored: &[bool], past: &[bool], marks: &mut [bool])
    requires { F.Marking anchored.now past.now cut.now t.now marks.old }
    ensures { marks.new ≡ over marks.old 0 (F.rule_marks anchored.now past.now cut.now t.now) }
{
    let n = t[0] as usize;
    for i in 0..n {
        let at = 1 + i * RULE;
        let end = at + RULE;
        let first = i * MARKS;
        let last = first + MARKS;
        marks[i] = rule_differs(&t[at..end], cut, anchored[i], &past[first..last]);
    }
}
