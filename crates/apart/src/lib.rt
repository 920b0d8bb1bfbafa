// "no stored point belongs to two lines": marks, one pass over the points.
#![tactic(auto)]

ghost use Rattle.std.specs.Prelude.{◌≡◌, true, false, ◌+◌, ◌≤◌, ◌<◌, length};
ghost use Rattle.apart.specs.Marks as G;

// Whether none of a line's points is marked.
fn unmarked(marks: &[bool], start: usize, size: usize) -> bool
    requires { start + size ≤ length marks.now }
    ensures { result ≡ G.unmarked marks.now (record { start = start; size = size }) }
{
    for i in 0..size {
        if marks[start + i] {
            return false;
        }
    }
    true
}

// The points of a line marked.
fn mark_line(marks: &mut [bool], start: usize, size: usize)
    requires { start + size ≤ length marks.old }
    ensures { marks.new ≡ G.marked marks.old (record { start = start; size = size }) }
{
    for i in 0..size {
        marks[start + i] = true;
    }
}

// A line finds its points unmarked, and marks them; else the marks stay.
pub fn take_line(marks: &mut [bool], start: u64, size: u64) -> bool
    requires { G.within (length marks.old) (record { start = start; size = size }) ≡ true }
    ensures { (result ≡ G.unmarked marks.old (record { start = start; size = size })) × (marks.new ≡ G.taken marks.old (record { start = start; size = size })) }
{
    if size == 0 {
        return true;
    }
    let a = start as usize;
    let n = size as usize;
    if unmarked(marks, a, n) {
        mark_line(marks, a, n);
        return true;
    }
    false
}
