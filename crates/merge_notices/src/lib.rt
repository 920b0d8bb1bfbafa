// edit/merge.rs: what a merge warns of.
#![tactic(auto)]

ghost use Rattle.std.specs.Prelude.{◌≡◌, ◌+◌, ◌*◌, ◌^◌, ◌≤◌, ◌<◌, length};
ghost use Rattle.report.specs.Report.{issues, warned};
ghost use Rattle.merge_plan.specs.Sides.{side_ids};
ghost use Rattle.merge_lists.specs.Changes as C;

use entities::{IssueCode, Side};
use merge_lists::Notices;
use merge_plan::{Joined, side_ids};
use report::Notice;
use tables::LANE;

// The warning of a new boundary.
fn unshared(plan: Joined, id: u64) -> Option<Notice>
    ensures { issues result ≡ C.unshared plan id }
{
    match plan {
        Joined::Kept => None,
        Joined::InPlace(_) => None,
        Joined::Fresh(_) => Some(Notice::Unshared(id)),
    }
}

// The warning that kind, speed limit or turn of the lanes in rows i and j differ.
fn conflicting(lanes: &[u64], i: usize, j: usize) -> Option<Notice>
    requires { C.Looked lanes.now i j }
    ensures { issues result ≡ C.conflicting lanes.now i j }
{
    let first = lanes[1 + i * LANE];
    let second = lanes[1 + j * LANE];
    let code = IssueCode::AttributeConflict;
    report::pair_where(merge_decide::conflict(lanes, i, j), code, first, second)
}

pub fn notices_of(
    lanes: &[u64],
    i: usize,
    j: usize,
    left: Joined,
    right: Joined,
    next: u64,
) -> Notices
    requires { (C.Looked lanes.now i j) × (next + side_ids left < 2 ^ 64) }
    ensures { C.issues_of result ≡ C.warnings_of lanes.now i j left right next }
{
    let second = next + side_ids(left) as u64;
    let conflict = conflicting(lanes, i, j);
    let dropped_left = merge_decide::dropped(lanes, i, j, Side::Left);
    let dropped_right = merge_decide::dropped(lanes, i, j, Side::Right);
    let one = unshared(left, next);
    let other = unshared(right, second);
    Notices {
        conflict,
        left: dropped_left,
        right: dropped_right,
        one,
        other,
    }
}

// How many there are.
pub fn count_notices(notices: Notices) -> usize
    ensures { result ≡ length (C.issues_of notices) }
{
    let conflict = notices.conflict;
    let left = notices.left;
    let right = notices.right;
    let one = notices.one;
    let other = notices.other;
    report::notice_count(conflict)
        + report::notice_count(left)
        + report::notice_count(right)
        + report::notice_count(one)
        + report::notice_count(other)
}

pub fn warn(notices: Notices, warnings: &mut [u64])
    requires { length (C.issues_of notices) * 10 ≤ length warnings.old }
    ensures { warnings.new ≡ warned warnings.old (C.issues_of notices) }
{
    let conflict = notices.conflict;
    let left = notices.left;
    let right = notices.right;
    let one = notices.one;
    let other = notices.other;
    let a = warnings::note(warnings, 0, conflict);
    let b = warnings::note(warnings, a, left);
    let c = warnings::note(warnings, b, right);
    let d = warnings::note(warnings, c, one);
    warnings::note(warnings, d, other);
}
