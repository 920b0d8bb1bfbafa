// The report of connect, disconnect and set_neighbor: the lanes that they name as modified, and two notices at most.
#![tactic(auto)]

ghost use Rattle.std.specs.Prelude.{◌≡◌, true, ◌++◌, ◌+◌, length};
ghost use Rattle.rules.specs.Names.{LaneKind};
ghost use Rattle.rules.specs.Edit as E;
ghost use Rattle.report.specs.Report as R;

use entities::EntityKind;
use lists::both;
use report::{Counts, ENTITY, Notice, WARNING};

// Whether the lists have places for so many lanes and for two notices.
pub fn fits(
    ids: usize,
    first: Option<Notice>,
    second: Option<Notice>,
    modified: &[u64],
    warnings: &[u64],
) -> bool
    ensures { result ≡ R.report_fits ids (length (R.issues first ++ R.issues second)) modified.now warnings.now }
{
    let ws = report::notice_count(first) + report::notice_count(second);
    both(
        ids <= modified.len() / ENTITY,
        ws <= warnings.len() / WARNING,
    )
}

// The lanes and the notices in the lists, and how many there are.
pub fn report(
    ids: &[u64],
    first: Option<Notice>,
    second: Option<Notice>,
    modified: &mut [u64],
    warnings: &mut [u64],
) -> Counts
    requires { R.report_fits (length ids.now) (length (R.issues first ++ R.issues second)) modified.old warnings.old ≡ true }
    ensures { (result ≡ record { created = 0; modified = length ids.now; deleted = 0; warnings = length (R.issues first ++ R.issues second) }) × ((modified.new ≡ R.listed modified.old (E.refs LaneKind ids.now)) × (warnings.new ≡ R.warned warnings.old (R.issues first ++ R.issues second))) }
{
    let kind = EntityKind::Lane;
    let listed = report::list_ids(kind, ids, modified, 0);
    let n = warnings::note(warnings, 0, first);
    let noted = warnings::note(warnings, n, second);
    Counts {
        created: 0,
        modified: listed,
        deleted: 0,
        warnings: noted,
    }
}
