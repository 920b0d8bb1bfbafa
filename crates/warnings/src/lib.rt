// diagnostics.rs: warnings written as rows of ten words.
#![tactic(auto)]

ghost use Rattle.std.specs.Prelude.{◌≡◌, true, false, [], ◌∷◌, ◌+◌, ◌*◌, ◌≤◌, length};
ghost use Rattle.report.specs.declared.Notice.TheVariants as N;
ghost use Rattle.store.specs.Store.{flag};
ghost use Rattle.report.specs.Report as R;

use entities::{EntityKind, IssueCode, Severity};
use report::{Notice, WARNING};

// Words of a warning.
const SEVERITY: usize = 0;

const CODE: usize = 1;

const KIND: usize = 2;

const ID: usize = 3;

const RELATED: usize = 4;

const RELATED_KIND: usize = 5;

const RELATED_ID: usize = 6;

const SECOND_KIND: usize = 7;

const SECOND_ID: usize = 8;

const FIX: usize = 9;

// A mark for the removal fix.
fn fix_mark(fix: bool) -> u64
    ensures { result ≡ flag fix }
{
    if fix {
        return 1;
    }
    0
}

// A warning of one entity, in row `at`.
fn put_single(
    warnings: &mut [u64],
    at: usize,
    severity: Severity,
    code: IssueCode,
    kind: EntityKind,
    id: u64,
    fix: bool,
)
    requires { at * 10 + 10 ≤ length warnings.old }
    ensures { warnings.new ≡ R.warned_at at warnings.old (R.single severity code kind id fix ∷ []) }
{
    let row = at * WARNING;
    warnings[row + SEVERITY] = u64::from(severity);
    warnings[row + CODE] = u64::from(code);
    warnings[row + KIND] = u64::from(kind);
    warnings[row + ID] = id;
    warnings[row + RELATED] = 0;
    warnings[row + FIX] = fix_mark(fix);
}

// A warning of a lane and another, in row `at`.
fn put_pair(warnings: &mut [u64], at: usize, code: IssueCode, lane: u64, other: u64)
    requires { at * 10 + 10 ≤ length warnings.old }
    ensures { warnings.new ≡ R.warned_at at warnings.old (R.issue_of (N.Pair code lane other) ∷ []) }
{
    let row = at * WARNING;
    warnings[row + SEVERITY] = u64::from(Severity::Warning);
    warnings[row + CODE] = u64::from(code);
    warnings[row + KIND] = u64::from(EntityKind::Lane);
    warnings[row + ID] = lane;
    warnings[row + RELATED] = 1;
    warnings[row + RELATED_KIND] = u64::from(EntityKind::Lane);
    warnings[row + RELATED_ID] = other;
    warnings[row + FIX] = 0;
}

// The warning of a boundary and of the two pieces that cut lanes have in its place, in row `at`.
fn put_pieces(warnings: &mut [u64], at: usize, boundary: u64, first: u64, second: u64)
    requires { at * 10 + 10 ≤ length warnings.old }
    ensures { warnings.new ≡ R.warned_at at warnings.old (R.issue_of (N.Pieces boundary first second) ∷ []) }
{
    let row = at * WARNING;
    let kind = u64::from(EntityKind::Boundary);
    warnings[row + SEVERITY] = u64::from(Severity::Warning);
    warnings[row + CODE] = u64::from(IssueCode::BoundaryUnshared);
    warnings[row + KIND] = kind;
    warnings[row + ID] = boundary;
    warnings[row + RELATED] = 2;
    warnings[row + RELATED_KIND] = kind;
    warnings[row + RELATED_ID] = first;
    warnings[row + SECOND_KIND] = kind;
    warnings[row + SECOND_ID] = second;
    warnings[row + FIX] = 0;
}

// The warning that a rule is left with no lane, in row `at`.
pub fn put_orphan(warnings: &mut [u64], at: usize, rule: u64)
    requires { at * 10 + 10 ≤ length warnings.old }
    ensures { warnings.new ≡ R.warned_at at warnings.old (R.orphan_rule rule ∷ []) }
{
    let rules = EntityKind::RegulatoryElement;
    put_single(
        warnings,
        at,
        Severity::Warning,
        IssueCode::OrphanRule,
        rules,
        rule,
        true,
    );
}

fn put_notice(warnings: &mut [u64], at: usize, notice: Notice)
    requires { at * 10 + 10 ≤ length warnings.old }
    ensures { warnings.new ≡ R.warned_at at warnings.old (R.issue_of notice ∷ []) }
{
    match notice {
        Notice::NoOp(lane) => {
            let lanes = EntityKind::Lane;
            put_single(
                warnings,
                at,
                Severity::Info,
                IssueCode::NoOp,
                lanes,
                lane,
                false,
            );
        }
        Notice::Pair(code, lane, other) => {
            put_pair(warnings, at, code, lane, other);
        }
        Notice::Unshared(boundary) => {
            let boundaries = EntityKind::Boundary;
            put_single(
                warnings,
                at,
                Severity::Warning,
                IssueCode::BoundaryUnshared,
                boundaries,
                boundary,
                false,
            );
        }
        Notice::Pieces(boundary, first, second) => {
            put_pieces(warnings, at, boundary, first, second);
        }
    }
}

// A notice in row `at`, or nothing; the row behind.
pub fn note(warnings: &mut [u64], at: usize, notice: Option<Notice>) -> usize
    requires { (at + length (R.issues notice)) * 10 ≤ length warnings.old }
    ensures { (result ≡ at + length (R.issues notice)) × (warnings.new ≡ R.warned_at at warnings.old (R.issues notice)) }
{
    match notice {
        None => at,
        Some(told) => {
            put_notice(warnings, at, told);
            at + 1
        }
    }
}
