// edit/lane.rs: the parts of remove_lane: what names a lane and what goes with it listed, its warnings, and the tables without it.
#![tactic(auto)]

ghost use Rattle.std.specs.Prelude.{◌≡◌, true, map, ◌+◌, ◌*◌, ◌≤◌, ◌<◌, length};
ghost use Rattle.rules.specs.Edit.{when};
ghost use Rattle.lookup.specs.Lookup.{sorted_table};
ghost use Rattle.store.specs.Rows.{stays, kept_rows, on_rows};
ghost use Rattle.report.specs.Report.{listed, warned, warned_at, orphan_rule};
ghost use Rattle.mentions.specs.declared.Rows.TheVariants.{Lanes, Roads, Junctions, Rules, Orphans};
ghost use Rattle.mentions.specs.Naming as N;
ghost use Rattle.unused.specs.Parts as P;

use entities::EntityKind;
use lists::both;
use mentions::Rows;
use report::{ENTITY, WARNING};
use tables::{LANE, RULE};
use unused::Gone;

// The lane and its boundaries.
pub fn list_gone(lane: u64, gone: Gone, deleted: &mut [u64])
    requires { length (P.leaving lane (P.gone_ids gone)) * 2 ≤ length deleted.old }
    ensures { deleted.new ≡ listed deleted.old (P.leaving lane (P.gone_ids gone)) }
{
    let boundary = u64::from(EntityKind::Boundary);
    let n = gone.count;
    let one = mentions::put_where(true, u64::from(EntityKind::Lane), lane, deleted, 0);
    let two = mentions::put_where(0 < n, boundary, gone.first, deleted, one);
    mentions::put_where(1 < n, boundary, gone.second, deleted, two);
}

// How many lanes, roads, junctions and rules name a lane.
pub fn count_named(
    lanes: &[u64],
    roads: &[u64],
    junctions: &[u64],
    rules: &[u64],
    lane: u64,
) -> usize
    requires { P.Formed lanes.now roads.now junctions.now rules.now }
    ensures { result ≡ length (P.touched lane lanes.now roads.now junctions.now rules.now) }
{
    let a = mentions::count(lanes, Rows::Lanes, lane);
    let b = mentions::count(roads, Rows::Roads, lane);
    let c = mentions::count(junctions, Rows::Junctions, lane);
    let d = mentions::count(rules, Rows::Rules, lane);
    a + b + c + d
}

// Their list.
pub fn list_named(
    lanes: &[u64],
    roads: &[u64],
    junctions: &[u64],
    rules: &[u64],
    lane: u64,
    modified: &mut [u64],
)
    requires { P.Formed lanes.now roads.now junctions.now rules.now × (length (P.touched lane lanes.now roads.now junctions.now rules.now) * 2 ≤ length modified.old) }
    ensures { modified.new ≡ listed modified.old (P.touched lane lanes.now roads.now junctions.now rules.now) }
{
    let a = mentions::list(lanes, Rows::Lanes, lane, modified, 0);
    let b = mentions::list(roads, Rows::Roads, lane, modified, a);
    let c = mentions::list(junctions, Rows::Junctions, lane, modified, b);
    mentions::list(rules, Rows::Rules, lane, modified, c);
}

// The warning of a rule in row `at`, or none; the row behind.
fn warn_where(on: bool, rule: u64, warnings: &mut [u64], at: usize) -> usize
    requires { (at + length (when on rule)) * 10 ≤ length warnings.old }
    ensures { (result ≡ at + length (when on rule)) × (warnings.new ≡ warned_at at warnings.old (map orphan_rule (when on rule))) }
{
    if on {
        warnings::put_orphan(warnings, at, rule);
        return at + 1;
    }
    at
}

// The warnings of the rules that are left with no lane.
pub fn warn(rules: &[u64], lane: u64, warnings: &mut [u64])
    requires { (N.table_formed Orphans rules.now ≡ true) × (length (N.naming Orphans lane rules.now) * 10 ≤ length warnings.old) }
    ensures { warnings.new ≡ warned warnings.old (map orphan_rule (N.naming Orphans lane rules.now)) }
{
    let n = rules[0] as usize;
    let mut place = 0;
    for i in 0..n {
        let row = 1 + i * RULE;
        let end = row + RULE;
        let on = mentions::names_lane(&rules[row..end], Rows::Orphans, lane);
        place = warn_where(on, rules[row], warnings, place);
    }
}

// The lane's row goes, and the others forget it.
fn drop_lane(lanes: &mut [u64], lane: u64)
    requires { N.table_formed Lanes lanes.old ≡ true }
    ensures { lanes.new ≡ on_rows 52 (N.forgets Lanes lane) (kept_rows 52 (stays lane lane) lanes.old) }
{
    store::keep_rows(lanes, LANE, lane, lane);
    forgets::forget(lanes, Rows::Lanes, lane);
}

// The five tables without the lane.
pub fn write(
    lanes: &mut [u64],
    boundaries: &mut [u64],
    roads: &mut [u64],
    junctions: &mut [u64],
    rules: &mut [u64],
    lane: u64,
    gone: Gone,
)
    requires { P.Formed lanes.old roads.old junctions.old rules.old × (sorted_table 4096 5 boundaries.old ≡ true) }
    ensures { P.tables lanes.new boundaries.new roads.new junctions.new rules.new ≡ P.left_tables lane (P.gone_ids gone) (P.tables lanes.old boundaries.old roads.old junctions.old rules.old) }
{
    drop_lane(lanes, lane);
    unused::keep_boundaries(boundaries, gone);
    forgets::forget(roads, Rows::Roads, lane);
    forgets::forget(junctions, Rows::Junctions, lane);
    forgets::forget(rules, Rows::Rules, lane);
}

// Whether the lists have places for so many entities and warnings.
pub fn fits(
    named: usize,
    gone: usize,
    orphans: usize,
    modified: &[u64],
    deleted: &[u64],
    warnings: &[u64],
) -> bool
    ensures { result ≡ P.lists_fit named gone orphans modified.now deleted.now warnings.now }
{
    both(
        both(
            named <= modified.len() / ENTITY,
            gone <= deleted.len() / ENTITY,
        ),
        orphans <= warnings.len() / WARNING,
    )
}
