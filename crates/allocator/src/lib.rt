// id.rs: the counter of ids is lent, and advanced in place, last of all.
#![tactic(auto)]

ghost use Rattle.step.specs.Step as S;
ghost use Rattle.ops.specs.Calls.{Applied};

use advance::Advanced;
use entities::{Command, Counter, Tolerance};
use report::Answer;

// The call by value, on slices, as `ops::apply` takes them.
fn applied(
    counter: Counter,
    tolerance: Tolerance,
    lanes: &mut [u64],
    boundaries: &mut [u64],
    roads: &mut [u64],
    junctions: &mut [u64],
    rules: &mut [u64],
    stop_lines: &mut [u64],
    crosswalks: &mut [u64],
    coordinates: &mut [f64],
    command: Command,
    created: &mut [u64],
    modified: &mut [u64],
    deleted: &mut [u64],
    warnings: &mut [u64],
) -> Advanced
    ensures { Applied tolerance command (S.lent_of counter.next lanes.old boundaries.old roads.old junctions.old rules.old stop_lines.old crosswalks.old coordinates.old created.old modified.old deleted.old warnings.old) (S.ended (S.lent_of result.counter.next lanes.new boundaries.new roads.new junctions.new rules.new stop_lines.new crosswalks.new coordinates.new created.new modified.new deleted.new warnings.new) result.answer) }
{
    let answer = ops::apply(
        counter,
        tolerance,
        lanes,
        boundaries,
        roads,
        junctions,
        rules,
        stop_lines,
        crosswalks,
        coordinates,
        command,
        created,
        modified,
        deleted,
        warnings,
    );
    advance::advance(counter, answer)
}

// `ops::apply` with the counter lent: the counter is read, the call made, and the counter stored as the last act. A refused call leaves it. Slices, as hosts lend them (README).
pub fn apply(
    counter: &mut Counter,
    tolerance: Tolerance,
    lanes: &mut [u64],
    boundaries: &mut [u64],
    roads: &mut [u64],
    junctions: &mut [u64],
    rules: &mut [u64],
    stop_lines: &mut [u64],
    crosswalks: &mut [u64],
    coordinates: &mut [f64],
    command: Command,
    created: &mut [u64],
    modified: &mut [u64],
    deleted: &mut [u64],
    warnings: &mut [u64],
) -> Answer
    ensures { Applied tolerance command (S.lent_of counter.old.next lanes.old boundaries.old roads.old junctions.old rules.old stop_lines.old crosswalks.old coordinates.old created.old modified.old deleted.old warnings.old) (S.ended (S.lent_of counter.new.next lanes.new boundaries.new roads.new junctions.new rules.new stop_lines.new crosswalks.new coordinates.new created.new modified.new deleted.new warnings.new) result) }
{
    let after = applied(
        *counter,
        tolerance,
        lanes,
        boundaries,
        roads,
        junctions,
        rules,
        stop_lines,
        crosswalks,
        coordinates,
        command,
        created,
        modified,
        deleted,
        warnings,
    );
    *counter = after.counter;
    after.answer
}
