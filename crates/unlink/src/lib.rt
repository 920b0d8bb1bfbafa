// The part of disconnect: the link of two rows taken out.
#![tactic(auto)]

ghost use Rattle.std.specs.Prelude.{◌≡◌};
ghost use Rattle.relink.specs.Parts as P;

use entities::Refusal;
use report::{Answer, Change};
use tables::LANE;

// Takes the link from row i to row j out of both lanes.
pub fn unlink(
    lanes: &mut [u64],
    i: usize,
    j: usize,
    linked: bool,
    modified: &mut [u64],
    warnings: &mut [u64],
) -> Answer
    requires { P.Linkable lanes.old i j linked }
    ensures { P.links_written lanes.new modified.new warnings.new result ≡ P.unlinking lanes.old i j linked modified.old warnings.old }
{
    let from = lanes[1 + i * LANE];
    let to = lanes[1 + j * LANE];
    let none = None;
    let note = report::no_op_where(!linked, from);
    let mut ids = [0; 2];
    let n = relink::links::pair_unless(!linked, from, to, &mut ids);
    if notices::fits(n, note, none, modified, warnings) {
        let told = notices::report(&ids[..n], note, none, modified, warnings);
        linking::remove_link(lanes, i, j);
        return Ok(Change {
            counts: told,
            second: None,
        });
    }
    Err(Refusal::NoRoom)
}
