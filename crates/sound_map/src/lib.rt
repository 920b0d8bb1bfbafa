// Map soundness, decided: whether lent tables hold a sound map.
#![tactic(auto)]

ghost use Rattle.std.specs.Prelude.{◌≡◌, true};
ghost use Rattle.tables.specs.Formed.{sound_tables};
ghost use Rattle.tables.specs.View.{tables_of};
ghost use Rattle.lent.specs.Lent.{view_tables};
ghost use Rattle.soundness.specs.Parts as P;

use lent::MapView;
use lists::both;

// The rows of every table pass, for the largest id that the counter allows, and its ids ascend.
fn rows_sound(counter: u64, map: MapView) -> bool
    requires { P.all_counted (view_tables map) ≡ true }
    ensures { result ≡ P.rows_sound counter (view_tables map.entry) }
{
    let most = row_tests::sound::largest_id(counter);
    both(soundness::all_good(most, map), soundness::all_ascend(map))
}

// "A map is sound when ..", of lent memory. The slices are lent one by one: what is known of their words, that each is below 2^64, is not at hand of a view.
pub fn sound(
    counter: u64,
    lanes: &[u64],
    boundaries: &[u64],
    roads: &[u64],
    junctions: &[u64],
    rules: &[u64],
    stop_lines: &[u64],
    crosswalks: &[u64],
    coordinates: &[f64],
) -> bool
    ensures { result ≡ sound_tables counter (tables_of lanes.now boundaries.now roads.now junctions.now rules.now stop_lines.now crosswalks.now coordinates.now) }
{
    let map = MapView {
        lanes,
        boundaries,
        roads,
        junctions,
        rules,
        stop_lines,
        crosswalks,
        coordinates,
    };
    if soundness::all_counted(map) {
        if rows_sound(counter, map) {
            if clear::lines_clear(lanes, boundaries, stop_lines, crosswalks) {
                let returned = link_tests::all_returned(lanes);
                return returned;
            }
        }
    }
    false
}
