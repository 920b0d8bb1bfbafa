// "no stored point belongs to two lines". Lines that lie in the order of a layout, as every split and merge leaves them, share no point, and one look at each row
// tells; of others the points are marked.
#![tactic(auto)]

ghost use Rattle.std.specs.Prelude.{◌≡◌, true};
ghost use Rattle.tables.specs.Formed.{all_clear};
ghost use Rattle.apart.specs.Marks as G;

const MAX_POINTS: usize = 65536;

// Whether no stored point belongs to two lines, of tables whose lines lie in the store.
pub fn lines_clear(
    lanes: &[u64],
    boundaries: &[u64],
    stop_lines: &[u64],
    crosswalks: &[u64],
) -> bool
    requires { G.takeable 65536 lanes.now boundaries.now stop_lines.now crosswalks.now ≡ true }
    ensures { result ≡ all_clear (G.line_spans lanes.now boundaries.now stop_lines.now crosswalks.now) }
{
    if order::in_order(lanes, boundaries, stop_lines, crosswalks, MAX_POINTS) {
        return true;
    }
    lines_apart::lines_apart(lanes, boundaries, stop_lines, crosswalks)
}
