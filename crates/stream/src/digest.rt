// A digest of lent memory: words and doubles folded into one word, order and all. The oracle folds the same (oracle/FORMAT.md, "Digests").
ghost use Rattle.std.specs.Prelude.{◌≡◌};
ghost use Rattle.stream.specs.Digest as D;

use crate::Item;

// What a digest begins with.
pub const START: u64 = 1;

// A word into a digest: no two words lead from one digest to the same.
fn mix(state: u64, word: u64) -> u64
    ensures { result ≡ D.mix state word }
{
    let a = state ^ word;
    let b = a ^ (a << 13);
    let c = b ^ (b >> 7);
    c ^ (c << 17)
}

// Entries into a digest, one after the other.
pub fn items<T: Item>(start: u64, list: &[T]) -> u64
    ensures { result ≡ D.digest_by T.to_word start list.now }
{
    let mut state = start;
    for item in list {
        state = mix(state, item.to_word());
    }
    state
}

// The slices of a map, in their order.
pub fn tables(
    start: u64,
    lanes: &[u64],
    boundaries: &[u64],
    roads: &[u64],
    junctions: &[u64],
    rules: &[u64],
    stop_lines: &[u64],
    crosswalks: &[u64],
    coordinates: &[f64],
) -> u64
    ensures { result ≡ D.of_tables start lanes.now boundaries.now roads.now junctions.now rules.now stop_lines.now crosswalks.now coordinates.now }
{
    let a = items(start, lanes);
    let b = items(a, boundaries);
    let c = items(b, roads);
    let d = items(c, junctions);
    let e = items(d, rules);
    let f = items(e, stop_lines);
    let g = items(f, crosswalks);
    items(g, coordinates)
}
