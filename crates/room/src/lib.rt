// The room that an edit asks for: ids, rows, points and places in the lists, each tested on numbers before anything lent is written.
#![tactic(auto)]

ghost use Rattle.std.specs.Prelude.{◌≡◌, true, ◌+◌, ◌*◌, ◌≤◌, ◌<◌, length};
ghost use Rattle.rules.specs.Sound.{next_id};
ghost use Rattle.tables.specs.Formed.{counted};
ghost use Rattle.lookup.specs.Lookup.{all_short};
ghost use Rattle.room.specs.Room as R;

use lists::both;
use report::{Counts, ENTITY, WARNING};
use tables::POINT;

const LAST_COUNTER: u64 = 18446744073709551615;

const MAX_POINTS: usize = 65536;

// The next id: a counter of 0 counts as 1.
pub fn next_id(counter: u64) -> u64
    ensures { result ≡ next_id counter }
{
    if counter == 0 {
        return 1;
    }
    counter
}

// Whether so many ids are left.
pub fn ids_left(counter: u64, ids: usize) -> bool
    ensures { result ≡ R.ids_left counter ids }
{
    if ids == 0 {
        return true;
    }
    ids as u64 <= LAST_COUNTER - next_id(counter)
}

// Whether n rows of s words keep a limit and fit the table that is lent.
pub fn rows_fit(limit: usize, s: usize, n: usize, t: &[u64]) -> bool
    requires { (0 < s) × (1 ≤ length t.now) }
    ensures { result ≡ R.rows_fit limit s n t.now }
{
    both(n <= limit, n <= (t.len() - 1) / s)
}

// Whether n points keep the limit and fit the coordinates that are lent.
pub fn points_fit(n: usize, coordinates: &[f64]) -> bool
    ensures { result ≡ R.points_fit n coordinates.now }
{
    both(n <= MAX_POINTS, n <= coordinates.len() / POINT)
}

// Whether the lists have places for so many.
pub fn lists_fit(
    counts: Counts,
    created: &[u64],
    modified: &[u64],
    deleted: &[u64],
    warnings: &[u64],
) -> bool
    ensures { result ≡ R.lists_fit counts created.now modified.now deleted.now warnings.now }
{
    both(
        both(
            both(
                counts.created <= created.len() / ENTITY,
                counts.modified <= modified.len() / ENTITY,
            ),
            counts.deleted <= deleted.len() / ENTITY,
        ),
        counts.warnings <= warnings.len() / WARNING,
    )
}

// How many points the lines of a column have; word `offset` of a row says where its line starts, the next one how many points it has.
pub fn column_points(t: &[u64], stride: usize, offset: usize) -> usize
    requires { (offset + 2 ≤ stride) × ((stride ≤ 512) × ((counted 4096 stride t.now ≡ true) × (all_short stride offset t.now ≡ true))) }
    ensures { (result ≡ R.column_points stride (offset + 1) t.now) × (result ≤ 1048576) }
{
    let n = t[0] as usize;
    let mut points = 0;
    for i in 0..n {
        points += t[1 + i * stride + offset + 1] as usize;
    }
    points
}
