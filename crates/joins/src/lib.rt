// geometry/polyline.rs: lines turned round and joined. Each is written to the front of a lent part, as `polyline` says.
#![tactic(auto)]

ghost use Rattle.std.specs.Prelude.{◌≡◌, ◌+◌, ◌*◌, ◌≤◌, ◌<◌, ◌^◌, length, drop, reverse};
ghost use Rattle.lists.specs.Rows.{over};
ghost use Rattle.polyline.specs.Polyline as L;
ghost use Rattle.polyline.specs.Polyline.{points, flat};

use geometry::Point3;

// The points of a line from number `from` on, written from place k on.
fn copy_points(line: &[f64], from: usize, out: &mut [f64], k: usize)
    requires { (k + length (drop from (points line.now))) * 3 ≤ length out.old }
    ensures { out.new ≡ over out.old (k * 3) (flat (drop from (points line.now))) }
{
    let n = polyline::count(line);
    for i in from..n {
        polyline::put_point(out, k + (i - from), polyline::point(line, i));
    }
}

pub fn reversed(line: &[f64], out: &mut [f64]) -> usize
    requires { length (points line.now) * 3 ≤ length out.old }
    ensures { (result ≡ length (points line.now)) × (out.new ≡ over out.old 0 (flat (reverse (points line.now)))) }
{
    let n = polyline::count(line);
    for i in 0..n {
        polyline::put_point(out, i, polyline::point(line, n - 1 - i));
    }
    n
}

// How many points a line that begins at `start` loses behind one that ends at `end`: 1 where both are there and nearer than `join`, else 0.
pub fn meeting(join: f64, end: Option<Point3>, start: Option<Point3>) -> usize
    ensures { result ≡ L.meeting join end start }
{
    let Some(p) = end else {
        return 0;
    };
    let Some(q) = start else {
        return 0;
    };
    if p.distance(q) < join { 1 } else { 0 }
}

// The same of two lines.
fn shared_ends(join: f64, one: &[f64], other: &[f64]) -> usize
    ensures { result ≡ L.skipped join (points one.now) (points other.now) }
{
    meeting(join, polyline::last(one), polyline::first(other))
}

pub fn concat_points(join: f64, one: &[f64], other: &[f64]) -> usize
    requires { length one.now + length other.now < 2 ^ 63 }
    ensures { result ≡ length (L.concat join (points one.now) (points other.now)) }
{
    polyline::count(one) + (polyline::count(other) - shared_ends(join, one, other))
}

pub fn concat(join: f64, one: &[f64], other: &[f64], out: &mut [f64]) -> usize
    requires { length (L.concat join (points one.now) (points other.now)) * 3 ≤ length out.old }
    ensures { (result ≡ length (L.concat join (points one.now) (points other.now))) × (out.new ≡ over out.old 0 (flat (L.concat join (points one.now) (points other.now)))) }
{
    let skip = shared_ends(join, one, other);
    let n = polyline::count(one);
    copy_points(one, 0, out, 0);
    copy_points(other, skip, out, n);
    n + (polyline::count(other) - skip)
}
