// geometry/polyline.rs: the line functions that the edits reach. A line is a part of the coordinates, three floats a point. Here a line is read;
// `nearest`, `stations` and `joins` have the rest. A function that makes a line writes it to the front of a lent part and answers how many points it
// wrote; its `_points` tells that number beforehand. What lies past the written points stays.
#![tactic(auto)]

ghost use Rattle.std.specs.Prelude.{◌≡◌, ◌+◌, ◌*◌, ◌≤◌, ◌<◌, length, get_or, [], ◌∷◌};
ghost use Rattle.lists.specs.Rows.{over};
ghost use Rattle.polyline.specs.Polyline as L;
ghost use Rattle.polyline.specs.Polyline.{points, flat};

use geometry::Point3;

// Floats in a point.
const POINT: usize = 3;

#[derive(Clone, Copy)]
pub struct NearestPoint {
    pub point: Point3,
    pub distance: f64,
    pub station: f64,
    pub segment: usize,
}

// How many points a line has.
pub fn count(line: &[f64]) -> usize
    ensures { result ≡ length (points line.now) }
{
    line.len() / POINT
}

// Point i of a line.
pub fn point(line: &[f64], i: usize) -> Point3
    requires { i < length (points line.now) }
    ensures { result ≡ get_or (points line.now) i (L.point_of []) }
{
    let at = i * POINT;
    Point3 {
        x: line[at],
        y: line[at + 1],
        z: line[at + 2],
    }
}

// Point i of a line that is being written.
pub fn put_point(out: &mut [f64], i: usize, p: Point3)
    requires { i * 3 + 3 ≤ length out.old }
    ensures { out.new ≡ over out.old (i * 3) (flat (p ∷ [])) }
{
    let at = i * POINT;
    out[at] = p.x;
    out[at + 1] = p.y;
    out[at + 2] = p.z;
}

pub fn first(line: &[f64]) -> Option<Point3>
    ensures { result ≡ L.first (points line.now) }
{
    if count(line) == 0 {
        return None;
    }
    Some(point(line, 0))
}

pub fn last(line: &[f64]) -> Option<Point3>
    ensures { result ≡ L.last (points line.now) }
{
    let n = count(line);
    if n == 0 {
        return None;
    }
    Some(point(line, n - 1))
}

// A segment's root is finished after the next one's is begun, so that the two overlap.
pub fn length(line: &[f64]) -> f64
    ensures { result ≡ L.line_length (points line.now) }
{
    let n = count(line);
    if n == 0 {
        return -0.0;
    }
    let mut sum = -0.0;
    let mut p = point(line, 0);
    let mut segment = root::known(-0.0);
    for i in 1..n {
        let q = point(line, i);
        let next = p.begin_distance(q);
        sum = sum + root::finish(segment);
        segment = next;
        p = q;
    }
    sum + root::finish(segment)
}

// `f64::clamp` to 0 to 1, where a NaN is held too.
pub fn held(t: f64) -> f64
    ensures { result ≡ L.held t }
{
    if t == t {
        return geometry::clamp(t, 0.0, 1.0);
    }
    0.0
}

// A place on a line: a segment, and how far along it from 0 to 1.
pub fn locate(line: &[f64], station: f64) -> Option<(usize, f64)>
    ensures { result ≡ L.locate (points line.now) station }
{
    let n = count(line);
    if n == 0 {
        return None;
    }
    if n == 1 {
        return Some((0, 0.0));
    }
    if station <= 0.0 {
        return Some((0, 0.0));
    }
    let mut at = 0.0;
    let mut p = point(line, 0);
    for i in 0..n - 1 {
        let q = point(line, i + 1);
        let seg = p.distance(q);
        let end = at + seg;
        if station <= end {
            if 0.0 < seg {
                return Some((i, held((station - at) / seg)));
            }
        }
        at = end;
        p = q;
    }
    Some((n - 2, 1.0))
}

pub fn point_at(line: &[f64], station: f64) -> Option<Point3>
    ensures { result ≡ L.point_at (points line.now) station }
{
    let place = locate(line, station);
    let Some((i, t)) = place else {
        return None;
    };
    if i + 1 < count(line) {
        return Some(point(line, i).lerp(point(line, i + 1), t));
    }
    last(line)
}

pub fn point_at_fraction(line: &[f64], fraction: f64) -> Option<Point3>
    ensures { result ≡ L.point_at_fraction (points line.now) fraction }
{
    point_at(line, geometry::clamp(fraction, 0.0, 1.0) * length(line))
}
