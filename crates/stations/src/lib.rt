// geometry/polyline.rs: lines made at stations of others: slices, the two pieces of a split, resampled lines and centrelines. Each is written to the front of
// a lent part, as `polyline` says.
#![tactic(auto)]

ghost use Rattle.std.specs.Prelude.{◌≡◌, ◌+◌, ◌*◌, ◌≤◌, ◌<◌, max, length, ◌++◌};
ghost use Rattle.lists.specs.Rows.{over};
ghost use Rattle.polyline.specs.Polyline as L;
ghost use Rattle.polyline.specs.Polyline.{points, flat};
ghost use Rattle.geometry.specs.Float.{clamp, zeroᶠ};

use geometry::Point3;

// Floats in a point.
const POINT: usize = 3;

// A point written at place i, if there is one; how many were written.
fn put_optional(out: &mut [f64], i: usize, p: Option<Point3>) -> usize
    requires { (i + length (L.optional p)) * 3 ≤ length out.old }
    ensures { (result ≡ length (L.optional p)) × (out.new ≡ over out.old (i * 3) (flat (L.optional p))) }
{
    let Some(q) = p else {
        return 0;
    };
    polyline::put_point(out, i, q);
    1
}

// Whether a station lies between two others, by more than EPSILON on either side.
fn inside(from: f64, to: f64, at: f64) -> bool
    ensures { result ≡ L.inside from to at }
{
    from + Point3::EPSILON < at && at < to - Point3::EPSILON
}

// A point written at place i, if asked; how many were written.
fn put_if(out: &mut [f64], i: usize, p: Point3, asked: bool) -> usize
    requires { (i + length (L.optionally asked p)) * 3 ≤ length out.old }
    ensures { (result ≡ length (L.optionally asked p)) × (out.new ≡ over out.old (i * 3) (flat (L.optionally asked p))) }
{
    if asked {
        polyline::put_point(out, i, p);
        return 1;
    }
    0
}

// How many points of a line lie between two stations.
fn between_points(line: &[f64], from: f64, to: f64) -> usize
    ensures { result ≡ length (L.between from to (points line.now)) }
{
    let n = polyline::count(line);
    if n == 0 {
        return 0;
    }
    let mut at = 0.0;
    let mut p = polyline::point(line, 0);
    let mut found = 0;
    for i in 1..n {
        let q = polyline::point(line, i);
        at = at + p.distance(q);
        if inside(from, to, at) {
            found += 1;
        }
        p = q;
    }
    found
}

// Those points, written from place k on.
fn put_between(line: &[f64], from: f64, to: f64, out: &mut [f64], k: usize) -> usize
    requires { (k + length (L.between from to (points line.now))) * 3 ≤ length out.old }
    ensures { (result ≡ length (L.between from to (points line.now))) × (out.new ≡ over out.old (k * 3) (flat (L.between from to (points line.now)))) }
{
    let n = polyline::count(line);
    if n == 0 {
        return 0;
    }
    let mut at = 0.0;
    let mut p = polyline::point(line, 0);
    let mut found = 0;
    for i in 1..n {
        let q = polyline::point(line, i);
        at = at + p.distance(q);
        found = found + put_if(out, k + found, q, inside(from, to, at));
        p = q;
    }
    found
}

fn optional_points(p: Option<Point3>) -> usize
    ensures { result ≡ length (L.optional p) }
{
    match p {
        None => 0,
        Some(_) => 1,
    }
}

pub fn slice_points(line: &[f64], from: f64, to: f64) -> usize
    ensures { result ≡ length (L.slice (points line.now) from to) }
{
    let len = polyline::length(line);
    let a = geometry::clamp(from, 0.0, len);
    let b = geometry::clamp(to, 0.0, len);
    if polyline::count(line) < 2 {
        return optional_points(polyline::point_at(line, a));
    }
    if b <= a {
        return optional_points(polyline::point_at(line, a));
    }
    optional_points(polyline::point_at(line, a))
        + (between_points(line, a, b) + optional_points(polyline::point_at(line, b)))
}

pub fn slice(line: &[f64], from: f64, to: f64, out: &mut [f64]) -> usize
    requires { length (L.slice (points line.now) from to) * 3 ≤ length out.old }
    ensures { (result ≡ length (L.slice (points line.now) from to)) × (out.new ≡ over out.old 0 (flat (L.slice (points line.now) from to))) }
{
    let len = polyline::length(line);
    let start = polyline::point_at(line, geometry::clamp(from, 0.0, len));
    let end = polyline::point_at(line, geometry::clamp(to, 0.0, len));
    put_slice(line, len, from, to, start, end, out)
}

// The slice of a line whose length is known, and the points at the slice's two ends: walks along the line that two slices can share.
fn put_slice(
    line: &[f64],
    len: f64,
    from: f64,
    to: f64,
    start: Option<Point3>,
    end: Option<Point3>,
    out: &mut [f64],
) -> usize
    requires { (len ≡ L.line_length (points line.now)) × ((start ≡ L.point_at (points line.now) (clamp from zeroᶠ len)) × ((end ≡ L.point_at (points line.now) (clamp to zeroᶠ len)) × (length (L.slice (points line.now) from to) * 3 ≤ length out.old))) }
    ensures { (result ≡ length (L.slice (points line.now) from to)) × (out.new ≡ over out.old 0 (flat (L.slice (points line.now) from to))) }
{
    let a = geometry::clamp(from, 0.0, len);
    let b = geometry::clamp(to, 0.0, len);
    if polyline::count(line) < 2 {
        return put_optional(out, 0, start);
    }
    if b <= a {
        return put_optional(out, 0, start);
    }
    let head = put_optional(out, 0, start);
    let middle = put_between(line, a, b, out, head);
    head + (middle + put_optional(out, head + middle, end))
}

// The two pieces of a split, in points.
#[derive(Clone, Copy)]
pub struct Pieces {
    pub first: usize,
    pub second: usize,
}

// The pieces share the split point; the second is written behind the first.
pub fn split_at(line: &[f64], station: f64, out: &mut [f64]) -> Pieces
    requires { (length (L.first_piece (points line.now) station) + length (L.second_piece (points line.now) station)) * 3 ≤ length out.old }
    ensures { (result.first ≡ length (L.first_piece (points line.now) station)) × ((result.second ≡ length (L.second_piece (points line.now) station)) × (out.new ≡ over out.old 0 (flat (L.first_piece (points line.now) station ++ L.second_piece (points line.now) station)))) }
{
    let len = polyline::length(line);
    let start = polyline::point_at(line, geometry::clamp(0.0, 0.0, len));
    let cut = polyline::point_at(line, geometry::clamp(station, 0.0, len));
    let end = polyline::point_at(line, geometry::clamp(len, 0.0, len));
    let first = put_slice(line, len, 0.0, station, start, cut, out);
    let behind = first * POINT;
    let second = put_slice(line, len, station, len, cut, end, &mut out[behind..]);
    Pieces { first, second }
}

// The stations of `resample_count`: number i of a line cut into equal parts.
fn share(len: f64, i: usize, parts: usize) -> f64
    requires { (i ≤ 65536) × (parts ≤ 65536) }
    ensures { result ≡ L.share len i parts }
{
    len * (i as f64) / (parts as f64)
}

pub fn resample_points(line: &[f64], n: usize) -> usize
    ensures { result ≡ length (L.resample_count (points line.now) n) }
{
    if polyline::count(line) == 0 {
        return 0;
    }
    n.max(2)
}

pub fn resample_count(line: &[f64], n: usize, out: &mut [f64]) -> usize
    requires { (n ≤ 65536) × (length (L.resample_count (points line.now) n) * 3 ≤ length out.old) }
    ensures { (result ≡ length (L.resample_count (points line.now) n)) × (out.new ≡ over out.old 0 (flat (L.resample_count (points line.now) n))) }
{
    if polyline::count(line) == 0 {
        return 0;
    }
    let wanted = n.max(2);
    let len = polyline::length(line);
    for i in 0..wanted {
        put_optional(out, i, polyline::point_at(line, share(len, i, wanted - 1)));
    }
    wanted
}

// 0 where a side is empty.
pub fn centerline_points(left: &[f64], right: &[f64]) -> usize
    ensures { result ≡ length (L.centerline (points left.now) (points right.now)) }
{
    let a = polyline::count(left);
    let b = polyline::count(right);
    if a == 0 {
        return 0;
    }
    if b == 0 {
        return 0;
    }
    a.max(b).max(2)
}

// Half way between two points, if both are there.
fn middle(a: Option<Point3>, b: Option<Point3>) -> Option<Point3>
    ensures { result ≡ L.middle a b }
{
    let p = a?;
    let q = b?;
    Some(p.lerp(q, 0.5))
}

pub fn centerline(left: &[f64], right: &[f64], out: &mut [f64]) -> usize
    requires { (length (L.centerline (points left.now) (points right.now)) ≤ 65536) × (length (L.centerline (points left.now) (points right.now)) * 3 ≤ length out.old) }
    ensures { (result ≡ length (L.centerline (points left.now) (points right.now))) × (out.new ≡ over out.old 0 (flat (L.centerline (points left.now) (points right.now)))) }
{
    let n = centerline_points(left, right);
    if n == 0 {
        return 0;
    }
    let l = polyline::length(left);
    let r = polyline::length(right);
    for i in 0..n {
        put_optional(
            out,
            i,
            middle(
                polyline::point_at(left, share(l, i, n - 1)),
                polyline::point_at(right, share(r, i, n - 1)),
            ),
        );
    }
    n
}
