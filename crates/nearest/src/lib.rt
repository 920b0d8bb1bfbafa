// geometry/polyline.rs: the nearest point of a line, in two dimensions.
#![tactic(auto)]

ghost use Rattle.std.specs.Prelude.{◌≡◌, ◌+◌, ◌*◌, ◌<◌, true, false};
ghost use Rattle.polyline.specs.Polyline as L;
ghost use Rattle.polyline.specs.Polyline.{points};
ghost use Rattle.geometry.specs.Point.{distance2, distance3, xy};
ghost use Rattle.nearest.specs.Square.{square, surely_not_nearer};
ghost use Rattle.root.specs.Root.{root};
ghost use Rattle.geometry.specs.Float.{◌-ᶠ◌, epsilon};
ghost use Rattle.std.specs.Float.Ieee.{lt};

use geometry::{Point2, Point3};
use polyline::NearestPoint;

// What segment i offers to `to`: it starts at p and at station `at`, and ends at q, `seg` further on.
fn candidate(i: usize, at: f64, to: Point2, p: Point3, q: Point3, seg: f64) -> NearestPoint
    requires { seg ≡ distance3 p q }
    ensures { result ≡ L.candidate i at to p q }
{
    let t = geometry::project_on_segment(to, p.xy(), q.xy());
    let on = p.lerp(q, t);
    NearestPoint {
        point: on,
        distance: on.xy().distance(to),
        station: at + t * seg,
        segment: i,
    }
}

fn nearer(best: NearestPoint, next: NearestPoint) -> NearestPoint
    ensures { result ≡ L.nearer best next }
{
    if next.distance < best.distance - Point3::EPSILON {
        return next;
    }
    best
}

// The square of a point's distance to `to`, in the plane.
fn square_to(p: Point3, to: Point2) -> f64
    ensures { result ≡ square p to }
{
    let d = p.xy() - to;
    d.dot(d)
}

// Whether squares alone show that a distance, the root of `next`, is not below `best`, the root of `least`, by more than EPSILON.
fn surely_not_nearer(best: f64, least: f64, next: f64) -> bool
    ensures { (result ≡ surely_not_nearer best least next) × (result ≡ true → best ≡ root least → lt (root next) (best -ᶠ epsilon) ≡ false) }
{
    if best - Point3::EPSILON <= best {
        if 0.0 <= least {
            return least <= next;
        }
    }
    false
}

// The better of `best` and of what segment i offers. A root takes longer than all else here, and most segments are told from their squares.
fn better(
    best: NearestPoint,
    i: usize,
    at: f64,
    to: Point2,
    p: Point3,
    q: Point3,
    seg: f64,
) -> NearestPoint
    requires { (seg ≡ distance3 p q) × (best.distance ≡ distance2 (xy best.point) to) }
    ensures { result ≡ L.nearer best (L.candidate i at to p q) }
{
    let t = geometry::project_on_segment(to, p.xy(), q.xy());
    let on = p.lerp(q, t);
    let next = square_to(on, to);
    let there = best.point;
    if surely_not_nearer(best.distance, square_to(there, to), next) {
        return best;
    }
    let offered = NearestPoint {
        point: on,
        distance: root::sqrt(next),
        station: at + t * seg,
        segment: i,
    };
    nearer(best, offered)
}

pub fn nearest_point(line: &[f64], to: Point2) -> Option<NearestPoint>
    ensures { result ≡ L.nearest_point (points line.now) to }
{
    let n = polyline::count(line);
    if n == 0 {
        return None;
    }
    let first = polyline::point(line, 0);
    if n == 1 {
        return Some(NearestPoint {
            point: first,
            distance: first.xy().distance(to),
            station: 0.0,
            segment: 0,
        });
    }
    let mut p = polyline::point(line, 1);
    let seg = first.distance(p);
    let mut best = candidate(0, 0.0, to, first, p, seg);
    let mut at = 0.0 + seg;
    for i in 1..n - 1 {
        let q = polyline::point(line, i + 1);
        let step = p.distance(q);
        best = better(best, i, at, to, p, q, step);
        at = at + step;
        p = q;
    }
    Some(best)
}
