// geometry/mod.rs: points by value. Every operation is the IEEE one, in the order of the Rust.
#![tactic(auto)]

ghost use Rattle.std.specs.Prelude.{◌≡◌};
ghost use Rattle.std.specs.Float.Ieee.{add, sub, mul};
ghost use Rattle.std.specs.Float.Ieee.Scale.{finite};
ghost use Rattle.geometry.specs.Float as F;
ghost use Rattle.geometry.specs.Point as P;
ghost use Rattle.root.specs.Begun.{Unfinished};

use root::Begun;
use std::ops::{Add, Mul, Sub};

// A point or a vector in the plane.
#[derive(Clone, Copy)]
pub struct Point2 {
    pub x: f64,
    pub y: f64,
}

// A point or a vector in space: the Rust's two types and names, each with its own operations in its own order, so they are not one type over a size.
#[derive(Clone, Copy)]
pub struct Point3 {
    pub x: f64,
    pub y: f64,
    pub z: f64,
}

impl Add for Point2 {
    type Output = Self;

    ghost add_gives = { λ p q r. r ≡ P.add2 p q };

    fn add(self, other: Point2) -> Self {
        Self {
            x: self.x + other.x,
            y: self.y + other.y,
        }
    }
}

impl Sub for Point2 {
    type Output = Self;

    ghost sub_gives = { λ p q r. r ≡ P.sub2 p q };

    fn sub(self, other: Point2) -> Self {
        Self {
            x: self.x - other.x,
            y: self.y - other.y,
        }
    }
}

impl Mul<f64> for Point2 {
    type Output = Self;

    ghost mul_gives = { λ p q r. r ≡ P.mul2 p q };

    fn mul(self, by: f64) -> Self {
        Self {
            x: self.x * by,
            y: self.y * by,
        }
    }
}

impl Point2 {
    pub fn new(x: f64, y: f64) -> Self
        ensures { (result.x ≡ x) × (result.y ≡ y) }
    {
        Self { x, y }
    }

    pub fn dot(self, other: Point2) -> f64
        ensures { result ≡ P.dot2 self other }
    {
        self.x * other.x + self.y * other.y
    }

    // The third coordinate of the cross product in space.
    pub fn cross(self, other: Point2) -> f64
        ensures { result ≡ P.cross self other }
    {
        self.x * other.y - self.y * other.x
    }

    pub fn norm(self) -> f64
        ensures { result ≡ P.norm2 self }
    {
        root::sqrt(self.x * self.x + self.y * self.y)
    }

    pub fn distance(self, other: Point2) -> f64
        ensures { result ≡ P.distance2 self other }
    {
        (self - other).norm()
    }

    pub fn normalized(self) -> Option<Point2>
        ensures { result ≡ P.normalized self }
    {
        let n = self.norm();
        if Point3::EPSILON < n {
            return Some(Point2 {
                x: self.x / n,
                y: self.y / n,
            });
        }
        None
    }

    pub fn lerp(self, other: Point2, t: f64) -> Self
        ensures { result ≡ P.lerp2 self other t }
    {
        self + (other - self) * t
    }

    pub fn is_finite(self) -> bool
        ensures { result ≡ P.finite2 self }
    {
        is_finite(self.x) && is_finite(self.y)
    }
}

impl Add for Point3 {
    type Output = Self;

    ghost add_gives = { λ p q r. r ≡ P.add3 p q };

    fn add(self, other: Point3) -> Self {
        Self {
            x: self.x + other.x,
            y: self.y + other.y,
            z: self.z + other.z,
        }
    }
}

impl Sub for Point3 {
    type Output = Self;

    ghost sub_gives = { λ p q r. r ≡ P.sub3 p q };

    fn sub(self, other: Point3) -> Self {
        Self {
            x: self.x - other.x,
            y: self.y - other.y,
            z: self.z - other.z,
        }
    }
}

impl Mul<f64> for Point3 {
    type Output = Self;

    ghost mul_gives = { λ p q r. r ≡ P.mul3 p q };

    fn mul(self, by: f64) -> Self {
        Self {
            x: self.x * by,
            y: self.y * by,
            z: self.z * by,
        }
    }
}

impl Point3 {
    // Two places nearer than this are one (metres).
    pub const EPSILON: f64 = 1e-9;

    pub fn new(x: f64, y: f64, z: f64) -> Self
        ensures { (result.x ≡ x) × ((result.y ≡ y) × (result.z ≡ z)) }
    {
        Self { x, y, z }
    }

    pub fn dot(self, other: Point3) -> f64
        ensures { result ≡ P.dot3 self other }
    {
        self.x * other.x + self.y * other.y + self.z * other.z
    }

    pub fn norm(self) -> f64
        ensures { result ≡ P.norm3 self }
    {
        root::sqrt(self.x * self.x + self.y * self.y + self.z * self.z)
    }

    pub fn distance(self, other: Point3) -> f64
        ensures { result ≡ P.distance3 self other }
    {
        (self - other).norm()
    }

    // The distance, begun: `root::finish` finds it.
    pub fn begin_distance(self, other: Point3) -> Begun
        ensures { Unfinished (P.distance3 self other) result.a result.top result.guess }
    {
        let way = self - other;
        root::begin(way.dot(way))
    }

    // In the plane, whatever the elevations.
    pub fn distance_2d(self, other: Point3) -> f64
        ensures { result ≡ P.distance_2d self other }
    {
        self.xy().distance(other.xy())
    }

    pub fn lerp(self, other: Point3, t: f64) -> Self
        ensures { result ≡ P.lerp3 self other t }
    {
        let way = other - self;
        self + way * t
    }

    pub fn xy(self) -> Point2
        ensures { result ≡ P.xy self }
    {
        Point2 {
            x: self.x,
            y: self.y,
        }
    }

    pub fn is_finite(self) -> bool
        ensures { result ≡ P.finite3 self }
    {
        self.xy().is_finite() && is_finite(self.z)
    }
}

// The difference of a float with itself is 0, but for an infinity and a NaN.
pub fn is_finite(x: f64) -> bool
    ensures { result ≡ finite x }
{
    x - x == 0.0
}

// `f64::clamp`; where the Rust panics (bounds out of order or NaN), the definition's answer.
pub fn clamp(x: f64, least: f64, most: f64) -> f64
    ensures { result ≡ F.clamp x least most }
{
    if x < least {
        return least;
    }
    if most < x {
        return most;
    }
    x
}

// The place on the segment from a to b that is nearest to p, from 0 at a to 1 at b, in the plane.
pub fn project_on_segment(p: Point2, a: Point2, b: Point2) -> f64
    ensures { result ≡ P.project_on_segment p a b }
{
    let ab = b - a;
    let len2 = ab.dot(ab);
    if len2 < Point3::EPSILON * Point3::EPSILON {
        return 0.0;
    }
    clamp((p - a).dot(ab) / len2, 0.0, 1.0)
}
