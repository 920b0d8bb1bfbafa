// Replays the oracle's calls of the line functions, a stored stream of which is in data/lines.bin (oracle/FORMAT.md, "Lines"): makes each call
// and compares the answer bit by bit, a NaN with any NaN. It writes for each function how many calls agreed and how many differ.
#![tactic(auto)]

ghost use Rattle.std.specs.Prelude.{◌<◌, ◌^◌, ◌≤◌, length};

use geometry::{Point2, Point3};
use polyline::NearestPoint;
use std::fs::File;
use std::io;
use stream::{Part, file};

// ---- the stream (oracle/FORMAT.md, "Lines"), read front to back, and its answers compared with ours. Past the end all bytes are 0, and the place stays at the end.

// The place in the stream, and whether all that was compared of a call agreed.
#[derive(Clone, Copy)]
struct Cursor {
    at: usize,
    same: bool,
}

#[derive(Clone, Copy)]
struct Taken {
    value: usize,
    next: Cursor,
}

const FLOAT: usize = 8;

fn start() -> Cursor {
    Cursor { at: 0, same: true }
}

// ---- reading

// The place n bytes behind `at`.
fn forward(s: &[u8], at: usize, n: usize) -> usize {
    let end = s.len();
    if end <= at {
        return end;
    }
    if end - at <= n {
        return end;
    }
    at + n
}

fn wide(byte: u8) -> u64
    ensures { result < 256 }
{
    byte as u64
}

fn byte(s: &[u8], at: usize) -> u64
    ensures { result < 256 }
{
    if at < s.len() {
        return wide(s[at]);
    }
    0
}

// Float i from the cursor on.
fn float(s: &[u8], c: Cursor, i: usize) -> f64
    requires { i < 256 }
{
    let at = c.at;
    bits::double(stream::word(s, forward(s, at, i * FLOAT)))
}

// The point whose first coordinate is float i from the cursor on.
fn point(s: &[u8], c: Cursor, i: usize) -> Point3
    requires { i < 128 }
{
    Point3 {
        x: float(s, c, i),
        y: float(s, c, i + 1),
        z: float(s, c, i + 2),
    }
}

// Behind so many floats.
fn past(s: &[u8], c: Cursor, floats: usize) -> Cursor
    requires { floats < 2 ^ 32 }
{
    let at = c.at;
    Cursor {
        at: forward(s, at, floats * FLOAT),
        same: c.same,
    }
}

// A number below 2^21: at most three bytes of seven bits, the least first. No larger one is in the stream.
fn number(s: &[u8], c: Cursor) -> Taken
    ensures { result.value < 2 ^ 21 }
{
    let same = c.same;
    let first = c.at;
    let low = byte(s, first);
    let second = forward(s, first, 1);
    if low < 128 {
        return Taken {
            value: low as usize,
            next: Cursor { at: second, same },
        };
    }
    let middle = byte(s, second);
    let third = forward(s, second, 1);
    if middle < 128 {
        return Taken {
            value: (low % 128 + middle * 128) as usize,
            next: Cursor { at: third, same },
        };
    }
    let high = byte(s, third);
    Taken {
        value: (low % 128 + middle % 128 * 128 + high % 128 * 16384) as usize,
        next: Cursor {
            at: forward(s, third, 1),
            same,
        },
    }
}

// A line, into the front of `line`: how many floats it has. Of one that is too long, what there is room for.
fn read_line(s: &[u8], from: usize, line: &mut [f64]) -> Part
    ensures { result.size ≤ length line.new }
{
    let n = number(
        s,
        Cursor {
            at: from,
            same: true,
        },
    );
    let next = n.next;
    let size = (n.value * 3).min(line.len());
    let mut at = next.at;
    for place in &mut line[..size] {
        *place = bits::double(stream::word(s, at));
        at = forward(s, at, FLOAT);
    }
    Part { size, next: at }
}

// ---- comparing

fn both(a: bool, b: bool) -> bool {
    a && b
}

fn expect(c: Cursor, holds: bool) -> Cursor {
    Cursor {
        at: c.at,
        same: both(c.same, holds),
    }
}

// Whether a double has these bits; of NaNs there is one.
fn has_bits(x: f64, expected: u64) -> bool {
    bits::pattern(x) == bits::pattern(bits::double(expected))
}

fn same_float(s: &[u8], c: Cursor, x: f64) -> Cursor {
    let at = c.at;
    Cursor {
        at: forward(s, at, FLOAT),
        same: both(c.same, has_bits(x, stream::word(s, at))),
    }
}

fn same_number(s: &[u8], c: Cursor, x: usize) -> Cursor {
    let n = number(s, c);
    let next = n.next;
    expect(next, n.value == x)
}

fn same_point(s: &[u8], c: Cursor, p: Point3) -> Cursor {
    let x = same_float(s, c, p.x);
    let y = same_float(s, x, p.y);
    same_float(s, y, p.z)
}

// Whether float `from` + i of `out` has the bits at `at`; it has not where there is none.
fn same_at(s: &[u8], at: usize, out: &[f64], from: usize, i: usize) -> bool {
    let n = out.len();
    if n <= from {
        return false;
    }
    if n - from <= i {
        return false;
    }
    has_bits(out[from + i], stream::word(s, at))
}

// The line of n points that starts at float `from` of `out`.
fn same_line(s: &[u8], c: Cursor, out: &[f64], from: usize, n: usize) -> Cursor {
    let stored = number(s, c);
    let next = stored.next;
    let floats = stored.value * 3;
    let mut same = both(next.same, stored.value == n);
    let mut at = next.at;
    for i in 0..floats {
        same = both(same, same_at(s, at, out, from, i));
        at = forward(s, at, FLOAT);
    }
    Cursor { at, same }
}

// Where we have no answer, there is none in the stream, whose `there` was read; else its floats are passed.
fn absent(s: &[u8], c: Cursor, there: usize, floats: usize) -> Cursor
    requires { floats < 2 ^ 32 }
{
    if there == 0 {
        return c;
    }
    expect(past(s, c, floats), false)
}

// ---- the calls, by the numbers of oracle/FORMAT.md. Where there is no room for a line, the call is not made, and counts as one that differs.

// The 1e-6 of `concat` (document 01).
const JOIN: f64 = 1e-6;

fn maybe_point(s: &[u8], c: Cursor, p: Option<Point3>) -> Cursor {
    let n = number(s, c);
    let next = n.next;
    let there = n.value;
    let Some(q) = p else {
        return absent(s, next, there, 3);
    };
    if there == 0 {
        return expect(next, false);
    }
    same_point(s, next, q)
}

fn maybe_place(s: &[u8], c: Cursor, p: Option<(usize, f64)>) -> Cursor {
    let n = number(s, c);
    let next = n.next;
    let there = n.value;
    if there == 0 {
        let Some(_) = p else {
            return next;
        };
        return expect(next, false);
    }
    let Some((i, t)) = p else {
        let segment = number(s, next);
        let behind = segment.next;
        return expect(past(s, behind, 1), false);
    };
    same_float(s, same_number(s, next, i), t)
}

// `lateral` is not there yet (change request d): it is read, and not compared.
fn same_nearest(s: &[u8], c: Cursor, p: NearestPoint) -> Cursor {
    let point = p.point;
    let on = same_point(s, c, point);
    let distance = same_float(s, on, p.distance);
    let station = same_float(s, distance, p.station);
    past(s, same_number(s, station, p.segment), 1)
}

// Another answer than the stored one, which is passed.
fn other_nearest(s: &[u8], c: Cursor) -> Cursor {
    let segment = number(s, past(s, c, 5));
    let behind = segment.next;
    expect(past(s, behind, 1), false)
}

fn maybe_nearest(s: &[u8], c: Cursor, p: Option<NearestPoint>) -> Cursor {
    let n = number(s, c);
    let next = n.next;
    let there = n.value;
    if there == 0 {
        let Some(_) = p else {
            return next;
        };
        return expect(next, false);
    }
    let Some(q) = p else {
        return other_nearest(s, next);
    };
    same_nearest(s, next, q)
}

fn maybe_heading(s: &[u8], c: Cursor, p: Option<Point2>) -> Cursor {
    let n = number(s, c);
    let next = n.next;
    let there = n.value;
    let Some(q) = p else {
        return absent(s, next, there, 2);
    };
    if there == 0 {
        return expect(next, false);
    }
    same_float(s, same_float(s, next, q.x), q.y)
}

// ---- lines

// A line that was not made.
fn no_line(s: &[u8], c: Cursor, out: &[f64]) -> Cursor {
    same_line(s, expect(c, false), out, 0, 0)
}

fn slice(s: &[u8], c: Cursor, a: &[f64], out: &mut [f64]) -> Cursor {
    let from = float(s, c, 0);
    let to = float(s, c, 1);
    let answer = past(s, c, 2);
    if out.len() / 3 < stations::slice_points(a, from, to) {
        return no_line(s, answer, out);
    }
    let n = stations::slice(a, from, to, out);
    same_line(s, answer, out, 0, n)
}

fn split(s: &[u8], c: Cursor, a: &[f64], out: &mut [f64]) -> Cursor {
    let station = float(s, c, 0);
    let answer = past(s, c, 1);
    let first = stations::slice_points(a, 0.0, station);
    let second = stations::slice_points(a, station, polyline::length(a));
    let room = out.len() / 3;
    if room < first {
        return no_line(s, no_line(s, answer, out), out);
    }
    if room - first < second {
        return no_line(s, no_line(s, answer, out), out);
    }
    let behind = first * 3;
    let n = stations::split_at(a, station, out);
    let middle = same_line(s, answer, out, 0, n.first);
    same_line(s, middle, out, behind, n.second)
}

fn resample(s: &[u8], c: Cursor, a: &[f64], out: &mut [f64]) -> Cursor {
    let count = number(s, c);
    let answer = count.next;
    let wanted = count.value;
    if 65536 < wanted {
        return no_line(s, answer, out);
    }
    if out.len() / 3 < stations::resample_points(a, wanted) {
        return no_line(s, answer, out);
    }
    let n = stations::resample_count(a, wanted, out);
    same_line(s, answer, out, 0, n)
}

fn reversed(s: &[u8], c: Cursor, a: &[f64], out: &mut [f64]) -> Cursor {
    if out.len() / 3 < polyline::count(a) {
        return no_line(s, c, out);
    }
    let n = joins::reversed(a, out);
    same_line(s, c, out, 0, n)
}

fn concat(s: &[u8], c: Cursor, a: &[f64], b: &[f64], out: &mut [f64]) -> Cursor {
    if 65536 < a.len() {
        return no_line(s, c, out);
    }
    if 65536 < b.len() {
        return no_line(s, c, out);
    }
    if out.len() / 3 < joins::concat_points(JOIN, a, b) {
        return no_line(s, c, out);
    }
    let n = joins::concat(JOIN, a, b, out);
    same_line(s, c, out, 0, n)
}

// A side without a point has no centreline.
fn centerline(s: &[u8], c: Cursor, a: &[f64], b: &[f64], out: &mut [f64]) -> Cursor {
    let there = number(s, c);
    let next = there.next;
    let points = stations::centerline_points(a, b);
    if there.value == 0 {
        return expect(next, points == 0);
    }
    let answer = expect(next, points != 0);
    if 65536 < points {
        return no_line(s, answer, out);
    }
    if out.len() / 3 < points {
        return no_line(s, answer, out);
    }
    let n = stations::centerline(a, b, out);
    same_line(s, answer, out, 0, n)
}

// ---- the functions by number, as the stored stream has them

fn plane(s: &[u8], c: Cursor, i: usize) -> Point2
    requires { i < 128 }
{
    Point2 {
        x: float(s, c, i),
        y: float(s, c, i + 1),
    }
}

fn project(s: &[u8], c: Cursor) -> Cursor {
    let t = geometry::project_on_segment(plane(s, c, 0), plane(s, c, 2), plane(s, c, 4));
    same_float(s, past(s, c, 6), t)
}

fn lerp(s: &[u8], c: Cursor) -> Cursor {
    let p = point(s, c, 0).lerp(point(s, c, 3), float(s, c, 6));
    same_point(s, past(s, c, 7), p)
}

// 14 to 20, on points alone.
fn on_points(f: usize, s: &[u8], c: Cursor) -> Cursor {
    if f == 14 {
        return project(s, c);
    }
    if f == 15 {
        return lerp(s, c);
    }
    if f == 16 {
        let d = point(s, c, 0).distance(point(s, c, 3));
        return same_float(s, past(s, c, 6), d);
    }
    if f == 17 {
        let d = point(s, c, 0).distance_2d(point(s, c, 3));
        return same_float(s, past(s, c, 6), d);
    }
    if f == 18 {
        return same_float(s, past(s, c, 2), plane(s, c, 0).norm());
    }
    if f == 19 {
        return maybe_heading(s, past(s, c, 2), plane(s, c, 0).normalized());
    }
    if f == 20 {
        return same_float(s, past(s, c, 3), point(s, c, 0).norm());
    }
    expect(c, false)
}

// 1 to 7, which read one line.
fn on_line(f: usize, s: &[u8], c: Cursor, a: &[f64]) -> Cursor {
    if f == 1 {
        return same_float(s, c, polyline::length(a));
    }
    if f == 2 {
        return maybe_point(s, c, polyline::first(a));
    }
    if f == 3 {
        return maybe_point(s, c, polyline::last(a));
    }
    if f == 7 {
        return maybe_nearest(s, past(s, c, 2), nearest::nearest_point(a, plane(s, c, 0)));
    }
    let station = float(s, c, 0);
    let answer = past(s, c, 1);
    if f == 4 {
        return maybe_place(s, answer, polyline::locate(a, station));
    }
    if f == 5 {
        return maybe_point(s, answer, polyline::point_at(a, station));
    }
    if f == 6 {
        return maybe_point(s, answer, polyline::point_at_fraction(a, station));
    }
    expect(c, false)
}

// The call of function f, whose arguments are at c. A number that no function has is a call that differs.
fn call(f: usize, s: &[u8], c: Cursor, a: &[f64], b: &[f64], out: &mut [f64]) -> Cursor {
    if f == 8 {
        return slice(s, c, a, out);
    }
    if f == 9 {
        return split(s, c, a, out);
    }
    if f == 10 {
        return resample(s, c, a, out);
    }
    if f == 11 {
        return reversed(s, c, a, out);
    }
    if f == 12 {
        return concat(s, c, a, b, out);
    }
    if f == 13 {
        return centerline(s, c, a, b, out);
    }
    if f < 8 {
        return on_line(f, s, c, a);
    }
    on_points(f, s, c)
}

// ---- the program

// What names the form of the stream.
const FORM: usize = 2;

// The highest number of a function.
const FUNCTIONS: usize = 20;

// More is not counted.
const MOST: u64 = 0x100_0000;

// The counts: of all calls, at 0; of those that differ, at 1; of function f, at 2f + 2 those that agreed, and at 2f + 3 those that differ.
fn bump(counts: &mut [u64], i: usize) {
    if counts.len() <= i {
        return;
    }
    if counts[i] < MOST {
        counts[i] = counts[i] + 1;
    }
}

fn enter(counts: &mut [u64], f: usize, same: bool)
    requires { f < 2 ^ 21 }
{
    bump(counts, 0);
    if same {
        bump(counts, f * 2 + 2);
        return;
    }
    bump(counts, 1);
    bump(counts, f * 2 + 3);
}

fn counted(counts: &[u64], i: usize) -> u64 {
    if counts.len() <= i {
        return 0;
    }
    counts[i]
}

// One call; the place behind it.
fn turn(s: &[u8], at: usize, a: &[f64], b: &[f64], out: &mut [f64], counts: &mut [u64]) -> usize {
    let f = number(s, Cursor { at, same: true });
    let c = f.next;
    let answer = call(f.value, s, c, a, b, out);
    enter(counts, f.value, answer.same);
    answer.at
}

// The calls of a group; the place behind them.
fn turns(
    s: &[u8],
    from: usize,
    a: &[f64],
    b: &[f64],
    out: &mut [f64],
    counts: &mut [u64],
) -> usize {
    let n = number(
        s,
        Cursor {
            at: from,
            same: true,
        },
    );
    let next = n.next;
    let wanted = n.value;
    let mut at = next.at;
    for i in 0..wanted {
        at = turn(s, at, a, b, out, counts);
    }
    at
}

// The lines of a group, which are read into `one` and `other`, and its calls; the place behind them.
fn lines(
    s: &[u8],
    one: &mut [f64],
    other: &mut [f64],
    out: &mut [f64],
    counts: &mut [u64],
) -> usize {
    let a = read_line(s, 0, one);
    let b = read_line(s, a.next, other);
    let m = a.size;
    let n = b.size;
    turns(s, b.next, &one[..m], &other[..n], out, counts)
}

// A group; the place behind it. A line has at most 256 points. A made line has at most 533 here.
fn group(s: &[u8], counts: &mut [u64]) -> usize {
    let mut one = [0.0; 768];
    let mut other = [0.0; 768];
    let mut out = [0.0; 1600];
    lines(s, &mut one, &mut other, &mut out, counts)
}

// The group at place `at` of the file; the place behind it. A group has at most as many bytes as fit.
fn next(file: &mut File, at: u32, bytes: &mut [u8], counts: &mut [u64]) -> u32 {
    let n = file::window(file, at, bytes);
    file::behind(at, group(&bytes[..n], counts))
}

// All groups; the place behind them.
fn groups(file: &mut File, from: u32, n: usize, bytes: &mut [u8], counts: &mut [u64]) -> u32 {
    let mut at = from;
    for i in 0..n {
        at = next(file, at, bytes, counts);
    }
    at
}

fn print_function(rt: &impl Print, f: usize, agreed: u64, differ: u64) -> io::Result<()> {
    println!(rt; "{f}: {agreed} agree, {differ} differ")
}

fn each(rt: &impl Print, counts: &[u64]) -> io::Result<()> {
    for f in 1..=FUNCTIONS {
        print_function(
            rt,
            f,
            counted(counts, f * 2 + 2),
            counted(counts, f * 2 + 3),
        )?;
    }
    Ok(())
}

fn report(rt: &impl Print, counts: &[u64]) -> io::Result<()> {
    each(rt, counts)?;
    let calls = counted(counts, 0);
    let differ = counted(counts, 1);
    println!(rt; "{calls} calls, {differ} differ")
}

// What stands before the groups.
#[derive(Clone, Copy)]
struct Opening {
    form: usize,
    groups: usize,
    at: usize,
}

fn head(s: &[u8]) -> Opening {
    let form = number(s, start());
    let second = form.next;
    let groups = number(s, second);
    let first = groups.next;
    Opening {
        form: form.value,
        groups: groups.value,
        at: first.at,
    }
}

fn first(file: &mut File, bytes: &mut [u8]) -> Opening {
    let n = file::window(file, 0, bytes);
    head(&bytes[..n])
}

fn replay(
    rt: &impl Print,
    file: &mut File,
    bytes: &mut [u8],
    counts: &mut [u64],
) -> io::Result<()> {
    let begin = first(file, bytes);
    let end = groups(file, file::behind(0, begin.at), begin.groups, bytes, counts);
    report(rt, counts)?;
    if begin.form != FORM {
        println!(rt; "not a stream of lines")?;
    }
    if file::window(file, end, bytes) != 0 {
        println!(rt; "the stream does not end behind its last call")?;
    }
    Ok(())
}

fn compare(rt: &impl Print, file: &mut File, bytes: &mut [u8]) -> io::Result<()> {
    let mut counts = [0; 44];
    replay(rt, file, bytes, &mut counts)
}

fn main(rt: HostRuntime) -> io::Result<()> {
    let mut file = File::open(&rt, "lines.bin")?;
    let mut bytes = [0; 65536];
    compare(&rt, &mut file, &mut bytes)
}
