// How a yard calls the editor: it lays out maps in memory of its own and makes calls, good and bad ones, each on what the last left. First come the cases of
// document 01, then calls that meet other answers, then a long list of drawn ones, then jobs of several edits. A call is a line: the command; the answer's number;
// of a refusal its entity, if it has one, and of a change the created, the modified and the deleted, each an entity's kind and id, and the warnings. A job is a
// line too: its commands; the answer's number; of a refused command its place, its own number and its entity, and of a change the net lists.
#![tactic(auto)]

ghost use Rattle.std.specs.Prelude.{◌≡◌, ◌+◌, ◌<◌, ◌≤◌, ◌^◌, length};
ghost use Rattle.report.specs.Report as R;

use entities::{Command, Counter, EntityRef, Tolerance};
use job_decided::JobEnd;
use jobs::JobAnswer;
use lent::{Lists, Map, MapView};
use report::{Answer, Counts, ENTITY, WARNING};
use std::io;
use tables::{
    BOUNDARY, BOUNDARY_SIZE, BOUNDARY_START, FIRST_SUCCESSOR, LANE, LANE_LEFT, LANE_RIGHT,
    LEFT_SLOT, POINT, PREDECESSORS, RIGHT_SLOT, RULE_KIND, RULE_LANES, RULE_STOP_LINES,
    STOP_LINE_RULE, STOP_LINE_SIZE, STOP_LINE_START, SUCCESSORS,
};
use words::{COMMAND, CONNECT, DISCONNECT, MERGE, REMOVE, SET_NEIGHBOR, SPLIT, word};

// ---- calls

// Sides and marks of a command's row (crates/words).
const LEFT: u64 = 0;

const RIGHT: u64 = 1;

const NOTHING: u64 = 0;

const SAME: u64 = 1;

const OPPOSITE: u64 = 2;

const FRACTION: u64 = 0;

const STATION: u64 = 1;

const ALONE: u64 = 0;

// Places of a split, as the bits of a double.
const ZERO: u64 = 0;

const TENTH: u64 = 0x3FB9_9999_9999_999A;

const FIFTH: u64 = 0x3FC9_9999_9999_999A;

const HALF: u64 = 0x3FE0_0000_0000_0000;

const WHOLE: u64 = 0x3FF0_0000_0000_0000;

const FIVE: u64 = 0x4014_0000_0000_0000;

const NEAR_END: u64 = 0x4023_9999_9999_999A;

const AT_END: u64 = 0x4023_CCCC_CCCC_CCCD;

const TWENTY: u64 = 0x4034_0000_0000_0000;

const NAN: u64 = 0x7FF8_0000_0000_0000;

// The next id of a case's map, and the second half of its lane 1 where that alone is cut.
const COUNTER: u64 = 200;

const SECOND: u64 = 202;

// Not above all ids of the map.
const TOO_LOW: u64 = 50;

// Words lent for the modified, and for the deleted: 64 pairs.
const ROOM: usize = 128;

// A command's row of words, the counter, and the words that the call lends for the modified and for the deleted.
#[derive(Clone, Copy)]
struct Call {
    row: [u64; COMMAND],
    counter: u64,
    modified: usize,
    deleted: usize,
}

fn plain(counter: u64, row: [u64; COMMAND]) -> Call {
    Call {
        row,
        counter,
        modified: ROOM,
        deleted: ROOM,
    }
}

fn split_row(mark: u64, bits: u64, neighbors: u64) -> [u64; COMMAND] {
    [SPLIT, 1, mark, bits, neighbors]
}

fn pair_row(number: u64, first: u64, second: u64) -> [u64; COMMAND] {
    [number, first, second, 0, 0]
}

fn neighbor_row(side: u64, mark: u64, other: u64) -> [u64; COMMAND] {
    [SET_NEIGHBOR, 1, side, mark, other]
}

// ---- the cases

// The maps, each with its calls; those of the cases have the case's number, and case 2 is the second call of case 1.
const CASE_1: usize = 1;

const CASE_3: usize = 3;

const CASE_4: usize = 4;

const CASE_5: usize = 5;

const CASE_6: usize = 6;

const CASE_7: usize = 7;

const CASE_8: usize = 8;

const CASE_9: usize = 9;

const CASE_10: usize = 10;

const OTHERS: usize = 11;

const LITTLE_ROOM: usize = 12;

const LOW_COUNTER: usize = 13;

const LONG: usize = 14;

const JOBS: usize = 15;

// How many calls each map gets.
fn calls(map: usize) -> usize {
    match map {
        CASE_5 | CASE_6 | CASE_10 | LOW_COUNTER => 1,
        CASE_1 | CASE_7 | CASE_9 | LITTLE_ROOM => 2,
        CASE_3 | CASE_4 | CASE_8 => 3,
        OTHERS => 14,
        LONG => 128,
        _ => 0,
    }
}

fn halved_row(i: usize) -> [u64; COMMAND] {
    match i {
        0 => split_row(FRACTION, HALF, ALONE),
        _ => pair_row(MERGE, 1, SECOND),
    }
}

// A split at the first of three places, at the second, or else at the third.
fn placed_row(mark: u64, places: [u64; 3], i: usize) -> [u64; COMMAND] {
    split_row(mark, places[i.min(2)], ALONE)
}

fn alone_row(i: usize) -> [u64; COMMAND] {
    match i {
        0 => pair_row(CONNECT, 1, 1),
        _ => pair_row(DISCONNECT, 1, 1),
    }
}

// Merged, lane 1 leads to itself.
fn ring_row(i: usize) -> [u64; COMMAND] {
    match i {
        0 => pair_row(CONNECT, 1, 2),
        1 => pair_row(CONNECT, 2, 1),
        _ => pair_row(MERGE, 1, 2),
    }
}

fn ends_row(i: usize) -> [u64; COMMAND] {
    match i {
        0 => pair_row(CONNECT, 1, 2),
        _ => pair_row(CONNECT, 1, 3),
    }
}

fn case_row(map: usize, i: usize) -> [u64; COMMAND] {
    match map {
        CASE_1 => halved_row(i),
        CASE_3 => placed_row(STATION, [TENTH, AT_END, NEAR_END], i),
        CASE_4 => placed_row(FRACTION, [ZERO, WHOLE, NAN], i),
        CASE_5 => split_row(FRACTION, HALF, ALONE),
        CASE_6 => pair_row(REMOVE, 2, 0),
        CASE_7 => alone_row(i),
        CASE_8 => ring_row(i),
        CASE_9 => ends_row(i),
        _ => split_row(STATION, FIVE, ALONE),
    }
}

// ---- other answers

fn other_row(i: usize) -> [u64; COMMAND] {
    match i {
        0 => pair_row(CONNECT, 1, 2),
        1 => pair_row(CONNECT, 1, 2),
        2 => pair_row(CONNECT, 1, 7),
        3 => pair_row(CONNECT, 8, 1),
        4 => pair_row(DISCONNECT, 1, 2),
        5 => neighbor_row(LEFT, OPPOSITE, 2),
        6 => neighbor_row(RIGHT, NOTHING, 0),
        7 => neighbor_row(RIGHT, SAME, 2),
        8 => neighbor_row(RIGHT, SAME, 1),
        9 => neighbor_row(RIGHT, SAME, 9),
        10 => pair_row(MERGE, 1, 1),
        11 => pair_row(MERGE, 1, 2),
        _ => pair_row(REMOVE, 2, 0),
    }
}

// No room for the modified, and room for one of the two deleted.
fn little_room(i: usize, counter: u64) -> Call {
    match i {
        0 => Call {
            row: pair_row(CONNECT, 2, 1),
            counter,
            modified: 0,
            deleted: ROOM,
        },
        _ => Call {
            row: pair_row(REMOVE, 2, 0),
            counter,
            modified: ROOM,
            deleted: ENTITY,
        },
    }
}

// ---- drawn calls

// A linear congruence; what is drawn are the upper bits.
const MODULUS: u64 = 0x8000_0000;

const FACTOR: u64 = 1103515245;

const STEP: u64 = 12345;

const LOWER: u64 = 0x1_0000;

// How many lanes a map may have.
const LANES: u64 = 1024;

fn after(seed: u64) -> u64 {
    (seed % MODULUS * FACTOR + STEP) % MODULUS
}

// One of the n numbers from 0 on.
fn draw(seed: u64, n: u64) -> u64 {
    if n == 0 {
        return 0;
    }
    seed / LOWER % n
}

// A word of a lane in the table.
fn lane_word(lanes: &[u64], seed: u64, k: usize) -> u64
    requires { k < 52 }
{
    let i = draw(seed, word(lanes, 0));
    if LANES <= i {
        return 0;
    }
    word(lanes, 1 + i as usize * LANE + k)
}

// A lane of the table, or now and then any id up to the counter.
fn any_lane(lanes: &[u64], counter: u64, seed: u64) -> u64 {
    if draw(seed, 8) == 0 {
        return draw(after(seed), counter);
    }
    lane_word(lanes, after(seed), 0)
}

fn drawn_split(lane: u64, seed: u64) -> [u64; COMMAND] {
    let neighbors = draw(after(seed), 2);
    match draw(seed, 8) {
        0 => [SPLIT, lane, FRACTION, FIFTH, neighbors],
        1 => [SPLIT, lane, STATION, FIVE, neighbors],
        2 => [SPLIT, lane, STATION, TWENTY, neighbors],
        3 => [SPLIT, lane, FRACTION, WHOLE, neighbors],
        _ => [SPLIT, lane, FRACTION, HALF, neighbors],
    }
}

// A lane's first successor is named where a link is wanted.
fn drawn_row(lanes: &[u64], counter: u64, seed: u64) -> [u64; COMMAND] {
    let a = after(seed);
    let b = after(a);
    let lane = lane_word(lanes, a, 0);
    let behind = lane_word(lanes, a, FIRST_SUCCESSOR);
    let other = any_lane(lanes, counter, b);
    match draw(seed, 16) {
        0 | 1 | 2 | 3 => drawn_split(other, a),
        4 | 5 => [MERGE, lane, behind, 0, 0],
        6 => [MERGE, lane, other, 0, 0],
        7 | 8 | 9 | 10 => [CONNECT, lane, other, 0, 0],
        11 | 12 => [DISCONNECT, lane, behind, 0, 0],
        13 | 14 => [SET_NEIGHBOR, lane, draw(a, 2), draw(b, 3), other],
        _ => [REMOVE, other, 0, 0, 0],
    }
}

fn listed(map: usize, i: usize, counter: u64, seed: u64, lanes: &[u64]) -> Call {
    match map {
        OTHERS => plain(counter, other_row(i)),
        LITTLE_ROOM => little_room(i, counter),
        LOW_COUNTER => plain(TOO_LOW, pair_row(CONNECT, 1, 2)),
        LONG => plain(counter, drawn_row(lanes, counter, seed)),
        _ => plain(counter, case_row(map, i)),
    }
}

// ---- the maps

// What is not written of a row is 0: a driving lane with no centreline, no speed limit and no links. A table's word 0 is its count, and then come its rows
// (crates/tables/specs).

// The place of y in a point.
const Y: usize = 1;

// Points of a line here.
const POINTS: u64 = 2;

fn put<T: Copy>(table: &mut [T], at: usize, value: T) {
    if at < table.len() {
        table[at] = value;
    }
}

// How many lanes a map has.
fn lane_count(map: usize) -> usize
    ensures { result ≤ 8 }
{
    match map {
        CASE_1 | CASE_3 | CASE_4 | CASE_7 | CASE_10 => 1,
        CASE_9 => 3,
        LONG => 8,
        _ => 2,
    }
}

// A lane with its boundaries and, where they are not 0, its neighbours to the left and to the right, its predecessor and its successor.
#[derive(Clone, Copy)]
struct LaneRow {
    id: u64,
    left: u64,
    right: u64,
    beside_left: u64,
    beside_right: u64,
    before: u64,
    behind: u64,
}

// A lane with no links.
fn unlinked(id: u64, left: u64, right: u64, beside_left: u64, beside_right: u64) -> LaneRow {
    LaneRow {
        id,
        left,
        right,
        beside_left,
        beside_right,
        before: 0,
        behind: 0,
    }
}

// Document 01's lane 1, alone or with lane 2 right of it.
fn case_lane(i: usize, lanes: usize) -> LaneRow {
    if i == 1 {
        return unlinked(2, 102, 103, 1, 0);
    }
    if lanes == 2 {
        return unlinked(1, 101, 102, 0, 2);
    }
    unlinked(1, 101, 102, 0, 0)
}

// One that ends at 0 along, and two that start at 0.1 and at 0.2.
fn apart_lane(i: usize) -> LaneRow {
    match i {
        0 => unlinked(1, 101, 102, 0, 0),
        1 => unlinked(2, 103, 104, 0, 0),
        _ => unlinked(3, 105, 106, 0, 0),
    }
}

// The long list's map: two rows of four lanes beside each other, a hundred metres long, each of the second row behind one of the first.
fn long_lane(i: u64) -> LaneRow {
    match i {
        0 => long_row(1, 9, 0, 2, 0, 5),
        1 => long_row(2, 10, 1, 3, 0, 6),
        2 => long_row(3, 11, 2, 4, 0, 7),
        3 => long_row(4, 12, 3, 0, 0, 8),
        4 => long_row(5, 14, 0, 6, 1, 0),
        5 => long_row(6, 15, 5, 7, 2, 0),
        6 => long_row(7, 16, 6, 8, 3, 0),
        _ => long_row(8, 17, 7, 0, 4, 0),
    }
}

fn long_row(
    id: u64,
    left: u64,
    beside_left: u64,
    beside_right: u64,
    before: u64,
    behind: u64,
) -> LaneRow
    requires { left < 1000 }
{
    LaneRow {
        id,
        left,
        right: left + 1,
        beside_left,
        beside_right,
        before,
        behind,
    }
}

fn lane_of(map: usize, i: usize) -> LaneRow {
    match map {
        CASE_9 => apart_lane(i),
        LONG => long_lane(i as u64),
        _ => case_lane(i, lane_count(map)),
    }
}

// A slot's mark or a list's count: whether there is a lane.
fn mark(lane: u64) -> u64 {
    if lane == 0 {
        return 0;
    }
    1
}

// A slot or a list of one lane at most: the mark, and behind it the lane.
fn put_marked(lanes: &mut [u64], at: usize, lane: u64)
    requires { at < 100000 }
{
    put(lanes, at, mark(lane));
    put(lanes, at + 1, lane);
}

// A lane in row i.
fn put_lane(lanes: &mut [u64], i: usize, l: LaneRow)
    requires { i < 1024 }
{
    let at = 1 + i * LANE;
    put(lanes, at, l.id);
    put(lanes, at + LANE_LEFT, l.left);
    put(lanes, at + LANE_RIGHT, l.right);
    put_marked(lanes, at + LEFT_SLOT, l.beside_left);
    put_marked(lanes, at + RIGHT_SLOT, l.beside_right);
    put_marked(lanes, at + PREDECESSORS, l.before);
    put_marked(lanes, at + SUCCESSORS, l.behind);
}

fn lay_lanes(lanes: &mut [u64], map: usize) {
    let n = lane_count(map);
    for i in 0..n {
        put_lane(lanes, i, lane_of(map, i));
    }
    put(lanes, 0, n as u64);
}

// How many boundaries a map has, and the first's id.
fn boundary_count(map: usize) -> usize
    ensures { result ≤ 10 }
{
    match lane_count(map) {
        1 => 2,
        2 => 3,
        3 => 6,
        _ => 10,
    }
}

fn first_boundary(map: usize) -> u64
    ensures { result ≤ 101 }
{
    match map {
        LONG => 9,
        _ => 101,
    }
}

// A boundary in row i, whose line is that of points 2i and 2i + 1.
fn put_boundary(boundaries: &mut [u64], i: usize, id: u64)
    requires { i < 4096 }
{
    let at = 1 + i * BOUNDARY;
    put(boundaries, at, id);
    put(boundaries, at + BOUNDARY_START, i as u64 * POINTS);
    put(boundaries, at + BOUNDARY_SIZE, POINTS);
}

fn lay_boundaries(boundaries: &mut [u64], map: usize) {
    let n = boundary_count(map);
    let first = first_boundary(map);
    for i in 0..n {
        put_boundary(boundaries, i, first + i as u64);
    }
    put(boundaries, 0, n as u64);
}

// A line of two points.
#[derive(Clone, Copy)]
struct Ends {
    from: f64,
    to: f64,
    from_y: f64,
    to_y: f64,
}

fn line_along(from: f64, to: f64, y: f64) -> Ends {
    Ends {
        from,
        to,
        from_y: y,
        to_y: y,
    }
}

// The third line is boundary 103, or in case 10 the stop line.
fn case_line(map: usize, i: usize) -> Ends {
    match i {
        0 => line_along(0.0, 10.0, 2.0),
        1 => line_along(0.0, 10.0, -2.0),
        _ => match map {
            CASE_10 => Ends {
                from: 8.0,
                to: 8.0,
                from_y: 2.0,
                to_y: -2.0,
            },
            _ => line_along(0.0, 10.0, -6.0),
        },
    }
}

fn apart_line(i: usize) -> Ends {
    match i {
        0 => line_along(-10.0, 0.0, 2.0),
        1 => line_along(-10.0, 0.0, -2.0),
        2 => line_along(0.1, 10.0, 2.0),
        3 => line_along(0.1, 10.0, -2.0),
        4 => line_along(0.2, 10.0, 2.0),
        _ => line_along(0.2, 10.0, -2.0),
    }
}

fn long_line(i: usize) -> Ends {
    match i {
        0 => line_along(0.0, 100.0, 8.0),
        1 => line_along(0.0, 100.0, 4.0),
        2 => line_along(0.0, 100.0, 0.0),
        3 => line_along(0.0, 100.0, -4.0),
        4 => line_along(0.0, 100.0, -8.0),
        5 => line_along(100.0, 200.0, 8.0),
        6 => line_along(100.0, 200.0, 4.0),
        7 => line_along(100.0, 200.0, 0.0),
        8 => line_along(100.0, 200.0, -4.0),
        _ => line_along(100.0, 200.0, -8.0),
    }
}

fn line_of(map: usize, i: usize) -> Ends {
    match map {
        CASE_9 => apart_line(i),
        LONG => long_line(i),
        _ => case_line(map, i),
    }
}

fn put_line(coordinates: &mut [f64], i: usize, l: Ends)
    requires { i < 4096 }
{
    let from = i * 2 * POINT;
    let to = from + POINT;
    put(coordinates, from, l.from);
    put(coordinates, from + Y, l.from_y);
    put(coordinates, to, l.to);
    put(coordinates, to + Y, l.to_y);
}

// Points that no line has are not read.
fn lay_lines(coordinates: &mut [f64], map: usize) {
    for i in 0..10 {
        put_line(coordinates, i, line_of(map, i));
    }
}

// Case 10: rule 121 on lane 1, with stop line 111.
fn lay_rule(rules: &mut [u64], map: usize) {
    if map != CASE_10 {
        return;
    }
    put(rules, 0, 1);
    put(rules, 1, 121);
    put(rules, 1 + RULE_KIND, STOP_LINE_RULE);
    put(rules, 1 + RULE_LANES, 1);
    put(rules, 2 + RULE_LANES, 1);
    put(rules, 1 + RULE_STOP_LINES, 1);
    put(rules, 2 + RULE_STOP_LINES, 111);
}

fn lay_stop_line(stop_lines: &mut [u64], map: usize) {
    if map != CASE_10 {
        return;
    }
    put(stop_lines, 0, 1);
    put(stop_lines, 1, 111);
    put(stop_lines, 1 + STOP_LINE_START, 4);
    put(stop_lines, 1 + STOP_LINE_SIZE, POINTS);
}

// ---- lines of words and numbers

fn write(rt: &impl Print, text: &[u8]) -> io::Result<()> {
    rt.write_all(text)
}

fn number(rt: &impl Print, n: u64) -> io::Result<()> {
    rt.print(n)
}

// A further number of a line.
fn next(rt: &impl Print, n: u64) -> io::Result<()> {
    write(rt, b" ")?;
    number(rt, n)
}

// The words of a list from one place to another.
fn each_word(rt: &impl Print, list: &[u64], from: usize, to: usize) -> io::Result<()> {
    for i in from..to {
        next(rt, word(list, i))?;
    }
    Ok(())
}

// ---- what is asked

// The case that begins with a call, or 0.
fn case_of(map: usize, i: usize) -> u64 {
    if map == CASE_1 {
        if i == 1 {
            return 2;
        }
    }
    if i == 0 {
        if map < OTHERS {
            return map as u64;
        }
    }
    0
}

fn heading(rt: &impl Print, n: u64) -> io::Result<()> {
    if n != 0 {
        write(rt, b"case ")?;
        number(rt, n)?;
        write(rt, b"\n")?;
    }
    Ok(())
}

fn verb(rt: &impl Print, command: u64) -> io::Result<()> {
    match command {
        SPLIT => write(rt, b"split"),
        MERGE => write(rt, b"merge"),
        CONNECT => write(rt, b"connect"),
        DISCONNECT => write(rt, b"disconnect"),
        SET_NEIGHBOR => write(rt, b"neighbor"),
        _ => write(rt, b"remove"),
    }
}

fn asked_split(rt: &impl Print, row: [u64; COMMAND]) -> io::Result<()> {
    match row[2] {
        0 => write(rt, b" fraction ")?,
        _ => write(rt, b" station ")?,
    }
    tenths(rt, bits::double(row[3]))?;
    match row[4] {
        0 => write(rt, b" alone"),
        _ => write(rt, b" beside"),
    }
}

fn asked_neighbor(rt: &impl Print, row: [u64; COMMAND]) -> io::Result<()> {
    match row[2] {
        0 => write(rt, b" left")?,
        _ => write(rt, b" right")?,
    }
    match row[3] {
        0 => write(rt, b" none")?,
        1 => write(rt, b" same")?,
        _ => write(rt, b" opposite")?,
    }
    next(rt, row[4])
}

fn command(rt: &impl Print, row: [u64; COMMAND]) -> io::Result<()> {
    verb(rt, row[0])?;
    next(rt, row[1])?;
    match row[0] {
        SPLIT => asked_split(rt, row)?,
        SET_NEIGHBOR => asked_neighbor(rt, row)?,
        REMOVE => {}
        _ => next(rt, row[2])?,
    }
    Ok(())
}

fn asked(rt: &impl Print, row: [u64; COMMAND]) -> io::Result<()> {
    command(rt, row)?;
    write(rt, b": ")
}

// ---- what is answered

// Places in a warning: the count of the related, their pairs, the mark of the removal fix (crates/report/specs).
const RELATED: usize = 4;

const PAIRS: usize = 5;

const FIX: usize = 9;

fn entity(rt: &impl Print, e: Option<EntityRef>) -> io::Result<()> {
    match e {
        None => {}
        Some(e) => {
            let kind = e.kind;
            write(rt, b" |")?;
            next(rt, u64::from(kind))?;
            next(rt, e.id)?;
        }
    }
    Ok(())
}

// The words of the pairs of a warning that are there.
fn related(n: u64) -> usize
    ensures { result ≤ 4 }
{
    if n == 0 {
        return 0;
    }
    if n == 1 {
        return ENTITY;
    }
    ENTITY + ENTITY
}

// The warning whose row begins at word `at`. Pairs that are not there are left out: the editor does not write them.
fn warning(rt: &impl Print, list: &[u64], at: usize) -> io::Result<()>
    requires { at + 10 ≤ length list.now }
{
    let pairs = at + PAIRS;
    write(rt, b" !")?;
    each_word(rt, list, at, pairs)?;
    each_word(rt, list, pairs, pairs + related(word(list, at + RELATED)))?;
    next(rt, word(list, at + FIX))
}

// An answer's lists lie at the front of those that are lent, as C lends them, so their numbers go beside them.
fn each_warning(rt: &impl Print, list: &[u64], n: usize) -> io::Result<()> {
    let rows = n.min(list.len() / WARNING);
    for i in 0..rows {
        warning(rt, list, i * WARNING)?;
    }
    Ok(())
}

fn each_pair(rt: &impl Print, list: &[u64], n: usize) -> io::Result<()> {
    let pairs = n.min(list.len() / ENTITY);
    write(rt, b" |")?;
    each_word(rt, list, 0, pairs * ENTITY)
}

fn answer(rt: &impl Print, a: Answer, lists: &Lists) -> io::Result<()> {
    number(rt, report::answer_number(a))?;
    match a {
        Err(refusal) => entity(rt, refusal.entity())?,
        Ok(made) => change(rt, made.counts, lists)?,
    }
    write(rt, b"\n")
}

fn change(rt: &impl Print, n: Counts, lists: &Lists) -> io::Result<()> {
    each_pair(rt, lists.created, n.created)?;
    each_pair(rt, lists.modified, n.modified)?;
    each_pair(rt, lists.deleted, n.deleted)?;
    each_warning(rt, lists.warnings, n.warnings)
}

// ---- jobs

// How many jobs a map gets, behind its calls.
fn jobs(map: usize) -> usize {
    if map == JOBS {
        return 3;
    }
    0
}

// The words of a job: lane 5 is closed, and lane 1 led to lane 6; then one whose second edit is refused, so that none is made.
const JOB: usize = 15;

fn job_rows(k: usize) -> [u64; JOB] {
    match k {
        0 => [
            DISCONNECT, 1, 5, 0, 0, REMOVE, 5, 0, 0, 0, CONNECT, 1, 6, 0, 0,
        ],
        _ => [CONNECT, 2, 7, 0, 0, MERGE, 2, 99, 0, 0, REMOVE, 2, 0, 0, 0],
    }
}

// The third has no edit.
fn job_size(k: usize) -> usize
    ensures { result ≤ 15 }
{
    if k < 2 {
        return JOB;
    }
    0
}

fn row_at(rows: &[u64], at: usize) -> [u64; COMMAND]
    requires { at < 1000000 }
{
    [
        word(rows, at),
        word(rows, at + 1),
        word(rows, at + 2),
        word(rows, at + 3),
        word(rows, at + 4),
    ]
}

fn asked_job(rt: &impl Print, rows: &[u64]) -> io::Result<()>
    requires { length rows.now ≤ 15 }
{
    write(rt, b"job")?;
    let n = rows.len() / COMMAND;
    for i in 0..n {
        write(rt, b"; ")?;
        command(rt, row_at(rows, i * COMMAND))?;
    }
    write(rt, b": ")
}

fn job_answer(rt: &impl Print, a: JobAnswer, lists: &Lists) -> io::Result<()> {
    number(rt, jobs::job_number(a))?;
    match a {
        Ok(n) => change(rt, n, lists)?,
        Err(_) => {
            next(rt, jobs::job_place(a))?;
            next(rt, jobs::job_own_number(a))?;
            entity(rt, jobs::job_entity(a))?;
        }
    }
    write(rt, b"\n")
}

// ---- what is left

// The most rows that are shown, the most points of a map, and the most links of a lane each way.
const ROWS: usize = 64;

const MOST: usize = 65536;

const LINKS: usize = 16;

// A list of a row: its count is at `at`.
fn ids(rt: &impl Print, table: &[u64], at: usize) -> io::Result<()>
    requires { at < 1000000 }
{
    let n = (word(table, at) as usize).min(LINKS);
    write(rt, b" |")?;
    each_word(rt, table, at + 1, at + 1 + n)
}

// A lane: id | predecessors | successors.
fn lane_left(rt: &impl Print, lanes: &[u64], i: usize) -> io::Result<()>
    requires { i < 64 }
{
    let at = 1 + i * LANE;
    write(rt, b"  lane")?;
    next(rt, word(lanes, at))?;
    ids(rt, lanes, at + PREDECESSORS)?;
    ids(rt, lanes, at + SUCCESSORS)?;
    write(rt, b"\n")
}

fn each_lane(rt: &impl Print, lanes: &[u64]) -> io::Result<()> {
    let n = (word(lanes, 0) as usize).min(ROWS);
    for i in 0..n {
        lane_left(rt, lanes, i)?;
    }
    Ok(())
}

// A length to a tenth.
fn tenths(rt: &impl Print, x: f64) -> io::Result<()> {
    let t = x * 10.0 + 0.5;
    if t > -1.0 {
        if t < 18446744073709551616.0 {
            let n = std::num::truncating_f64_to_u64(t);
            number(rt, n / 10)?;
            write(rt, b".")?;
            number(rt, n % 10)?;
            return Ok(());
        }
    }
    write(rt, b"nan")
}

fn along(rt: &impl Print, coordinates: &[f64], at: usize) -> io::Result<()> {
    if at < coordinates.len() {
        let x = coordinates[at];
        if x < 0.0 {
            write(rt, b" -")?;
            tenths(rt, -x)?;
            return Ok(());
        }
        write(rt, b" ")?;
        tenths(rt, x)?;
    }
    Ok(())
}

// How far along the points of a line are.
fn each_point(rt: &impl Print, coordinates: &[f64], start: usize, size: usize) -> io::Result<()>
    requires { (start ≤ 65536) × (size ≤ 65536) }
{
    for i in 0..size {
        along(rt, coordinates, (start + i) * POINT)?;
    }
    Ok(())
}

// A boundary: id | points.
fn boundary_left(
    rt: &impl Print,
    boundaries: &[u64],
    coordinates: &[f64],
    i: usize,
) -> io::Result<()>
    requires { i < 64 }
{
    let at = 1 + i * BOUNDARY;
    let start = (word(boundaries, at + BOUNDARY_START) as usize).min(MOST);
    let size = (word(boundaries, at + BOUNDARY_SIZE) as usize).min(MOST);
    write(rt, b"  boundary")?;
    next(rt, word(boundaries, at))?;
    write(rt, b" |")?;
    each_point(rt, coordinates, start, size)?;
    write(rt, b"\n")
}

fn each_boundary(rt: &impl Print, boundaries: &[u64], coordinates: &[f64]) -> io::Result<()> {
    let n = (word(boundaries, 0) as usize).min(ROWS);
    for i in 0..n {
        boundary_left(rt, boundaries, coordinates, i)?;
    }
    Ok(())
}

// The first rule's lanes, if there is a rule.
fn rule(rt: &impl Print, rules: &[u64]) -> io::Result<()> {
    if word(rules, 0) == 0 {
        return Ok(());
    }
    write(rt, b"  rule")?;
    next(rt, word(rules, 1))?;
    ids(rt, rules, 1 + RULE_LANES)?;
    write(rt, b"\n")
}

// The map that a change of a case has left.
fn left(rt: &impl Print, which: usize, m: Made, map: MapView) -> io::Result<()> {
    if OTHERS <= which {
        return Ok(());
    }
    if m.relinked {
        each_lane(rt, map.lanes)?;
        rule(rt, map.rules)?;
    }
    if m.redrawn {
        each_boundary(rt, map.boundaries, map.coordinates)?;
    }
    Ok(())
}

fn end(rt: &impl Print, map: usize, lanes: &[u64]) -> io::Result<()> {
    if map == LONG {
        write(rt, b"links\n")?;
        each_lane(rt, lanes)?;
    }
    Ok(())
}

// The links that n jobs leave.
fn end_jobs(rt: &impl Print, n: usize, lanes: &[u64]) -> io::Result<()> {
    if 0 < n {
        each_lane(rt, lanes)?;
    }
    Ok(())
}

// ---- the yard

// The counter behind a call, and what is worth showing then: lanes where something was modified, lines too where something came or went.
#[derive(Clone, Copy)]
struct Made {
    counter: u64,
    relinked: bool,
    redrawn: bool,
}

fn behind_call(counter: u64, n: Counts) -> Made {
    Made {
        counter,
        relinked: 0 < n.modified,
        redrawn: 0 < n.created || 0 < n.deleted,
    }
}

// Makes a call on a map and on lists whose slices are lent one by one.
fn apply(counter: u64, map: &mut Map, command: Command, lists: &mut Lists) -> Answer
    ensures { R.counter_behind counter result < 2 ^ 64 }
{
    let lanes = &mut *map.lanes;
    let boundaries = &mut *map.boundaries;
    let roads = &mut *map.roads;
    let junctions = &mut *map.junctions;
    let rules = &mut *map.rules;
    let stop_lines = &mut *map.stop_lines;
    let crosswalks = &mut *map.crosswalks;
    let coordinates = &mut *map.coordinates;
    let created = &mut *lists.created;
    let modified = &mut *lists.modified;
    let deleted = &mut *lists.deleted;
    let warnings = &mut *lists.warnings;
    ops::apply(
        Counter { next: counter },
        Tolerance::preset(),
        lanes,
        boundaries,
        roads,
        junctions,
        rules,
        stop_lines,
        crosswalks,
        coordinates,
        command,
        created,
        modified,
        deleted,
        warnings,
    )
}

// Makes a call and writes its line. It lends lists of 64 pairs, and less for the modified and the deleted where the call says so, and of 32 warnings.
fn make(rt: &impl Print, c: Call, map: &mut Map) -> io::Result<Made> {
    let mut created = [0; 128];
    let mut modified = [0; 128];
    let mut deleted = [0; 128];
    let mut warnings = [0; 320];
    let row = c.row;
    let changed = c.modified.min(ROOM);
    let gone = c.deleted.min(ROOM);
    let counter = c.counter;
    let mut lists = Lists {
        created: &mut created,
        modified: &mut modified[..changed],
        deleted: &mut deleted[..gone],
        warnings: &mut warnings,
    };
    asked(rt, row)?;
    let command = words::command_of(&row);
    let a = apply(counter, map, command, &mut lists);
    answer(rt, a, &lists)?;
    Ok(behind_call(report::counter_behind(counter, a), report::answer_counts(a)))
}

// Makes a job on a map, with a second area and lists, all of whose slices are lent one by one.
fn apply_job(
    counter: u64,
    map: &mut Map,
    rows: &[u64],
    area: &mut Map,
    lists: &mut Lists,
) -> JobEnd {
    job::apply(
        counter,
        Tolerance::preset(),
        &mut *map.lanes,
        &mut *map.boundaries,
        &mut *map.roads,
        &mut *map.junctions,
        &mut *map.rules,
        &mut *map.stop_lines,
        &mut *map.crosswalks,
        &mut *map.coordinates,
        job_words::job_of(rows),
        &mut *area.lanes,
        &mut *area.boundaries,
        &mut *area.roads,
        &mut *area.junctions,
        &mut *area.rules,
        &mut *area.stop_lines,
        &mut *area.crosswalks,
        &mut *area.coordinates,
        &mut *lists.created,
        &mut *lists.modified,
        &mut *lists.deleted,
        &mut *lists.warnings,
    )
}

// The job with lists of 64 pairs and of 32 warnings; the counter behind it.
fn job_with_lists(
    rt: &impl Print,
    counter: u64,
    map: &mut Map,
    rows: &[u64],
    area: &mut Map,
) -> io::Result<u64> {
    let mut created = [0; 128];
    let mut modified = [0; 128];
    let mut deleted = [0; 128];
    let mut warnings = [0; 320];
    let mut lists = Lists {
        created: &mut created,
        modified: &mut modified,
        deleted: &mut deleted,
        warnings: &mut warnings,
    };
    let end = apply_job(counter, map, rows, area, &mut lists);
    job_answer(rt, end.answer, &lists)?;
    Ok(end.counter)
}

// The job with a second area as large as the map's.
fn job_with_area(rt: &impl Print, counter: u64, map: &mut Map, rows: &[u64]) -> io::Result<u64> {
    let mut lanes = [0; 3329];
    let mut boundaries = [0; 641];
    let mut roads = [0; 69];
    let mut junctions = [0; 70];
    let mut rules = [0; 331];
    let mut stop_lines = [0; 5];
    let mut crosswalks = [0; 8];
    let mut coordinates = [0.0; 3000];
    let mut area = Map {
        lanes: &mut lanes,
        boundaries: &mut boundaries,
        roads: &mut roads,
        junctions: &mut junctions,
        rules: &mut rules,
        stop_lines: &mut stop_lines,
        crosswalks: &mut crosswalks,
        coordinates: &mut coordinates,
    };
    job_with_lists(rt, counter, map, rows, &mut area)
}

// Asks for a job and writes its line.
fn make_job(rt: &impl Print, k: usize, counter: u64, map: &mut Map) -> io::Result<u64> {
    let rows = job_rows(k);
    let n = job_size(k);
    asked_job(rt, &rows[..n])?;
    job_with_area(rt, counter, map, &rows[..n])
}

fn each_job(rt: &impl Print, n: usize, map: &mut Map) -> io::Result<()> {
    let mut counter = first_counter(JOBS);
    for k in 0..n {
        counter = make_job(rt, k, counter, map)?;
    }
    end_jobs(rt, n, map.lanes)
}

fn first_counter(map: usize) -> u64 {
    match map {
        LONG | JOBS => 19,
        _ => COUNTER,
    }
}

fn each_call(rt: &impl Print, which: usize, n: usize, map: &mut Map) -> io::Result<()> {
    let mut counter = first_counter(which);
    let mut seed = 7;
    for i in 0..n {
        heading(rt, case_of(which, i))?;
        let c = listed(which, i, counter, seed, map.lanes);
        let m = make(rt, c, map)?;
        left(rt, which, m, map.view())?;
        counter = m.counter;
        seed = after(after(after(seed)));
    }
    end(rt, which, map.lanes)
}

// The jobs are made on the long list's map.
fn layout(map: usize) -> usize {
    if map == JOBS {
        return LONG;
    }
    map
}

// The tables, with room for 64 lanes, 128 boundaries, 1,000 points, and one row of each other table.
fn run(rt: &impl Print, which: usize) -> io::Result<()> {
    let mut lanes = [0; 3329];
    let mut boundaries = [0; 641];
    let mut roads = [0; 69];
    let mut junctions = [0; 70];
    let mut rules = [0; 331];
    let mut stop_lines = [0; 5];
    let mut crosswalks = [0; 8];
    let mut coordinates = [0.0; 3000];
    let laid = layout(which);
    lay_lanes(&mut lanes, laid);
    lay_boundaries(&mut boundaries, laid);
    lay_lines(&mut coordinates, laid);
    lay_rule(&mut rules, laid);
    lay_stop_line(&mut stop_lines, laid);
    let mut map = Map {
        lanes: &mut lanes,
        boundaries: &mut boundaries,
        roads: &mut roads,
        junctions: &mut junctions,
        rules: &mut rules,
        stop_lines: &mut stop_lines,
        crosswalks: &mut crosswalks,
        coordinates: &mut coordinates,
    };
    each_call(rt, which, calls(which), &mut map)?;
    each_job(rt, jobs(which), &mut map)
}

fn main(rt: HostRuntime) -> io::Result<()> {
    write(
        &rt,
        b"command: answer | created | modified | deleted ! warning, an entity by kind and id\n",
    )?;
    run(&rt, CASE_1)?;
    run(&rt, CASE_3)?;
    run(&rt, CASE_4)?;
    run(&rt, CASE_5)?;
    run(&rt, CASE_6)?;
    run(&rt, CASE_7)?;
    run(&rt, CASE_8)?;
    run(&rt, CASE_9)?;
    run(&rt, CASE_10)?;
    write(&rt, b"other answers\n")?;
    run(&rt, OTHERS)?;
    write(&rt, b"too little room\n")?;
    run(&rt, LITTLE_ROOM)?;
    write(&rt, b"a counter below the map's ids\n")?;
    run(&rt, LOW_COUNTER)?;
    write(&rt, b"long list\n")?;
    run(&rt, LONG)?;
    write(&rt, b"jobs\n")?;
    run(&rt, JOBS)
}
