// What a host in Rust or C may call: `rt lib` in crates/voldrekka. A line is passed as the place of its coordinates, three a point, and how many
// coordinates there are. A map is passed slice by slice, each with its length, as the header in include/ has it.
#![tactic(auto)]

ghost use Rattle.std.specs.Prelude.{◌≡◌, ◌++◌, cond, leb, length};
ghost use Rattle.voldrekka.specs.Nearest.{nearest, answered, floats, segment_of};
ghost use Rattle.voldrekka.specs.Split.{pieces_fit};
ghost use Rattle.lists.specs.Rows.{over};
ghost use Rattle.polyline.specs.Polyline as L;
ghost use Rattle.polyline.specs.Polyline.{points, flat};
ghost use Rattle.root.specs.Root.{root};
ghost use Rattle.tables.specs.Formed.{sound_tables};
ghost use Rattle.step.specs.Step.{tables_of, lent_of};
ghost use Rattle.faults.specs.Faults.{fault_of};
ghost use Rattle.words.specs.Words.{command_of};
ghost use Rattle.voldrekka.specs.Edits.{called, calling};
ghost use Rattle.voldrekka.specs.Jobs.{job_called, job_calling};
ghost use Rattle.job_words.specs.JobWords.{job_of};

use entities::{Counter, Tolerance};
use faults::Fault;
use geometry::Point2;
use job_words::ToldJob;
use words::Told;

// The square root of every double.
#[unsafe(no_mangle)]
pub extern "C" fn voldrekka_sqrt(x: f64) -> f64
    ensures { result ≡ root x }
{
    root::sqrt(x)
}

#[unsafe(no_mangle)]
pub extern "C" fn voldrekka_length(line: &[f64]) -> f64
    ensures { result ≡ L.line_length (points line.now) }
{
    polyline::length(line)
}

// Writes point, distance and station to the first five floats of `out`, and answers the segment. For a line without a point, and without room
// for five floats, it writes nothing and answers 0.
#[unsafe(no_mangle)]
pub extern "C" fn voldrekka_nearest_point(line: &[f64], x: f64, y: f64, out: &mut [f64]) -> usize
    ensures { (result ≡ segment_of (answered (leb 5 (length out.old)) (nearest (points line.now) x y))) × (out.new ≡ over out.old 0 (floats (answered (leb 5 (length out.old)) (nearest (points line.now) x y)))) }
{
    if out.len() < 5 {
        return 0;
    }
    let found = nearest::nearest_point(line, Point2 { x, y });
    let Some(best) = found else {
        return 0;
    };
    let p = best.point;
    polyline::put_point(out, 0, p);
    out[3] = best.distance;
    out[4] = best.station;
    best.segment
}

// Whether so many floats have room for both pieces of a split. A piece has at most one point more than the line: only where two such might not
// fit are the points counted, which takes as long as the split.
fn fits(line: &[f64], station: f64, floats: usize) -> bool
    ensures { result ≡ pieces_fit (points line.now) station floats }
{
    let places = floats / 3;
    if polyline::count(line) < places / 2 {
        return true;
    }
    let before = stations::slice_points(line, 0.0, station);
    let behind = stations::slice_points(line, station, polyline::length(line));
    if places < before {
        return false;
    }
    if places - before < behind {
        return false;
    }
    true
}

// Writes the second piece behind the first, and answers how many points the first has; `second` is how many the second has. Without room
// for both it answers 0, and `out` and `second` stay as they came.
#[unsafe(no_mangle)]
pub extern "C" fn voldrekka_split_at(
    line: &[f64],
    station: f64,
    out: &mut [f64],
    second: &mut usize,
) -> usize
    ensures { (result ≡ cond (pieces_fit (points line.now) station (length out.old)) (length (L.first_piece (points line.now) station)) 0) × ((second.new ≡ cond (pieces_fit (points line.now) station (length out.old)) (length (L.second_piece (points line.now) station)) second.old) × (out.new ≡ cond (pieces_fit (points line.now) station (length out.old)) (over out.old 0 (flat (L.first_piece (points line.now) station ++ L.second_piece (points line.now) station))) out.old)) }
{
    if !fits(line, station, out.len()) {
        return 0;
    }
    let pieces = stations::split_at(line, station, out);
    *second = pieces.second;
    pieces.first
}

// "A map is sound when ..", of lent memory with any contents.
#[unsafe(no_mangle)]
pub extern "C" fn voldrekka_sound(
    counter: u64,
    lanes: &[u64],
    boundaries: &[u64],
    roads: &[u64],
    junctions: &[u64],
    rules: &[u64],
    stop_lines: &[u64],
    crosswalks: &[u64],
    coordinates: &[f64],
) -> bool
    ensures { result ≡ sound_tables counter (tables_of lanes.now boundaries.now roads.now junctions.now rules.now stop_lines.now crosswalks.now coordinates.now) }
{
    sound_map::sound(
        counter,
        lanes,
        boundaries,
        roads,
        junctions,
        rules,
        stop_lines,
        crosswalks,
        coordinates,
    )
}

// Which clause of soundness fails first, in which table and at which row (crates/row_faults/specs/Clauses.antt); all 0 where the map is sound. For a person who drew a
// map, after a refusal of 9.
#[unsafe(no_mangle)]
pub extern "C" fn voldrekka_fault(
    counter: u64,
    lanes: &[u64],
    boundaries: &[u64],
    roads: &[u64],
    junctions: &[u64],
    rules: &[u64],
    stop_lines: &[u64],
    crosswalks: &[u64],
    coordinates: &[f64],
) -> Fault
    ensures { result ≡ fault_of counter (tables_of lanes.now boundaries.now roads.now junctions.now rules.now stop_lines.now crosswalks.now coordinates.now) }
{
    faults::first_fault(
        counter,
        lanes,
        boundaries,
        roads,
        junctions,
        rules,
        stop_lines,
        crosswalks,
        coordinates,
    )
}

// ---- the edits

// Makes the command that a row of words is (crates/words) on the map that is lent, or refuses it, advances the counter that is lent, and answers by value: number,
// entity, counts, second half and the counter again. A refused call writes nothing. The tolerances are document 01's, and are filled in here alone.
#[unsafe(no_mangle)]
pub extern "C" fn voldrekka_apply(
    counter: &mut Counter,
    lanes: &mut [u64],
    boundaries: &mut [u64],
    roads: &mut [u64],
    junctions: &mut [u64],
    rules: &mut [u64],
    stop_lines: &mut [u64],
    crosswalks: &mut [u64],
    coordinates: &mut [f64],
    command: &[u64],
    created: &mut [u64],
    modified: &mut [u64],
    deleted: &mut [u64],
    warnings: &mut [u64],
) -> Told
    ensures { called (lent_of counter.new.next lanes.new boundaries.new roads.new junctions.new rules.new stop_lines.new crosswalks.new coordinates.new created.new modified.new deleted.new warnings.new) result ≡ calling (command_of command.now) (lent_of counter.old.next lanes.old boundaries.old roads.old junctions.old rules.old stop_lines.old crosswalks.old coordinates.old created.old modified.old deleted.old warnings.old) }
{
    let before = counter.next;
    let made = words::command_of(command);
    let tolerance = Tolerance::preset();
    let answer = allocator::apply(
        counter,
        tolerance,
        lanes,
        boundaries,
        roads,
        junctions,
        rules,
        stop_lines,
        crosswalks,
        coordinates,
        made,
        created,
        modified,
        deleted,
        warnings,
    );
    words::tell(before, answer)
}

// Makes the job that rows of words are (crates/job_words), all of its edits or none, and answers by value. The second area, the slices whose names begin with
// old_, begins with the map's slices as they came once none of its own is shorter, made or not. A refused job writes nothing else.
#[unsafe(no_mangle)]
pub extern "C" fn voldrekka_job(
    counter: &mut u64,
    lanes: &mut [u64],
    boundaries: &mut [u64],
    roads: &mut [u64],
    junctions: &mut [u64],
    rules: &mut [u64],
    stop_lines: &mut [u64],
    crosswalks: &mut [u64],
    coordinates: &mut [f64],
    commands: &[u64],
    old_lanes: &mut [u64],
    old_boundaries: &mut [u64],
    old_roads: &mut [u64],
    old_junctions: &mut [u64],
    old_rules: &mut [u64],
    old_stop_lines: &mut [u64],
    old_crosswalks: &mut [u64],
    old_coordinates: &mut [f64],
    created: &mut [u64],
    modified: &mut [u64],
    deleted: &mut [u64],
    warnings: &mut [u64],
) -> ToldJob
    ensures { job_called (lent_of counter.new lanes.new boundaries.new roads.new junctions.new rules.new stop_lines.new crosswalks.new coordinates.new created.new modified.new deleted.new warnings.new) (tables_of old_lanes.new old_boundaries.new old_roads.new old_junctions.new old_rules.new old_stop_lines.new old_crosswalks.new old_coordinates.new) result ≡ job_calling (job_of commands.now) (lent_of counter.old lanes.old boundaries.old roads.old junctions.old rules.old stop_lines.old crosswalks.old coordinates.old created.old modified.old deleted.old warnings.old) (tables_of old_lanes.old old_boundaries.old old_roads.old old_junctions.old old_rules.old old_stop_lines.old old_crosswalks.old old_coordinates.old) }
{
    let made = job_words::job_of(commands);
    let tolerance = Tolerance::preset();
    let end = job::apply(
        *counter,
        tolerance,
        lanes,
        boundaries,
        roads,
        junctions,
        rules,
        stop_lines,
        crosswalks,
        coordinates,
        made,
        old_lanes,
        old_boundaries,
        old_roads,
        old_junctions,
        old_rules,
        old_stop_lines,
        old_crosswalks,
        old_coordinates,
        created,
        modified,
        deleted,
        warnings,
    );
    *counter = end.counter;
    let answer = end.answer;
    job_words::tell(end.counter, answer)
}
