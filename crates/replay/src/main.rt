// Replays stored calls and jobs on stored maps (data/calls.bin and data/jobs.bin; oracle/FORMAT.md), and writes for each the answer's numbers and a digest of
// all that was lent. What it must write, `stdout`, is the oracle's, made of the Rust's answers.
#![tactic(auto)]

ghost use Rattle.std.specs.Prelude.{◌≤◌};

use entities::{Counter, Tolerance};
use job_words::ToldJob;
use lent::{Lists, Map, MapView};
use report::{ENTITY, WARNING};
use std::fs::File;
use std::rt::Files;
use std::{fs, io};
use stream::{digest, file};
use words::{COMMAND, Told};

// ---- one call: its row of words, the room for its lists, and what it answers and leaves

// What the lists hold before a call.
const PATTERN: u64 = 0xA5A5_5A5A_A5A5_5A5A;

// The counter and the place behind a call.
#[derive(Clone, Copy)]
struct Behind {
    counter: u64,
    next: usize,
}

// What is lent for list k, of the `most` words that its array has: the call's row has the entries behind its command, each of so many words.
fn words_lent(row: &[u64], k: usize, words: usize, most: usize) -> usize
    requires { (k ≤ 4) × ((words ≤ 16) × (most ≤ 1024)) }
    ensures { result ≤ most }
{
    if row.len() <= COMMAND + k {
        return 0;
    }
    let entries = row[COMMAND + k];
    if 64 < entries {
        return most;
    }
    (entries as usize * words).min(most)
}

// The words lent for the four lists.
#[derive(Clone, Copy)]
struct Sizes {
    created: usize,
    modified: usize,
    deleted: usize,
    warnings: usize,
}

fn room(row: &[u64; 9]) -> Sizes
    ensures { (result.created ≤ 64) × ((result.modified ≤ 64) × ((result.deleted ≤ 64) × (result.warnings ≤ 160))) }
{
    Sizes {
        created: words_lent(row, 0, ENTITY, 64),
        modified: words_lent(row, 1, ENTITY, 64),
        deleted: words_lent(row, 2, ENTITY, 64),
        warnings: words_lent(row, 3, WARNING, 160),
    }
}

// The slices of a map, into a digest.
fn digest_map(start: u64, map: MapView) -> u64 {
    digest::tables(
        start,
        map.lanes,
        map.boundaries,
        map.roads,
        map.junctions,
        map.rules,
        map.stop_lines,
        map.crosswalks,
        map.coordinates,
    )
}

// All that is lent, and the rest of the lists' arrays, in one word.
fn digest_of(
    map: MapView,
    created: &[u64; 64],
    modified: &[u64; 64],
    deleted: &[u64; 64],
    warnings: &[u64; 160],
) -> u64 {
    let a = digest_map(digest::START, map);
    let b = digest::items(a, created);
    let c = digest::items(b, modified);
    let d = digest::items(c, deleted);
    digest::items(d, warnings)
}

// The answer's numbers and the digest, as a line.
fn print(rt: &impl Print, t: Told, digest: u64) -> io::Result<()> {
    let numbers = [
        t.kind, t.id, t.created, t.modified, t.deleted, t.warnings, t.second, t.counter, digest,
    ];
    let mut text = [0; 189];
    let n = stream::text::row(&numbers, &mut text);
    rt.print(t.number)?;
    rt.write_all(&text[..n])?;
    rt.write_all(b"\n")
}

// The call of a row. `ops::apply` is lent each slice by itself, as by a host.
fn make_call(counter: u64, map: &mut Map, row: &[u64; 9], lists: &mut Lists) -> Told {
    let answer = ops::apply(
        Counter { next: counter },
        Tolerance::preset(),
        map.lanes,
        map.boundaries,
        map.roads,
        map.junctions,
        map.rules,
        map.stop_lines,
        map.crosswalks,
        map.coordinates,
        words::command_of(row),
        lists.created,
        lists.modified,
        lists.deleted,
        lists.warnings,
    );
    words::tell(counter, answer)
}

// Makes the call at a place of the stream, with the room for its lists that the stream gives, and writes its line.
fn make(rt: &impl Print, s: &[u8], at: usize, counter: u64, map: &mut Map) -> io::Result<Behind> {
    let mut row = [0; 9];
    let mut created = [PATTERN; 64];
    let mut modified = [PATTERN; 64];
    let mut deleted = [PATTERN; 64];
    let mut warnings = [PATTERN; 160];
    let next = stream::fill(s, at, &mut row);
    let r = room(&row);
    let mut lists = Lists {
        created: &mut created[..r.created],
        modified: &mut modified[..r.modified],
        deleted: &mut deleted[..r.deleted],
        warnings: &mut warnings[..r.warnings],
    };
    let told = make_call(counter, map, &row, &mut lists);
    let digest = digest_of(map.view(), &created, &modified, &deleted, &warnings);
    print(rt, told, digest)?;
    Ok(Behind {
        counter: told.counter,
        next,
    })
}

// ---- one job: its rows, the words lent for the second area and for the lists, and what it answers and leaves

// What the area's coordinates hold before a job.
const BLANK: f64 = 0.5;

// The most words of a job that the stream has: 70 rows.
const JOB_ROWS: usize = 350;

// The answer's numbers and the digest, as a line.
fn print_job(rt: &impl Print, t: ToldJob, digest: u64) -> io::Result<()> {
    let numbers = [
        t.place, t.own, t.kind, t.id, t.created, t.modified, t.deleted, t.warnings, t.counter,
        digest,
    ];
    let mut text = [0; 210];
    let n = stream::text::row(&numbers, &mut text);
    rt.print(t.number)?;
    rt.write_all(&text[..n])?;
    rt.write_all(b"\n")
}

// The job of some rows. `job::apply` is lent each slice by itself, as by a host.
fn apply_rows(
    counter: u64,
    map: &mut Map,
    rows: &[u64],
    area: &mut Map,
    lists: &mut Lists,
) -> ToldJob {
    let end = job::apply(
        counter,
        Tolerance::preset(),
        map.lanes,
        map.boundaries,
        map.roads,
        map.junctions,
        map.rules,
        map.stop_lines,
        map.crosswalks,
        map.coordinates,
        job_words::job_of(rows),
        area.lanes,
        area.boundaries,
        area.roads,
        area.junctions,
        area.rules,
        area.stop_lines,
        area.crosswalks,
        area.coordinates,
        lists.created,
        lists.modified,
        lists.deleted,
        lists.warnings,
    );
    let answer = end.answer;
    job_words::tell(end.counter, answer)
}

// The job with lists of the sizes that the stream gives, the last four of twelve; what it leaves of the counter. Digested is what is lent.
fn job_with_lists(
    rt: &impl Print,
    counter: u64,
    map: &mut Map,
    rows: &[u64],
    area: &mut Map,
    sizes: &[u64; 12],
) -> io::Result<u64> {
    let mut created = [PATTERN; 256];
    let mut modified = [PATTERN; 256];
    let mut deleted = [PATTERN; 256];
    let mut warnings = [PATTERN; 640];
    let a = (sizes[8] as usize).min(256);
    let b = (sizes[9] as usize).min(256);
    let c = (sizes[10] as usize).min(256);
    let d = (sizes[11] as usize).min(640);
    let mut lists = Lists {
        created: &mut created[..a],
        modified: &mut modified[..b],
        deleted: &mut deleted[..c],
        warnings: &mut warnings[..d],
    };
    let told = apply_rows(counter, map, rows, area, &mut lists);
    let tables = digest_map(digest_map(digest::START, map.view()), area.view());
    let e = digest::items(tables, &created[..a]);
    let f = digest::items(e, &modified[..b]);
    let g = digest::items(f, &deleted[..c]);
    print_job(rt, told, digest::items(g, &warnings[..d]))?;
    Ok(told.counter)
}

// The job with an area of the sizes that the stream gives.
fn job_with_area(
    rt: &impl Print,
    counter: u64,
    map: &mut Map,
    rows: &[u64],
    sizes: &[u64; 12],
) -> io::Result<u64> {
    let mut lanes = [PATTERN; 1312];
    let mut boundaries = [PATTERN; 416];
    let mut roads = [PATTERN; 352];
    let mut junctions = [PATTERN; 288];
    let mut rules = [PATTERN; 1696];
    let mut stop_lines = [PATTERN; 64];
    let mut crosswalks = [PATTERN; 64];
    let mut coordinates = [BLANK; 4128];
    let mut area = Map {
        lanes: &mut lanes[..(sizes[0] as usize).min(1312)],
        boundaries: &mut boundaries[..(sizes[1] as usize).min(416)],
        roads: &mut roads[..(sizes[2] as usize).min(352)],
        junctions: &mut junctions[..(sizes[3] as usize).min(288)],
        rules: &mut rules[..(sizes[4] as usize).min(1696)],
        stop_lines: &mut stop_lines[..(sizes[5] as usize).min(64)],
        crosswalks: &mut crosswalks[..(sizes[6] as usize).min(64)],
        coordinates: &mut coordinates[..(sizes[7] as usize).min(4128)],
    };
    job_with_lists(rt, counter, map, rows, &mut area, sizes)
}

// Makes the job at a place of the stream.
fn make_job(
    rt: &impl Print,
    s: &[u8],
    at: usize,
    counter: u64,
    map: &mut Map,
) -> io::Result<Behind> {
    let mut rows = [0; JOB_ROWS];
    let mut sizes = [0; 12];
    let job = stream::read_table(s, at, &mut rows);
    let next = stream::fill(s, job.next, &mut sizes);
    let left = job_with_area(rt, counter, map, &rows[..job.size], &sizes)?;
    Ok(Behind {
        counter: left,
        next,
    })
}

// ---- the stream

// What names the form of a stream: calls or jobs. A number, as the stored stream has it.
const CALLS: u64 = 3;

const JOBS: u64 = 4;

// A call or a job, as the stream's form has it.
fn make_one(
    rt: &impl Print,
    form: u64,
    s: &[u8],
    at: usize,
    counter: u64,
    map: &mut Map,
) -> io::Result<Behind> {
    if form == JOBS {
        return make_job(rt, s, at, counter, map);
    }
    make(rt, s, at, counter, map)
}

// The calls or jobs of a map, each on what the last one left; the place behind them.
fn each_call(
    rt: &impl Print,
    form: u64,
    s: &[u8],
    from: usize,
    calls: u64,
    first: u64,
    map: &mut Map,
) -> io::Result<usize> {
    let mut at = from;
    let mut counter = first;
    for i in 0..calls {
        let made = make_one(rt, form, s, at, counter, map)?;
        at = made.next;
        counter = made.counter;
    }
    Ok(at)
}

// A map, read into the fronts of its arrays, and its calls; the place behind them.
fn replay_map(rt: &impl Print, form: u64, s: &[u8]) -> io::Result<usize> {
    let mut lanes = [0; 1280];
    let mut boundaries = [0; 384];
    let mut roads = [0; 320];
    let mut junctions = [0; 256];
    let mut rules = [0; 1664];
    let mut stop_lines = [0; 32];
    let mut crosswalks = [0; 32];
    let mut coordinates = [0.0; 4096];
    let a = stream::read_table(s, 0, &mut lanes);
    let b = stream::read_table(s, a.next, &mut boundaries);
    let c = stream::read_table(s, b.next, &mut roads);
    let d = stream::read_table(s, c.next, &mut junctions);
    let e = stream::read_table(s, d.next, &mut rules);
    let f = stream::read_table(s, e.next, &mut stop_lines);
    let g = stream::read_table(s, f.next, &mut crosswalks);
    let h = stream::read_table(s, g.next, &mut coordinates);
    let counter = stream::number(s, h.next);
    let calls = stream::number(s, counter.next);
    let mut map = Map {
        lanes: &mut lanes[..a.size],
        boundaries: &mut boundaries[..b.size],
        roads: &mut roads[..c.size],
        junctions: &mut junctions[..d.size],
        rules: &mut rules[..e.size],
        stop_lines: &mut stop_lines[..f.size],
        crosswalks: &mut crosswalks[..g.size],
        coordinates: &mut coordinates[..h.size],
    };
    each_call(
        rt,
        form,
        s,
        calls.next,
        calls.value,
        counter.value,
        &mut map,
    )
}

// The maps of the file from a place on. A map with its calls has at most as many bytes as fit.
fn each_map(
    rt: &impl Print,
    form: u64,
    file: &mut File,
    from: u32,
    maps: u64,
    bytes: &mut [u8],
) -> io::Result<()> {
    let mut at = from;
    for i in 0..maps {
        let n = file::window(file, at, bytes);
        at = file::behind(at, replay_map(rt, form, &bytes[..n])?);
    }
    Ok(())
}

fn replay(rt: &impl Print, file: &mut File, form: u64, bytes: &mut [u8]) -> io::Result<()> {
    let n = file::window(file, 0, bytes);
    let stored = stream::number(&bytes[..n], 0);
    let maps = stream::number(&bytes[..n], stored.next);
    if stored.value != form {
        return println!(rt; "not such a stream");
    }
    each_map(
        rt,
        form,
        file,
        file::behind(0, maps.next),
        maps.value,
        bytes,
    )
}

fn replay_file(
    rt: &(impl Files<File = File> + Print),
    path: &str,
    form: u64,
    bytes: &mut [u8],
) -> io::Result<()> {
    let mut file = fs::open(rt, path)?;
    replay(rt, &mut file, form, bytes)
}

fn main(rt: HostRuntime) -> io::Result<()> {
    let mut bytes = [0; 65536];
    replay_file(&rt, "calls.bin", CALLS, &mut bytes)?;
    replay_file(&rt, "jobs.bin", JOBS, &mut bytes)
}
