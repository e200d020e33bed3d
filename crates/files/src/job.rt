// A file of jobs: each read part by part, run in buffers of the lengths that it names, and judged where it brings tolerances.
ghost use Rattle.std.specs.Prelude.{◌≡◌, length};

use super::going::Going;
use super::volts::volts_of;
use engine::{Ending, Outcome};
use jobs::{File, Head, JobsFile, NextJob, Rooms, Run, within};
use judge::Judged;
use num::f64_at;
use numbers::refusal::Refusal;
use options::Options;
use say::{JobHead, Switches};
use shell::Seen;
use std::fmt::Display;
use std::io::Read;
use std::rt;

// Runs the file's jobs, or says why it cannot.
pub fn run_file<R: rt::Clock, F: Read>(rt: &R, g: &mut Going, from: &mut F, name: &[u8]) {
    match jobs::jobs_file(from) {
        JobsFile::Whole(file) => run_jobs(rt, g, from, name, file),
        JobsFile::Empty => fault(g, name, "is empty, is a directory or cannot be read"),
        JobsFile::Other => fault(
            g,
            name,
            "is no file of jobs: it does not begin with SAVJOBS1 or SAVJOBS2 (a file of spreads has the word spreads before it)",
        ),
        JobsFile::Ends => fault(g, name, "ends inside its first 32 bytes"),
    }
}

// Runs so many jobs, and sees that the file ends there: a job that is not counted would drop out unseen.
// One that cannot be read ends it, whatever number of jobs the file names.
fn run_jobs<R: rt::Clock, F: Read>(rt: &R, g: &mut Going, from: &mut F, name: &[u8], file: File) {
    if file.jobs == 0 {
        fault(g, name, "holds no job");
    }
    for k in 0..file.jobs {
        if !g.more {
            return;
        }
        g.at_job(rt, k, file.jobs);
        run_next(g, from, name, file.form, k);
    }
    if g.more && !jobs::is_over(from) {
        fault(g, name, "goes on after its last job");
    }
}

// Reads and runs job k of a file of this form.
fn run_next<F: Read>(g: &mut Going, from: &mut F, name: &[u8], form: u64, k: u64) {
    match jobs::next_job(from, form) {
        NextJob::Whole(h) => run_after(g, from, name, h, k),
        NextJob::Ends => fault(g, name, format_args!("ends inside job {k}")),
        NextJob::Unknown => fault(
            g,
            name,
            format_args!(
                "job {k} has a head with a number of words that no head has, or asks for what this program does not know"
            ),
        ),
    }
}

// Reads the sheet, the points and the tolerances of job k, which has these numbers, and runs it.
fn run_after<F: Read>(g: &mut Going, from: &mut F, name: &[u8], h: Head, k: u64) {
    if !jobs::is_sized(h) {
        fault(g, name, format_args!("job {k} is not as long as its parts"));
        return;
    }
    let mut sheet = jobs::sheet_room();
    let mut points = jobs::points_room();
    let mut tolerances = jobs::tolerance_room();
    let rest = jobs::tolerances(h);
    let s = jobs::part(from, &mut sheet, h.sheet);
    let p = jobs::part(from, &mut points, h.points);
    let t = jobs::part(from, &mut tolerances, rest);
    if (s as u64 != h.sheet) | (p as u64 != h.points) | (t as u64 != rest) {
        fault(
            g,
            name,
            format_args!("ends inside job {k}, or that job is larger than any that runs"),
        );
        return;
    }
    run_whole(g, h, &sheet[..s], &points[..p], &tolerances[..t]);
}

// A fault of the file, which ends it.
fn fault<D: Display + Drop>(g: &mut Going, name: &[u8], sentence: D) {
    g.clock.job_over(g.err);
    g.fault(name, sentence);
}

// Runs the job in rooms of its own and reports.
fn run_whole(g: &mut Going, h: Head, sheet: &[u8], points: &[u8], tolerances: &[u8]) {
    let mut rows = rows_room();
    let run = jobs::run_job(jobs::zero_rooms(), &mut rows, h, sheet, points);
    g.clock.job_over(g.err);
    let o = h.options;
    let head = JobHead {
        transient: h.transient,
        nodes: h.nodes,
        sources: h.sources,
        switches: switches(o),
    };
    say::heading(&mut g.pen, head);
    let outcome = run.outcome;
    g.saw(Seen::of_job(outcome));
    report(g, run, &rows, h, sheet, tolerances);
}

// The options that are on or off, as they stand in the file.
pub fn switches(o: Options) -> Switches
    ensures { (result.catchup ≡ o.catchup) × (result.pattern_first ≡ o.pattern_first) }
{
    Switches {
        catchup: o.catchup,
        pattern_first: o.pattern_first,
    }
}

// Says how a job ended and what stands in its buffers, and judges the vector.
fn report(g: &mut Going, run: Run, rows: &[f64], h: Head, sheet: &[u8], tolerances: &[u8]) {
    let outcome = run.outcome;
    match outcome {
        Outcome::Refused(k, i) => say::refused(&mut g.pen, k, i),
        Outcome::Ended(e) => {
            let rooms = run.rooms;
            ended(g, e, &rooms, rows, h, sheet);
            judged(g, &rooms, h, tolerances);
        }
    }
}

// Says how a run ended, whether a diode is behind, its vector and its rows. A diode is behind by its record's place and 1; 0 is none.
fn ended(g: &mut Going, e: Ending, rooms: &Rooms, rows: &[f64], h: Head, sheet: &[u8]) {
    say::ended(&mut g.pen, e, h.transient);
    if e.behind != 0 {
        let place = e.behind - 1;
        let volts = volts_of(sheet, place as usize, &rooms.vector, &rooms.memory);
        say::behind(&mut g.pen, place, volts, h.transient);
    }
    say::vector(&mut g.pen, &rooms.vector, h.nodes, h.sources);
    let n = h.nodes.wrapping_add(h.sources);
    say::rows(&mut g.pen, rows, e.rows, n);
}

// Says what the judge finds, if there are tolerances.
fn judged(g: &mut Going, rooms: &Rooms, h: Head, tolerances: &[u8]) {
    if !tolerances.is_empty() {
        let j = judgement_of(rooms, h, tolerances);
        say::judged(&mut g.pen, j);
        g.saw(Seen::of_judge(j));
    }
}

// What the judge says, if there is a tolerance for each unknown: a judge of fewer rows would accept what it did not look at.
fn judgement_of(rooms: &Rooms, h: Head, tolerances: &[u8]) -> Result<Judged, Refusal> {
    let n = tolerances.len() / 8;
    if n as u64 != h.nodes.wrapping_add(h.sources) {
        return Err(Refusal::Room);
    }
    let mut t = jobs::vector_room();
    floats(tolerances, &mut t);
    let s = within(&rooms.system, h.system as usize);
    let v = within(&rooms.vector, h.vector as usize);
    judge::judge(&rooms.system[..s], &rooms.vector[..v], &t, n)
}

// The floats of bytes.
pub fn floats(bytes: &[u8], x: &mut [f64]) {
    for (i, x) in x.iter_mut().enumerate() {
        *x = f64_at(bytes, 8 * i);
    }
}

// Rows for the largest run. A function of its own, so that its caller knows a length and no list of so many numbers.
fn rows_room() -> [f64; 32768]
    ensures { 32768 ≡ length result }
{
    [0.0; 32768]
}
