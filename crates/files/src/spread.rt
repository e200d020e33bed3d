// A file of spreads: read whole, run in one call, judged where it brings tolerances, and reported.
ghost use Rattle.std.specs.Prelude.{◌≡◌, length};

use super::going::Going;
use super::job::{floats, switches};
use super::volts::volts_of;
use jobs::{Spreads, SpreadsFile, VECTOR, within};
use numbers::cause::BEHIND;
use numbers::limit::{JOB_CAUSES, JOBS, RECORDS, SUM_LIMBS, UNKNOWNS};
use pen::Pen;
use say::{Lists, Values, Volts};
use shell::Seen;
use single::Input;
use sound::{Reports, Soundings};
use std::io::Read;

// Reads the file and runs its spreads, or says why it cannot.
pub fn run_file<F: Read>(g: &mut Going, from: &mut F, name: &[u8]) {
    match jobs::spreads_file(from) {
        SpreadsFile::Whole(h) => run_after(g, from, name, h),
        SpreadsFile::Empty => g.fault(name, "is empty, is a directory or cannot be read"),
        SpreadsFile::Other => g.fault(
            name,
            "is no file of spreads: it does not begin with SAVSPRD1 or SAVSPRD2",
        ),
        SpreadsFile::Ends => g.fault(name, "ends inside its numbers"),
        SpreadsFile::Unknown => g.fault(
            name,
            "has a head with a number of words that no head has, or asks for what this program does not know",
        ),
    }
}

// Reads the sheets and the points behind these numbers, and goes on with what follows them. A sheet is of records of 40 bytes.
fn run_after<F: Read>(g: &mut Going, from: &mut F, name: &[u8], h: Spreads) {
    let mut sheets = sheets_room();
    let mut points = jobs::points_room();
    let s = jobs::part(from, &mut sheets, h.sheets);
    let p = jobs::part(from, &mut points, h.points);
    if (s as u64 != h.sheets) | (p as u64 != h.points) {
        g.fault(
            name,
            "ends inside its sheets or its points, or they are larger than any that run",
        );
        return;
    }
    run_parts(g, from, name, h, &sheets[..s], &points[..p]);
}

// Reads the tolerances, and runs the spreads if the file ends there.
fn run_parts<F: Read>(
    g: &mut Going,
    from: &mut F,
    name: &[u8],
    h: Spreads,
    sheets: &[u8],
    points: &[u8],
) {
    let mut tolerances = jobs::tolerance_room();
    let wanted = tolerance_bytes(h.tolerances);
    let t = jobs::part(from, &mut tolerances, wanted);
    if t as u64 != wanted {
        g.fault(
            name,
            "ends inside its tolerances, or they are larger than any that run",
        );
    } else if jobs::is_over(from) {
        run_judged(g, name, h, sheets, points, &tolerances[..t]);
    } else if h.tolerances == 0 {
        g.fault(name, "goes on after its points");
    } else {
        g.fault(name, "goes on after its tolerances");
    }
}

// The bytes of n tolerances; more than a vector can have are more than any room.
fn tolerance_bytes(n: u64) -> u64 {
    if (VECTOR as u64) < n {
        return u64::MAX;
    }
    8 * n
}

// What a call leaves: for each job its vector, its cause with the place of that, and its passes; the counts of the causes; and the exact sums over the settled jobs and over the sound ones.
#[derive(Clone, Copy)]
struct Left {
    vectors: [f64; JOBS * UNKNOWNS],
    causes: [u64; JOBS],
    places: [u64; JOBS],
    passes: [u64; JOBS],
    counts: [u64; JOB_CAUSES],
    plus: [u64; SUM_LIMBS],
    minus: [u64; SUM_LIMBS],
    sound_plus: [u64; SUM_LIMBS],
    sound_minus: [u64; SUM_LIMBS],
}

impl Left {
    // As long as the largest call needs it.
    fn new() -> Left {
        Left {
            vectors: vectors_room(),
            causes: [0; JOBS],
            places: [0; JOBS],
            passes: [0; JOBS],
            counts: [0; JOB_CAUSES],
            plus: [0; SUM_LIMBS],
            minus: [0; SUM_LIMBS],
            sound_plus: [0; SUM_LIMBS],
            sound_minus: [0; SUM_LIMBS],
        }
    }

    fn lists(&self) -> Lists<'_> {
        Lists {
            causes: &self.causes,
            places: &self.places,
            passes: &self.passes,
        }
    }
}

// Runs the spreads with tolerances by their bytes, and reports; with none they are not judged.
fn run_judged(
    g: &mut Going,
    name: &[u8],
    h: Spreads,
    sheets: &[u8],
    points: &[u8],
    tolerances: &[u8],
) {
    let mut t = jobs::vector_room();
    floats(tolerances, &mut t);
    let n = within(&t, tolerances.len() / 8);
    let mut left = Left::new();
    let outcome = run_whole(h, sheets, points, &t[..n], &mut left);
    asked(&mut g.pen, h);
    match outcome {
        Soundings::Refused(k) => {
            say::call_refused(&mut g.pen, k);
            say::file_fault(
                g.err,
                &mut g.pen,
                name,
                format_args!("the whole call is refused by {k}"),
            );
        }
        Soundings::Done(d) => report(&mut g.pen, &left, d, h, sheets, points),
    }
    g.saw(Seen::of_spreads(outcome, h.jobs));
}

// Runs the spreads in buffers as long as the largest call needs them.
fn run_whole(
    h: Spreads,
    sheets: &[u8],
    points: &[u8],
    tolerances: &[f64],
    left: &mut Left,
) -> Soundings {
    let mut base = jobs::matrix();
    let mut system = jobs::matrix();
    let mut elimination = jobs::matrix();
    let mut memory = jobs::memory_room();
    let o = h.options;
    sound::sound_spreads(
        sheets,
        points,
        tolerances,
        h.jobs as usize,
        h.nodes as usize,
        h.sources as usize,
        h.unknown as usize,
        o,
        &mut base,
        &mut system,
        &mut elimination,
        &mut memory,
        &mut left.vectors,
        &mut left.causes,
        &mut left.places,
        &mut left.passes,
        &mut left.counts,
        &mut left.plus,
        &mut left.minus,
        &mut left.sound_plus,
        &mut left.sound_minus,
    )
}

// What was asked for.
fn asked(p: &mut Pen, h: Spreads) {
    let o = h.options;
    let asked = say::Spreads {
        jobs: h.jobs,
        nodes: h.nodes,
        sources: h.sources,
        unknown: h.unknown,
        tolerances: h.tolerances,
        switches: switches(o),
    };
    say::asked(p, asked);
}

// Says how many jobs have each cause, which settled ones are not sound, the range of the chosen unknown over the sound jobs and over the settled ones, which jobs did not settle and, for a machine, every run.
fn report(p: &mut Pen, left: &Left, d: Reports, h: Spreads, sheets: &[u8], points: &[u8]) {
    let settled = Values {
        report: d.settled,
        mean: mean::mean(&left.plus, &left.minus, d.settled.settled),
    };
    let sound = Values {
        report: d.sound,
        mean: mean::mean(&left.sound_plus, &left.sound_minus, d.sound.settled),
    };
    say::counts(p, &left.counts, h.jobs, h.tolerances != 0);
    say::not_sound_line(p, d.settled.settled, d.sound.settled);
    not_sound(p, left.lists(), h, sheets, points);
    say::range(p, sound, settled);
    say::unsettled(p, left.lists(), h.jobs, d.settled.settled);
    let n = h.nodes.wrapping_add(h.sources);
    say::runs(p, left.lists(), &left.vectors, h.jobs, n, h.unknown);
}

// Every settled job that is not sound, each with its sheet. The sheets are all of one length.
fn not_sound(p: &mut Pen, lists: Lists<'_>, h: Spreads, sheets: &[u8], points: &[u8]) {
    let bytes = sheets.len().checked_div(h.jobs as usize).unwrap_or(0);
    for job in 0..h.jobs {
        let r = lists.run(job);
        if say::is_unsound(r.cause) {
            let at = (job as usize).wrapping_mul(bytes);
            let rest = sheets.get(at..).unwrap_or(&[]);
            let sheet = rest.get(..bytes).unwrap_or(rest);
            let volts = if r.cause == BEHIND as u64 {
                volts_again(r.place as usize, h, sheet, points)
            } else {
                Volts::default()
            };
            say::not_sound(p, job, r.cause, r.place, volts);
        }
    }
}

// Both voltages of the record at this place, from the same job run once more by itself: a job is what it is by itself, and the memory of a call is scratch.
fn volts_again(place: usize, h: Spreads, sheet: &[u8], points: &[u8]) -> Volts {
    let mut base = jobs::matrix();
    let mut system = jobs::matrix();
    let mut elimination = jobs::matrix();
    let mut memory = jobs::memory_room();
    let mut vector = jobs::vector_room();
    let i = Input {
        sheet,
        points,
        nodes: h.nodes as usize,
        sources: h.sources as usize,
        options: h.options,
    };
    single::run_alone(
        i,
        &mut base,
        &mut system,
        &mut elimination,
        &mut memory,
        &mut vector,
    );
    volts_of(sheet, place, &vector, &memory)
}

// Sheets of records of 40 bytes. It is a function of its own, as `vectors_room` is, so that its callers know a length and no list of so many numbers.
fn sheets_room() -> [u8; 40 * RECORDS * JOBS]
    ensures { 2621440 ≡ length result }
{
    [0; 40 * RECORDS * JOBS]
}

fn vectors_room() -> [f64; JOBS * UNKNOWNS]
    ensures { 12288 ≡ length result }
{
    [0.0; JOBS * UNKNOWNS]
}
