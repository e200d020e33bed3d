// The run of a budget over lent buffers: the machine of passes at the real stamping and solving. It reads from the whole to its parts: a run lists its diodes, takes a matrix to
// hold what is stamped before them, and makes pass after pass; a pass is an attempt (attempt.rt), the currents that inductors take (take) and what follows it (follow).
#![tactic(auto)]

mod attempt;

ghost use Rattle.std.specs.Prelude.{◌≡◌, ◌≤◌, length};
ghost use Rattle.sheet.specs.Check.{records_of};
ghost use Rattle.sheet.specs.Sharing.{inductor_among};
ghost use Rattle.groups.specs.Listed.{Listed};
ghost use Rattle.machine.specs.State.{state_of, written_of};
ghost use Rattle.machine.specs.Machine.{run_for};
ghost use Rattle.passes.specs.Sized.{fits as fits_of};
ghost use Rattle.passes.specs.Lent.{circuit_in, buffers_in, Kept, SizedIn};
ghost use Rattle.passes.specs.Attempt.{attempt_of};
ghost use Rattle.passes.specs.Again.{alike as alikeOf, Holder, memory_after};
ghost use Rattle.passes.specs.Done.{dc_done, step_done, aftermath_of, aftermath};
ghost use Rattle.passes.specs.Run.{run_on, Scratch};

use attempt::{attempt, pass_of};
use groups::diodes::list_diodes;
use groups::storage::take_currents;
use machine::{accept, accepts, landed, takes, write};
use numbers::limit::{RECORDS, UNKNOWNS};
use steps::{Counters, Job, Phase, Report};

// The numbers of a matrix of order 16. A matrix that is held is cleared in each run, so that small circuits get a small one.
const SMALL: usize = 272;

// The numbers of a matrix of the largest order.
const LARGE: usize = UNKNOWNS * (UNKNOWNS + 1);

// What a run stamps from besides its base matrix: the job, and the sheet with its points.
#[derive(Clone, Copy)]
pub struct Circuit<'a> {
    pub job: Job,
    pub sheet: &'a [u8],
    pub points: &'a [u8],
}

// What is lent to a run: the base matrix, which it only reads, the last system stamped whole, a matrix to eliminate in, the vector, and the memory of each record.
#[derive(Drop)]
pub struct Buffers<'a> {
    pub base: &'a [f64],
    pub system: &'a mut [f64],
    pub elimination: &'a mut [f64],
    pub vector: &'a mut [f64],
    pub memory: &'a mut [f64],
}

// The run from the counters c on, by the options' budget of passes, and the counters after it. Nothing happens where the lengths do not fit: N, the vector's, is 1 to 48,
// the accepted vector is as long, and the matrices have N (N + 1) numbers.
pub fn run(
    k: Circuit,
    c: Counters,
    accepted: &mut [f64],
    w: &mut Buffers,
    rows: &mut [f64],
) -> Counters
    ensures runs { state_of result accepted.new (buffers_in w.new rows.new)
        ≡ run_on (length w.old.elimination.now) (circuit_in k.entry w.old) (state_of c accepted.old (buffers_in w.old rows.old)) }
    ensures scratch { Scratch (circuit_in k.entry w.old) (state_of c accepted.old (buffers_in w.old rows.old)) w.old.elimination.now w.new.elimination.now }
    ensures kept { Kept w.new w.old }
{
    if !fits(accepted.len(), w) {
        return c;
    }
    let mut list = [0; RECORDS];
    let d = list_diodes(k.sheet, &mut list);
    let places = &list[..d];
    if (d == 0) & (sheet::records(k.sheet) <= RECORDS) {
        let mut none = [0.0];
        return run_passes(k, c, places, accepted, &mut none[..0], w, rows);
    }
    if SMALL < w.base.len() {
        return run_held::<LARGE>(k, c, places, accepted, w, rows);
    }
    run_held::<SMALL>(k, c, places, accepted, w, rows)
}

// Whether the lengths are those of a run.
fn fits(accepted: usize, w: &Buffers) -> bool
    ensures { result ≡ fits_of (length w.now.vector.now) accepted (length w.now.base.now) (length w.now.elimination.now) (length w.now.system.now) }
{
    let n = w.vector.len();
    if n < 1 {
        return false;
    }
    if UNKNOWNS < n {
        return false;
    }
    if accepted != n {
        return false;
    }
    let size = n * (n + 1);
    if w.base.len() != size {
        return false;
    }
    if w.elimination.len() != size {
        return false;
    }
    w.system.len() == size
}

// A run with diodes at `places`: a matrix, cut from SIZE numbers, holds what is stamped before them, for the passes that are stamped alike.
fn run_held<const SIZE: usize>(
    k: Circuit,
    c: Counters,
    places: &[u8],
    accepted: &mut [f64],
    w: &mut Buffers,
    rows: &mut [f64],
) -> Counters
    requires sized { SizedIn w.old (length accepted.old) }
    requires listed { Listed k.sheet.now (length places.now) places.now }
    requires room { (length w.old.base.now ≤ SIZE) × (SIZE ≤ 2352) }
    ensures runs { state_of result accepted.new (buffers_in w.new rows.new)
        ≡ run_for (attempt_of (circuit_in k.entry w.old)) k.entry.job k.entry.job.options.budget (state_of c accepted.old (buffers_in w.old rows.old)) }
    ensures kept { Kept w.new w.old }
{
    let n = w.base.len();
    let mut held = [0.0; SIZE];
    run_passes(k, c, places, accepted, &mut held[..n], w, rows)
}

// Pass after pass, until the run has ended or its budget is spent; a pass is an attempt, the currents taken, and what follows it. `held` is as long as the base, or empty in a circuit without diodes, where the system itself is all that is held.
fn run_passes(
    k: Circuit,
    c: Counters,
    places: &[u8],
    accepted: &mut [f64],
    held: &mut [f64],
    w: &mut Buffers,
    rows: &mut [f64],
) -> Counters
    requires sized { SizedIn w.old (length accepted.old) }
    requires holder { Holder k.sheet.now places.now (length w.old.base.now) (length held.old) }
    ensures runs { state_of result accepted.new (buffers_in w.new rows.new)
        ≡ run_for (attempt_of (circuit_in k.entry w.old)) k.entry.job k.entry.job.options.budget (state_of c accepted.old (buffers_in w.old rows.old)) }
    ensures kept { Kept w.new w.old }
{
    let inductors = sheet::has_inductors(k.sheet);
    let mut s = c;
    let mut left = k.job.options.budget;
    let mut known = false;
    while left > 0 {
        if !s.going() {
            return s;
        }
        let r = attempt(k, s, known & alike(s), places, accepted, held, w);
        let vector = &mut *w.vector;
        take(inductors, k, r, s, vector, w.memory);
        s = follow(k.job, r, s, accepted, vector, rows);
        known = true;
        left -= 1;
    }
    s
}

// Whether a pass is stamped as the one before it: it is not the first of DC or of its step, nor the first after a cut.
fn alike(c: Counters) -> bool
    ensures { result ≡ alikeOf c }
{
    if c.first {
        return false;
    }
    c.count != 0
}

// Where the vector of a pass is taken, its inductors take their currents. In a circuit without any, nothing is asked or walked.
fn take(
    inductors: bool,
    k: Circuit,
    report: Report,
    c: Counters,
    vector: &[f64],
    memory: &mut [f64],
)
    requires { inductors ≡ inductor_among k.sheet.now (records_of k.sheet.now) }
    ensures { memory.new ≡ memory_after k.entry.job report c k.entry.sheet.now vector.now memory.old }
{
    if !inductors {
        return;
    }
    if takes(k.job, c, report) {
        take_currents(pass_of(k.job, vector.len(), c), k.sheet, vector, memory);
    }
}

// What follows the attempt of a pass: in DC, or in the transient.
fn follow(
    j: Job,
    report: Report,
    c: Counters,
    accepted: &mut [f64],
    vector: &[f64],
    rows: &mut [f64],
) -> Counters
    requires { length vector.now ≡ length accepted.old }
    ensures { aftermath_of result accepted.new rows.new
        ≡ aftermath j report c accepted.old vector.now rows.old }
{
    accept(report, c, accepted, vector);
    match c.phase {
        Phase::Dc => dc_done(j, report, c, vector, rows),
        Phase::Transient | Phase::Ended => step_done(j, report, c, vector, rows),
    }
}

// What follows the attempt of DC: the counters after it; where the transient begins, the first row is written.
#[tactic(auto, unfolding(crate::specs::Done::dc_done))]
fn dc_done(j: Job, report: Report, c: Counters, vector: &[f64], rows: &mut [f64]) -> Counters
    ensures { written_of result rows.new ≡ dc_done j report c vector.now rows.old }
{
    let d = j.dc_after(report, c);
    if d.phase == Phase::Transient {
        return write(d, vector, rows);
    }
    d
}

// What follows the attempt of a step: the counters after it; where the step is accepted, the new time may get a row.
#[tactic(auto, unfolding(crate::specs::Done::step_done))]
fn step_done(j: Job, report: Report, c: Counters, vector: &[f64], rows: &mut [f64]) -> Counters
    ensures { written_of result rows.new ≡ step_done j report c vector.now rows.old }
{
    let d = j.step_after(report, c);
    if accepts(report) {
        return landed(j.options, d, vector, rows);
    }
    d
}
