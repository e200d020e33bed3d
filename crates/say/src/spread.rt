// What is written about spreads job by job: what was asked for, how many runs ended in each way, every run that did not settle and, for a machine, every run; on a sheet for a person, or as records for a machine.
ghost use Rattle.std.specs.Prelude.{◌≡◌, min};
ghost use Rattle.say.specs.Totals.{total_of, shown, number_of, number_count};

use super::cause;
use super::cause::Cause;
use super::switch::Switches;
use numbers::cause::{BEHIND, REJECTED};
use numbers::limit::{JOB_CAUSES, JOB_NUMBERS};
use numbers::refusal::Refusal;
use pen::{Pen, Unknown, call_words, float_in, is_refusal, number_words, word_in};

// The numbers that a job can have are those below this one.
const NUMBERS: u8 = JOB_NUMBERS as u8;

// What a call of spreads asks for: with so many tolerances each vector is judged.
#[derive(Clone, Copy, Debug, Default, PartialEq, Eq)]
pub struct Spreads {
    pub jobs: u64,
    pub nodes: u64,
    pub sources: u64,
    pub unknown: u64, // the place of the chosen one
    pub tolerances: u64,
    pub switches: Switches,
}

// What a call leaves for each of its jobs: a word in each list. What a list lacks is 0.
#[derive(Clone, Copy)]
pub struct Lists<'a> {
    pub causes: &'a [u64],
    pub places: &'a [u64],
    pub passes: &'a [u64],
}

impl Lists<'_> {
    pub fn run(&self, job: u64) -> Run {
        let k = job as usize;
        Run {
            job,
            cause: word_in(self.causes, k),
            place: word_in(self.places, k),
            passes: word_in(self.passes, k),
        }
    }
}

// A job of a call: its cause, the place of that, and its passes.
#[derive(Clone, Copy, Debug, Default, PartialEq, Eq)]
pub struct Run {
    pub job: u64,
    pub cause: u64,
    pub place: u64,
    pub passes: u64,
}

// What was asked for.
pub fn asked(p: &mut Pen, s: Spreads) {
    if !p.is_person() {
        spreads_record(p, s);
        return;
    }
    let unknown = Unknown::at(s.unknown, s.nodes);
    write!(
        p,
        "Spreads: {} jobs in one call, DC operating point, ",
        s.jobs
    );
    write!(p, "{} nodes with ground, {} sources; ", s.nodes, s.sources);
    write!(p, "the chosen unknown is {unknown}");
    if s.tolerances == 0 {
        write!(p, "; not judged");
    } else {
        write!(p, "; judged with {} tolerances", s.tolerances);
    }
    s.switches.of_a_call(p);
    write!(p, "\n");
}

pub fn spreads_record(p: &mut Pen, s: Spreads) {
    let (of, index) = Unknown::at(s.unknown, s.nodes).parts();
    p.begin("spreads");
    p.of_file();
    p.whole("jobs", s.jobs);
    p.whole("nodes", s.nodes);
    p.whole("sources", s.sources);
    p.label("of", of);
    p.whole("index", index);
    p.whole("tolerances", s.tolerances);
    s.switches.fields(p);
    p.end();
}

// A refusal of the whole call.
pub fn call_refused(p: &mut Pen, number: u8) {
    if !p.is_person() {
        call_refused_record(p, number);
        return;
    }
    let words = call_words(number);
    write!(
        p,
        "the whole call is refused by {number} ({words}): no job ran\n"
    );
}

pub fn call_refused_record(p: &mut Pen, number: u8) {
    p.begin("call_refused");
    p.of_file();
    p.whole("number", number as u64);
    p.label("meaning", call_words(number));
    p.end();
}

// How many jobs have each cause, of which `counts` has a word each, and that these are all the jobs given. A machine gets the jobs by their own numbers, too.
pub fn counts(p: &mut Pen, counts: &[u64], jobs: u64, judged: bool) {
    let sum = total(counts);
    if p.is_person() {
        cause::causes(p, counts, judged);
        write!(p, "all: {sum} runs of {jobs} jobs given\n");
        return;
    }
    for k in 0..NUMBERS {
        let count = number_count(counts, k);
        if shows(k, count) {
            count_record(p, k, count);
        }
    }
    total_record(p, sum, jobs);
    cause::sound_record(p, word_in(counts, 0), jobs);
    cause::causes(p, counts, judged);
}

pub fn total_record(p: &mut Pen, sum: u64, jobs: u64) {
    p.begin("total");
    p.of_file();
    p.whole("runs", sum);
    p.whole("jobs", jobs);
    p.end();
}

// The sum of the counts of all causes, modulo 2^64: the very sum where it is below that, as the counts of a call are (proofs/Laws/Totals.antt).
fn total(counts: &[u64]) -> u64
    ensures { result ≡ total_of counts.now }
{
    let mut sum: u64 = 0;
    for k in 0..JOB_CAUSES {
        sum = sum.wrapping_add(word_in(counts, k));
    }
    sum
}

pub fn count_record(p: &mut Pen, k: u8, count: u64) {
    p.begin("count");
    p.of_file();
    p.whole("number", k as u64);
    p.label("meaning", number_words(k));
    p.whole("jobs", count);
    p.end();
}

// How many jobs have this number of their own, out of the counts by cause: settled are the sound ones and those with a cause that is no number of the run.
fn number_count(counts: &[u64], k: u8) -> u64
    ensures { result ≡ number_count counts.now k }
{
    let refused = Refusal::Tolerance.number();
    if k == refused {
        return 0;
    }
    if k != 0 {
        return word_in(counts, k as usize);
    }
    word_in(counts, 0)
        .wrapping_add(word_in(counts, refused as usize))
        .wrapping_add(word_in(counts, BEHIND as usize))
        .wrapping_add(word_in(counts, REJECTED as usize))
}

// Whether number k has a record: a DC run can end with it, or it did come.
fn shows(k: u8, count: u64) -> bool
    ensures { result ≡ shown k count }
{
    cause::ends_dc(k) | (count != 0)
}

// Every run that did not settle; for a person, how many they are before them.
pub fn unsettled(p: &mut Pen, lists: Lists<'_>, jobs: u64, settled: u64) {
    if p.is_person() {
        if jobs <= settled {
            write!(p, "every run settled\n");
        } else {
            write!(
                p,
                "not settled, and in no value above: {}\n",
                jobs - settled
            );
        }
    }
    for job in 0..jobs {
        let r = lists.run(job);
        if number_of(r.cause) != 0 {
            not_settled(p, r);
        }
    }
}

fn not_settled(p: &mut Pen, r: Run) {
    p.set_job(r.job);
    if !p.is_person() {
        not_settled_record(p, r);
        return;
    }
    let k = small(r.cause);
    write!(p, "job {}: {}", r.job, Cause(k));
    if is_refusal(k) {
        write!(p, ", record {}\n", r.place);
    } else {
        write!(p, ", passes {}\n", r.passes);
    }
}

pub fn not_settled_record(p: &mut Pen, r: Run) {
    let k = small(r.cause);
    p.begin("not_settled");
    p.of_job();
    p.whole("number", k as u64);
    p.label("meaning", number_words(k));
    p.whole("place", r.place);
    p.whole("passes", r.passes);
    p.end();
}

// For a machine every run, with the chosen unknown, which stands at this place of each vector of n floats.
pub fn runs(p: &mut Pen, lists: Lists<'_>, vectors: &[f64], jobs: u64, n: u64, unknown: u64) {
    if p.is_person() {
        return;
    }
    let mut at = unknown as usize;
    for job in 0..jobs {
        p.set_job(job);
        run_record(p, lists.run(job), float_in(vectors, at));
        at = at.wrapping_add(n as usize);
    }
}

pub fn run_record(p: &mut Pen, r: Run, x: f64) {
    p.begin("run");
    p.of_job();
    p.whole("number", number_of(r.cause));
    p.whole("passes", r.passes);
    p.whole("cause", r.cause);
    p.whole("place", r.place);
    p.float("value", x);
    p.end();
}

// A job's own number, as it has it by itself: its cause, and 0 where that is no number of the run.
fn number_of(cause: u64) -> u64
    ensures { result ≡ number_of cause }
{
    if cause::is_unsound(cause) { 0 } else { cause }
}

// n as a byte, and 255 for all that are larger.
pub fn small(n: u64) -> u8
    ensures { result ≡ min n 255 }
{
    n.min(255) as u8
}
