// What is written about sound runs: how many jobs have each cause, loudly which settled ones are not sound, and the chosen unknown over the sound runs and over the settled ones.
ghost use Rattle.std.specs.Prelude.{◌≡◌};
ghost use Rattle.say.specs.Totals.{ends_dc, cause_shown, unsound as unsoundCause};

use super::job::Volts;
use super::spread::small;
use numbers::cause::{BEHIND, REJECTED};
use numbers::limit::JOB_CAUSES;
use numbers::refusal::Refusal;
use numbers::verdict::Verdict;
use pen::{Number, Pen, cause_words, is_refusal, word_in};
use std::fmt;
use std::fmt::{Display, Formatter, Write};
use tally::Report;

// The causes that a job can have are those below this one.
const CAUSES: u8 = JOB_CAUSES as u8;

// How many jobs have each cause.
pub fn causes(p: &mut Pen, counts: &[u64], judged: bool) {
    for k in 0..CAUSES {
        let count = word_in(counts, k as usize);
        if shows(k, count, judged) {
            caused(p, k, count);
        }
    }
}

fn caused(p: &mut Pen, k: u8, count: u64) {
    if p.is_person() {
        write!(p, "{}: {count}\n", Cause(k));
    } else {
        cause_record(p, k, count);
    }
}

pub fn cause_record(p: &mut Pen, k: u8, count: u64) {
    p.begin("cause");
    p.of_file();
    p.whole("cause", k as u64);
    p.label("meaning", cause_words(k));
    p.whole("jobs", count);
    p.end();
}

pub fn sound_record(p: &mut Pen, sound: u64, jobs: u64) {
    p.begin("sound");
    p.of_file();
    p.whole("sound", sound);
    p.whole("jobs", jobs);
    p.end();
}

// Whether cause k has a line: a DC job can have it, the judge's where it is asked, or it did come.
fn shows(k: u8, count: u64, judged: bool) -> bool
    ensures { result ≡ cause_shown judged k count }
{
    let of_judge = judged & ((k == Refusal::Tolerance.number()) | (k == REJECTED));
    ends_dc(k) | (k == BEHIND) | of_judge | (count != 0)
}

// Whether a DC job can be refused by this number or end with it as its verdict.
pub fn ends_dc(k: u8) -> bool
    ensures { result ≡ ends_dc k }
{
    let refused = (Refusal::Kind.number() <= k) & (k <= Refusal::Pattern.number());
    let failed = (Verdict::PassesUsed.number() <= k) & (k <= Verdict::DiodeCurrent.number());
    let spent = k == Verdict::BudgetSpent.number();
    (k == Verdict::Settled.number()) | refused | failed | spent
}

// A job's cause by its number, with what it means.
#[derive(Clone, Copy, Debug, PartialEq, Eq)]
pub struct Cause(pub u8);

impl Display for Cause {
    fn fmt<W: Write>(&self, f: &mut Formatter<W>) -> fmt::Result {
        let k = self.0;
        let words = cause_words(k);
        if k == Verdict::Settled.number() {
            return write!(f, "{words}");
        }
        let ended = if k == Refusal::Tolerance.number() {
            "judge's refusal"
        } else if is_refusal(k) {
            "refused by"
        } else if is_unsound(k as u64) {
            "cause"
        } else {
            "verdict"
        };
        write!(f, "{ended} {k} ({words})")
    }
}

// Whether this is the cause of a settled job that is not sound.
pub fn is_unsound(cause: u64) -> bool
    ensures { result ≡ unsoundCause cause }
{
    let refused = cause == Refusal::Tolerance.number() as u64;
    refused | (cause == BEHIND as u64) | (cause == REJECTED as u64)
}

// For a person, loudly, how many settled runs are not sound.
pub fn not_sound_line(p: &mut Pen, settled: u64, sound: u64) {
    if p.is_person() & (sound < settled) {
        let n = settled - sound;
        write!(p, "NOT SOUND: {n} of {settled} settled runs; ");
        write!(p, "they are in no value below but the last\n");
    }
}

// A settled job that is not sound: by a diode that is behind, with its two voltages, or by the judge, with the row that it rejects.
pub fn not_sound(p: &mut Pen, job: u64, cause: u64, place: u64, volts: Volts) {
    let k = small(cause);
    p.set_job(job);
    if p.is_person() {
        not_sound_run(p, job, k, place, volts);
        return;
    }
    match k {
        BEHIND => not_sound_record(p, k, place, volts, 0),
        REJECTED => not_sound_record(p, k, 0, Volts::default(), place),
        _ => not_sound_record(p, k, 0, Volts::default(), 0),
    }
}

fn not_sound_run(p: &mut Pen, job: u64, k: u8, place: u64, volts: Volts) {
    write!(p, "job {job}: {}", Cause(k));
    match k {
        BEHIND => {
            write!(p, ", record {place}");
            volts.line(p);
        }
        REJECTED => write!(p, ", row {place}"),
        _ => {}
    }
    write!(p, "\n");
}

pub fn not_sound_record(p: &mut Pen, k: u8, place: u64, volts: Volts, row: u64) {
    p.begin("not_sound");
    p.of_job();
    p.whole("cause", k as u64);
    p.label("meaning", cause_words(k));
    p.whole("place", place);
    volts.fields(p);
    p.whole("row", row);
    p.end();
}

// The chosen unknown over so many runs, and its mean.
#[derive(Clone, Copy)]
pub struct Values {
    pub report: Report,
    pub mean: f64,
}

// Smallest, largest and mean of the chosen unknown over the sound runs; and over the settled ones.
pub fn range(p: &mut Pen, sound: Values, settled: Values) {
    if !p.is_person() {
        range_records(
            p,
            ["sound_smallest", "sound_largest", "sound_mean"],
            "sound",
            sound,
        );
        range_records(p, ["smallest", "largest", "mean"], "settled", settled);
        return;
    }
    let settled_runs = settled.report.settled;
    if settled_runs == 0 {
        write!(
            p,
            "no run settled: there is no smallest, no largest and no mean\n"
        );
        return;
    }
    sound_lines(p, sound);
    write!(p, "mean over the settled = {}", Number(settled.mean));
    write!(p, ", settled runs {settled_runs}\n");
}

fn sound_lines(p: &mut Pen, v: Values) {
    let r = v.report;
    if r.settled == 0 {
        write!(
            p,
            "no run is sound: there is no smallest, no largest and no mean of sound runs\n"
        );
        return;
    }
    write!(
        p,
        "smallest = {}, job {}\n",
        Number(r.smallest),
        r.smallest_at
    );
    write!(p, "largest = {}, job {}\n", Number(r.largest), r.largest_at);
    write!(p, "mean = {}, sound runs {}\n", Number(v.mean), r.settled);
}

// The records of these kinds, if there is a run.
fn range_records(p: &mut Pen, kinds: [&str; 3], runs: &str, v: Values) {
    let r = v.report;
    if r.settled == 0 {
        return;
    }
    let [smallest, largest, mean] = kinds;
    value_record(p, smallest, r.smallest, "job", r.smallest_at);
    value_record(p, largest, r.largest, "job", r.largest_at);
    value_record(p, mean, v.mean, runs, r.settled);
}

// A value by its kind, with the number that belongs to it.
pub fn value_record(p: &mut Pen, kind: &str, x: f64, what: &str, k: u64) {
    p.begin(kind);
    p.of_file();
    p.float("value", x);
    p.whole(what, k);
    p.end();
}
