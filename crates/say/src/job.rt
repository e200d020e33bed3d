// What is written about a job: how it ended, its unknowns, its rows, and what the judge says; on a sheet for a person, or as records for a machine.
ghost use Rattle.std.specs.Prelude.{◌≡◌, if◌then◌else◌};
ghost use Rattle.numbers.specs.Verdicts.{number_of};

use super::switch::Switches;
use engine::Ending;
use judge::Judged;
use numbers::refusal::Refusal;
use pen::{Number, Pen, Unknown, float_in, number_words, verdict_words};

// What a job says of itself before it runs.
#[derive(Clone, Copy, Debug, Default, PartialEq, Eq)]
pub struct JobHead {
    pub transient: bool,
    pub nodes: u64,
    pub sources: u64,
    pub switches: Switches,
}

// The job that follows.
pub fn heading(p: &mut Pen, h: JobHead) {
    if !p.is_person() {
        job_record(p, h);
        return;
    }
    let analysis = if h.transient {
        "transient analysis"
    } else {
        "DC operating point"
    };
    let job = p.job;
    write!(p, "Job {job}: {analysis}, ");
    write!(p, "{} nodes with ground, {} sources", h.nodes, h.sources);
    h.switches.of_a_job(p);
    write!(p, "\n");
}

pub fn job_record(p: &mut Pen, h: JobHead) {
    p.begin("job");
    p.of_job();
    p.label("analysis", if h.transient { "transient" } else { "dc" });
    p.whole("nodes", h.nodes);
    p.whole("sources", h.sources);
    h.switches.fields(p);
    p.end();
}

// A job that is refused.
pub fn refused(p: &mut Pen, number: u8, place: usize) {
    if !p.is_person() {
        refused_record(p, number, place);
        return;
    }
    let words = number_words(number);
    write!(p, "refused by {number} ({words}), record {place}\n");
}

pub fn refused_record(p: &mut Pen, number: u8, place: usize) {
    p.begin("refused");
    p.of_job();
    p.whole("number", number as u64);
    p.label("meaning", number_words(number));
    p.whole("place", place as u64);
    p.end();
}

// How a run ended.
pub fn ended(p: &mut Pen, e: Ending, transient: bool) {
    if !p.is_person() {
        ended_record(p, e, transient);
        return;
    }
    let words = verdict_words(e.verdict.number(), transient);
    let number = e.verdict.number();
    write!(p, "verdict {number} ({words}), passes {}", e.passes);
    if transient {
        write!(p, ", DC verdict {}, rows {}", e.dc.number(), e.rows);
        write!(p, ", end time {}", Number(e.end));
    }
    write!(p, "\n");
}

pub fn ended_record(p: &mut Pen, e: Ending, transient: bool) {
    p.begin("ended");
    p.of_job();
    p.whole("verdict", e.verdict.number() as u64);
    p.label("meaning", verdict_words(e.verdict.number(), transient));
    p.whole("dc_verdict", dc_verdict(e, transient));
    p.whole("passes", e.passes);
    p.whole("rows", e.rows);
    p.float("end", e.end);
    p.whole("behind", e.behind);
    p.end();
}

// The verdict of DC before a transient; a DC run has none before it.
fn dc_verdict(e: Ending, transient: bool) -> u64
    ensures { result ≡ (if transient then number_of e.dc else 0) }
{
    if transient { e.dc.number() as u64 } else { 0 }
}

// The voltage across a diode in a run's last vector, and the last one that it was limited to.
#[derive(Clone, Copy, Debug, Default)]
pub struct Volts {
    pub across: f64,
    pub limited: f64,
}

impl Volts {
    // For a person.
    pub fn line(self, p: &mut Pen) {
        write!(p, ", voltage across the diode = {}", Number(self.across));
        write!(p, ", limited to {}", Number(self.limited));
    }

    pub fn fields(self, p: &mut Pen) {
        p.float("across", self.across);
        p.float("limited", self.limited);
    }
}

// The first diode that is behind: its record and its voltages.
pub fn behind(p: &mut Pen, place: u64, volts: Volts, transient: bool) {
    if !p.is_person() {
        behind_record(p, place, volts);
        return;
    }
    write!(p, "BEHIND: record {place}");
    volts.line(p);
    if transient {
        write!(p, "; this speaks of the last vector alone");
    }
    write!(p, "\n");
}

pub fn behind_record(p: &mut Pen, place: u64, volts: Volts) {
    p.begin("behind");
    p.of_job();
    p.whole("place", place);
    volts.fields(p);
    p.end();
}

// The unknowns: the nodes' voltages, then the sources' currents, and nothing behind these.
pub fn vector(p: &mut Pen, x: &[f64], nodes: u64, sources: u64) {
    for (i, &x) in x.iter().enumerate() {
        let u = Unknown::at(i as u64, nodes);
        match u {
            Unknown::Source(i) if sources <= i => {}
            _ => unknown(p, u, x),
        }
    }
}

fn unknown(p: &mut Pen, u: Unknown, x: f64) {
    if p.is_person() {
        write!(p, "{u} = {}\n", Number(x));
    } else {
        unknown_record(p, u, x);
    }
}

pub fn unknown_record(p: &mut Pen, u: Unknown, x: f64) {
    let (of, i) = u.parts();
    p.begin("unknown");
    p.of_job();
    p.label("of", of);
    p.whole("index", i);
    p.float("value", x);
    p.end();
}

// The rows of a transient, so many of them: a time and n unknowns each.
pub fn rows(p: &mut Pen, x: &[f64], count: u64, n: u64) {
    let n = n as usize;
    let mut at: usize = 0;
    for k in 0..count {
        row(p, x, at, k, n);
        at = at.wrapping_add(n.wrapping_add(1));
    }
}

// Row k, which stands at place `at` of x.
fn row(p: &mut Pen, x: &[f64], at: usize, k: u64, n: usize) {
    if !p.is_person() {
        row_record(p, x, at, k, n);
        return;
    }
    write!(p, "time {}", Number(float_in(x, at)));
    for i in 0..n {
        let i = at.wrapping_add(1).wrapping_add(i);
        write!(p, "\t{}", Number(float_in(x, i)));
    }
    write!(p, "\n");
}

pub fn row_record(p: &mut Pen, x: &[f64], at: usize, k: u64, n: usize) {
    p.begin("row");
    p.of_job();
    p.whole("row", k);
    p.float("time", float_in(x, at));
    p.floats("values", x, at.wrapping_add(1), n);
    p.end();
}

// What the judge says.
pub fn judged(p: &mut Pen, j: Result<Judged, Refusal>) {
    if p.is_person() {
        match j {
            Ok(Judged::Accepted) => write!(p, "the judge accepts every row\n"),
            Ok(Judged::Rejected(i)) => write!(p, "the judge rejects row {i}\n"),
            Err(k) => write!(p, "the judge refuses by {}\n", k.number()),
        }
        return;
    }
    match j {
        Ok(Judged::Accepted) => judged_record(p, "accepted", 0, 0),
        Ok(Judged::Rejected(i)) => judged_record(p, "rejected", i as u64, 0),
        Err(k) => judged_record(p, "refused", 0, k.number() as u64),
    }
}

pub fn judged_record(p: &mut Pen, answer: &str, row: u64, number: u64) {
    p.begin("judged");
    p.of_job();
    p.label("answer", answer);
    p.whole("row", row);
    p.whole("number", number);
    p.end();
}
