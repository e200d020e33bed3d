// How many jobs ended in each way, and the lines that say so.
ghost use Rattle.std.specs.Prelude.{◌≡◌, length};

use super::job::{Found, Numbers};
use jobs::Head;
use numbers::{limit, refusal, verdict};
use std::num::wrapping_add_u64;

// Places of the counts: refusal k at k, DC's verdict v at 32 + v, a transient's at 64 + v, and at a limit the runs, with the refusals one further.
const DIFFER: u64 = 0;

const DC: u64 = 32;

const TRANSIENT: u64 = 64;

const UNKNOWNS_48: u64 = 96;

const UNKNOWNS_49: u64 = 98;

const BUDGET_MOST: u64 = 100;

const BUDGET_BEYOND: u64 = 102;

const RECORDS_256: u64 = 104;

const RECORDS_257: u64 = 106;

// The answers that tell whether a diode is behind: those where none is, and those where one is.
const CAUGHT_UP: u64 = 108;

const BEHIND: u64 = 109;

// The limits, as a job's numbers have them.
const MOST_UNKNOWNS: u64 = limit::UNKNOWNS as u64;

const RECORD: u64 = 40;

const MOST_SHEET: u64 = RECORD * (limit::RECORDS as u64);

// All counts at 0.
pub fn zeros() -> [u64; 128]
    ensures { 128 ≡ length result }
{
    [0; 128]
}

// Counts how a job ended.
pub fn ended(counts: &mut [u64], h: Head, n: Numbers) {
    add(counts, outcome(n, h.transient));
    let refused = if n.refusal == 0 { 0 } else { 1 };
    limit(counts, unknowns(h.nodes, h.sources), refused);
    limit(counts, budget(h.options.budget), refused);
    limit(counts, records(h.sheet), refused);
}

// Counts what a stored answer tells of its diodes, if it does.
pub fn told(counts: &mut [u64], behind: u64) {
    if behind == jobs::NOT_TOLD {
        return;
    }
    add(counts, if behind == 0 { CAUGHT_UP } else { BEHIND });
}

// The place of an outcome.
fn outcome(n: Numbers, transient: bool) -> u64 {
    if n.refusal != 0 {
        return n.refusal;
    }
    let kind = if transient { TRANSIENT } else { DC };
    wrapping_add_u64(kind, n.verdict)
}

// The place of a job at the limit of the unknowns; 0 for any other job.
fn unknowns(nodes: u64, sources: u64) -> u64 {
    if nodes > MOST_UNKNOWNS + 1 {
        return 0;
    }
    let n = wrapping_add_u64(nodes, sources);
    if n == MOST_UNKNOWNS {
        return UNKNOWNS_48;
    }
    if n == MOST_UNKNOWNS + 1 {
        return UNKNOWNS_49;
    }
    0
}

// The place of a job at the limit of the budget; 0 for any other job.
fn budget(passes: u64) -> u64 {
    if passes == limit::BUDGET {
        return BUDGET_MOST;
    }
    if passes == limit::BUDGET + 1 {
        return BUDGET_BEYOND;
    }
    0
}

// The place of a job at the limit of the records; 0 for any other job.
fn records(bytes: u64) -> u64 {
    if bytes == MOST_SHEET {
        return RECORDS_256;
    }
    if bytes == MOST_SHEET + RECORD {
        return RECORDS_257;
    }
    0
}

// Counts a job at a limit.
fn limit(counts: &mut [u64], place: u64, refused: u64) {
    if place != 0 {
        add(counts, wrapping_add_u64(place, refused));
    }
}

// Counts a job that differs, and names it where it is among the first ten.
pub fn found<P: Print>(rt: &P, counts: &mut [u64], k: u64, f: Found) {
    if let Found::Nothing = f {
        return;
    }
    add(counts, DIFFER);
    if at(counts, DIFFER) <= 10 {
        let _ = println!(rt; "job {k} differs: {}", field(f));
    }
}

// The name of a field.
fn field(f: Found) -> &'static str {
    match f {
        Found::Nothing => "nothing",
        Found::Refusal => "refusal",
        Found::Place => "place",
        Found::Verdict => "verdict",
        Found::DcVerdict => "DC verdict",
        Found::Passes => "passes",
        Found::Rows => "rows written",
        Found::End => "end",
        Found::Behind => "behind",
        Found::Base => "base matrix",
        Found::System => "system matrix",
        Found::Elimination => "elimination matrix",
        Found::Vector => "vector",
        Found::Memory => "memory",
        Found::RowFloats => "rows",
        Found::Unreadable => "cannot be read",
    }
}

// Writes how many jobs differ, and then a line for each kind of outcome and each limit.
pub fn report<P: Print>(rt: &P, counts: &[u64]) {
    let _ = println!(rt; ", {} differ\nrefused:", at(counts, DIFFER));
    report_from(rt, counts, 0, refusal::ORDER, refusal::PATTERN);
    let _ = println!(rt; "DC:");
    report_from(rt, counts, DC, verdict::SETTLED, verdict::SETTLED);
    report_from(rt, counts, DC, verdict::PASSES_USED, verdict::SINE_REFUSED);
    let _ = println!(rt; "transient:");
    report_from(rt, counts, TRANSIENT, verdict::SETTLED, verdict::SETTLED);
    report_from(
        rt,
        counts,
        TRANSIENT,
        verdict::PASSES_USED,
        verdict::SINE_REFUSED,
    );
    report_limit(rt, counts, "48 unknowns", UNKNOWNS_48);
    report_limit(rt, counts, "49 unknowns", UNKNOWNS_49);
    report_limit(rt, counts, "budget 1000000", BUDGET_MOST);
    report_limit(rt, counts, "budget 1000001", BUDGET_BEYOND);
    report_limit(rt, counts, "256 records", RECORDS_256);
    report_limit(rt, counts, "257 records", RECORDS_257);
    report_told(rt, at(counts, CAUGHT_UP), at(counts, BEHIND));
}

// Writes how many answers tell of their diodes, and what.
fn report_told<P: Print>(rt: &P, caught_up: u64, behind: u64) {
    let _ = println!(rt; "told of diodes: {caught_up} with none behind, {behind} with one");
}

// Writes the counts of the outcomes from `from` to `to`.
fn report_from<P: Print>(rt: &P, counts: &[u64], kind: u64, from: u8, to: u8) {
    for v in from..=to {
        report_one(rt, at(counts, wrapping_add_u64(kind, v as u64)), v as u64);
    }
}

// Writes the count of outcome v.
fn report_one<P: Print>(rt: &P, count: u64, v: u64) {
    let _ = println!(rt; "  {count} with {v}");
}

// Writes what became of the jobs at a limit.
fn report_limit<P: Print>(rt: &P, counts: &[u64], name: &str, place: u64) {
    let run = at(counts, place);
    let refused = at(counts, wrapping_add_u64(place, 1));
    let _ = println!(rt; "{name}: {run} run, {refused} refused");
}

// One more at a place.
fn add(counts: &mut [u64], place: u64) {
    let i = place as usize;
    if i < counts.len() {
        counts[i] = wrapping_add_u64(counts[i], 1);
    }
}

// The count at a place.
fn at(counts: &[u64], place: u64) -> u64 {
    let i = place as usize;
    if i < counts.len() {
        return counts[i];
    }
    0
}
