// What the whole call refuses before it touches anything: 13, then 1 to 5 as for a single job, with uneven sheets among 2 and the result buffers among 5.
ghost use Rattle.std.specs.Prelude.{◌≡◌, ◌+◌, ◌≤◌, leb};
ghost use Rattle.numbers.specs.Limits.{most_unknowns, most_jobs};
ghost use Rattle.spreads.specs.Refusals.{one_job, bad_jobs, short_results, call_refusal};

use checks::Sizes;
use numbers::limit::{JOB_NUMBERS, JOBS, SUM_LIMBS};
use options::Options;

// The counts of a call and the lengths of what is lent to it.
#[derive(Clone, Copy)]
pub struct Lent {
    pub jobs: usize,
    pub nodes: usize,
    pub sources: usize,
    pub unknown: usize,
    pub sheets: usize,
    pub points: usize,
    pub base: usize,
    pub system: usize,
    pub elimination: usize,
    pub memory: usize,
    pub vectors: usize,
    pub numbers: usize,
    pub places: usize,
    pub passes: usize,
    pub counts: usize,
    pub plus: usize,
    pub minus: usize,
}

// The refusal, 13 or 1 to 5, or 0 where there is none.
pub fn refusal(o: Options, z: Lent) -> u8
    ensures { result ≡ call_refusal o z }
{
    if bad_jobs(z.jobs, z.unknown, z.nodes, z.sources) {
        return numbers::refusal::JOBS;
    }
    if checks::bad_order(z.nodes, z.sources) {
        return numbers::refusal::ORDER;
    }
    if z.sheets % z.jobs != 0 {
        return numbers::refusal::SHEET;
    }
    if let Err(k) = checks::refusal(o, one_job(z)) {
        return k.number();
    }
    if short_results(z) {
        return numbers::refusal::ROOM;
    }
    0
}

// Whether the jobs or the chosen unknown are refused by 13.
fn bad_jobs(jobs: usize, unknown: usize, nodes: usize, sources: usize) -> bool
    ensures { result ≡ bad_jobs jobs unknown nodes sources }
{
    (jobs == 0) | (JOBS < jobs) | outside(unknown, nodes, sources)
}

// Whether an unknown is not below N. The sum is never formed where it could wrap.
fn outside(unknown: usize, nodes: usize, sources: usize) -> bool
    ensures { result ≡ leb (nodes + sources) unknown }
{
    if unknown < nodes {
        return false;
    }
    sources <= unknown - nodes
}

// A single job's part of what is lent.
fn one_job(z: Lent) -> Sizes
    requires { (z.nodes + z.sources ≤ most_unknowns) × (1 ≤ z.jobs) }
    ensures { result ≡ one_job z }
{
    Sizes {
        nodes: z.nodes,
        sources: z.sources,
        sheet: z.sheets / z.jobs,
        points: z.points,
        base: z.base,
        system: z.system,
        elimination: z.elimination,
        vector: z.nodes + z.sources,
        memory: z.memory,
        rows: 0,
        transient: false,
    }
}

// Whether a result buffer is too short.
fn short_results(z: Lent) -> bool
    requires { (z.nodes + z.sources ≤ most_unknowns) × (z.jobs ≤ most_jobs) }
    ensures { result ≡ short_results z }
{
    let n = z.nodes + z.sources;
    let lists = (z.numbers < z.jobs) | (z.places < z.jobs) | (z.passes < z.jobs);
    let sums = (z.counts < JOB_NUMBERS) | (z.plus < SUM_LIMBS) | (z.minus < SUM_LIMBS);
    (z.vectors < z.jobs * n) | lists | sums
}
