// All spreads in one call: up to 256 DC jobs with the same counts, options, points and budget, their sheets end to end, and a report over them. Each job is what it is by itself,
// with fresh memory; the report counts the jobs by their numbers and follows one chosen unknown over the settled ones. What is answered and left is `spreads_of` in
// specs/Spreads.antt, for all input.
#![tactic(auto)]

pub mod refusals; // refusals.rt: 13, then 1 to 5 for the whole call
mod runs; // runs.rt: the jobs, one after the other

ghost use Rattle.std.specs.Prelude.{◌≡◌};
ghost use Rattle.spreads.specs.Spreads.{results_of, scratch_of, batch_of, lengths, batch_result_of, spreads_of, ScratchKept};

use numbers::limit::SUM_LIMBS;
use options::Options;
use refusals::Lent;
pub use tally::Report;

// The number of a refusal, or the report.
#[derive(Clone, Copy)]
pub enum Spread {
    Refused(u8),
    Done(Report),
}

// Runs every job. `vectors` gets N floats for each, `numbers` its verdict or its refusal 6 to 10, `places` the faulty record's place, `passes` the passes solved; `counts` gets how many jobs
// have each number from 0 to 26, and `plus` less `minus` is the exact sum of the chosen unknown over the settled jobs. The other buffers are scratch.
pub fn spreads(
    sheets: &[u8],
    points: &[u8],
    jobs: usize,
    nodes: usize,
    sources: usize,
    unknown: usize,
    o: Options,
    base: &mut [f64],
    system: &mut [f64],
    elimination: &mut [f64],
    memory: &mut [f64],
    vectors: &mut [f64],
    numbers: &mut [u64],
    places: &mut [u64],
    passes: &mut [u64],
    counts: &mut [u64],
    plus: &mut [u64],
    minus: &mut [u64],
) -> Spread
    ensures all { batch_result_of result (results_of vectors.new numbers.new places.new passes.new counts.new plus.new minus.new)
        ≡ spreads_of (batch_of o jobs nodes sources unknown sheets.now points.now
        (scratch_of base.old system.old elimination.old memory.old)
        (results_of vectors.old numbers.old places.old passes.old counts.old plus.old minus.old)) }
    ensures scratch { ScratchKept (batch_of o jobs nodes sources unknown sheets.now points.now
        (scratch_of base.old system.old elimination.old memory.old)
        (results_of vectors.old numbers.old places.old passes.old counts.old plus.old minus.old))
        (scratch_of base.new system.new elimination.new memory.new) }
{
    let z = Lent {
        jobs,
        nodes,
        sources,
        unknown,
        sheets: sheets.len(),
        points: points.len(),
        base: base.len(),
        system: system.len(),
        elimination: elimination.len(),
        memory: memory.len(),
        vectors: vectors.len(),
        numbers: numbers.len(),
        places: places.len(),
        passes: passes.len(),
        counts: counts.len(),
        plus: plus.len(),
        minus: minus.len(),
    };
    answer(
        o,
        z,
        sheets,
        points,
        base,
        system,
        elimination,
        memory,
        vectors,
        numbers,
        places,
        passes,
        counts,
        plus,
        minus,
    )
}

// The same with the counts and the lengths in z: refused, or every job run and the report made.
fn answer(
    o: Options,
    z: Lent,
    sheets: &[u8],
    points: &[u8],
    base: &mut [f64],
    system: &mut [f64],
    elimination: &mut [f64],
    memory: &mut [f64],
    vectors: &mut [f64],
    numbers: &mut [u64],
    places: &mut [u64],
    passes: &mut [u64],
    counts: &mut [u64],
    plus: &mut [u64],
    minus: &mut [u64],
) -> Spread
    requires { z ≡ lengths (batch_of o z.jobs z.nodes z.sources z.unknown sheets.now points.now
        (scratch_of base.old system.old elimination.old memory.old)
        (results_of vectors.old numbers.old places.old passes.old counts.old plus.old minus.old)) }
    ensures all { batch_result_of result (results_of vectors.new numbers.new places.new passes.new counts.new plus.new minus.new)
        ≡ spreads_of (batch_of o z.jobs z.nodes z.sources z.unknown sheets.now points.now
        (scratch_of base.old system.old elimination.old memory.old)
        (results_of vectors.old numbers.old places.old passes.old counts.old plus.old minus.old)) }
    ensures scratch { ScratchKept (batch_of o z.jobs z.nodes z.sources z.unknown sheets.now points.now
        (scratch_of base.old system.old elimination.old memory.old)
        (results_of vectors.old numbers.old places.old passes.old counts.old plus.old minus.old))
        (scratch_of base.new system.new elimination.new memory.new) }
{
    let k = refusals::refusal(o, z);
    if k != 0 {
        return Spread::Refused(k);
    }
    let n = z.nodes + z.sources;
    let cells = n * (n + 1);
    let bytes = sheets.len() / z.jobs;
    runs::run_jobs(
        sheets,
        points,
        z.jobs,
        bytes,
        z.nodes,
        z.sources,
        o,
        &mut base[..cells],
        &mut system[..cells],
        &mut elimination[..cells],
        &mut memory[..bytes / sheet::RECORD],
        vectors,
        numbers,
        places,
        passes,
    );
    tally::count_all(numbers, z.jobs, counts);
    Spread::Done(tally::sum_up(
        numbers,
        vectors,
        z.jobs,
        n,
        z.unknown,
        &mut plus[..SUM_LIMBS],
        &mut minus[..SUM_LIMBS],
    ))
}
