// All spreads in one call, and which of their runs are sound: settled, with no diode behind and, where tolerances are handed in, accepted by the judge on the system that the run left. Each job
// is run once. The jobs, the scratch and the report over the settled ones are those of `spreads`; beside them stand a cause for each job that is not sound, and a report over the sound ones.
// What is answered and left is `sound_of` in specs/Sound.antt, for all input.
#![tactic(auto)]

pub mod causes; // causes.rt: a job's cause, and its numbers
pub mod refusals; // refusals.rt: 13, then 1 to 5 for the whole call
mod reports; // reports.rt: over the settled jobs, and over the sound ones
mod runs; // runs.rt: the jobs, one after the other

ghost use Rattle.std.specs.Prelude.{◌≡◌};
ghost use Rattle.spreads.specs.Spreads.{scratch_of};
ghost use Rattle.sound.specs.Sound.{results_of, call_of, lengths, more_of, sound_result_of, sound_of, ScratchKept};

use numbers::limit::JOB_CAUSES;
use options::Options;
use refusals::More;
pub use reports::Reports;
use spreads::refusals::Lent;

// The number of a refusal, or the two reports.
#[derive(Clone, Copy)]
pub enum Soundings {
    Refused(u8),
    Done(Reports),
}

// Runs every job. `vectors` gets N floats for each, `causes` 0 where it is sound and else its cause, `places` the cause's record or row, `passes` the passes solved; `counts` gets how many jobs
// have each cause from 0 to 28. `plus` less `minus` is the exact sum of the chosen unknown over the settled jobs, and `sound_plus` less `sound_minus` over the sound ones. Tolerances are one for
// each row, or none, and then nothing is judged. The other buffers are scratch.
pub fn sound_spreads(
    sheets: &[u8],
    points: &[u8],
    tolerances: &[f64],
    jobs: usize,
    nodes: usize,
    sources: usize,
    unknown: usize,
    o: Options,
    base: &mut [f64],
    system: &mut [f64],
    elimination: &mut [f64],
    memory: &mut [f64],
    vectors: &mut [f64],
    causes: &mut [u64],
    places: &mut [u64],
    passes: &mut [u64],
    counts: &mut [u64],
    plus: &mut [u64],
    minus: &mut [u64],
    sound_plus: &mut [u64],
    sound_minus: &mut [u64],
) -> Soundings
    ensures all { sound_result_of result (results_of vectors.new causes.new places.new passes.new counts.new plus.new minus.new sound_plus.new sound_minus.new)
        ≡ sound_of (call_of o jobs nodes sources unknown sheets.now points.now tolerances.now
        (scratch_of base.old system.old elimination.old memory.old)
        (results_of vectors.old causes.old places.old passes.old counts.old plus.old minus.old sound_plus.old sound_minus.old)) }
    ensures scratch { ScratchKept (call_of o jobs nodes sources unknown sheets.now points.now tolerances.now
        (scratch_of base.old system.old elimination.old memory.old)
        (results_of vectors.old causes.old places.old passes.old counts.old plus.old minus.old sound_plus.old sound_minus.old))
        (scratch_of base.new system.new elimination.new memory.new) }
{
    let z = Lent {
        jobs,
        nodes,
        sources,
        unknown,
        sheets: sheets.len(),
        points: points.len(),
        base: base.len(),
        system: system.len(),
        elimination: elimination.len(),
        memory: memory.len(),
        vectors: vectors.len(),
        numbers: causes.len(),
        places: places.len(),
        passes: passes.len(),
        counts: counts.len(),
        plus: plus.len(),
        minus: minus.len(),
    };
    let y = More {
        tolerances: tolerances.len(),
        plus: sound_plus.len(),
        minus: sound_minus.len(),
    };
    answer(
        o,
        z,
        y,
        sheets,
        points,
        tolerances,
        base,
        system,
        elimination,
        memory,
        vectors,
        causes,
        places,
        passes,
        counts,
        plus,
        minus,
        sound_plus,
        sound_minus,
    )
}

// The same with the counts and the lengths in z and y: refused, or every job run and the reports made.
fn answer(
    o: Options,
    z: Lent,
    y: More,
    sheets: &[u8],
    points: &[u8],
    tolerances: &[f64],
    base: &mut [f64],
    system: &mut [f64],
    elimination: &mut [f64],
    memory: &mut [f64],
    vectors: &mut [f64],
    causes: &mut [u64],
    places: &mut [u64],
    passes: &mut [u64],
    counts: &mut [u64],
    plus: &mut [u64],
    minus: &mut [u64],
    sound_plus: &mut [u64],
    sound_minus: &mut [u64],
) -> Soundings
    requires { (z ≡ lengths (call_of o z.jobs z.nodes z.sources z.unknown sheets.now points.now tolerances.now
        (scratch_of base.old system.old elimination.old memory.old)
        (results_of vectors.old causes.old places.old passes.old counts.old plus.old minus.old sound_plus.old sound_minus.old)))
        × (y ≡ more_of (call_of o z.jobs z.nodes z.sources z.unknown sheets.now points.now tolerances.now
        (scratch_of base.old system.old elimination.old memory.old)
        (results_of vectors.old causes.old places.old passes.old counts.old plus.old minus.old sound_plus.old sound_minus.old))) }
    ensures all { sound_result_of result (results_of vectors.new causes.new places.new passes.new counts.new plus.new minus.new sound_plus.new sound_minus.new)
        ≡ sound_of (call_of o z.jobs z.nodes z.sources z.unknown sheets.now points.now tolerances.now
        (scratch_of base.old system.old elimination.old memory.old)
        (results_of vectors.old causes.old places.old passes.old counts.old plus.old minus.old sound_plus.old sound_minus.old)) }
    ensures scratch { ScratchKept (call_of o z.jobs z.nodes z.sources z.unknown sheets.now points.now tolerances.now
        (scratch_of base.old system.old elimination.old memory.old)
        (results_of vectors.old causes.old places.old passes.old counts.old plus.old minus.old sound_plus.old sound_minus.old))
        (scratch_of base.new system.new elimination.new memory.new) }
{
    let k = refusals::refusal(o, z, y);
    if k != 0 {
        return Soundings::Refused(k);
    }
    let n = z.nodes + z.sources;
    let cells = n * (n + 1);
    let bytes = sheets.len() / z.jobs;
    let mut numbers = reports::words();
    runs::run_jobs(
        sheets,
        points,
        tolerances,
        z.jobs,
        bytes,
        z.nodes,
        z.sources,
        o,
        &mut base[..cells],
        &mut system[..cells],
        &mut elimination[..cells],
        &mut memory[..bytes / sheet::RECORD],
        vectors,
        &mut numbers,
        causes,
        places,
        passes,
    );
    tally::count_to(causes, z.jobs, JOB_CAUSES, counts);
    Soundings::Done(reports::sum_both(
        &numbers,
        causes,
        vectors,
        z.jobs,
        n,
        z.unknown,
        plus,
        minus,
        sound_plus,
        sound_minus,
    ))
}
