// The jobs, one after the other: each by itself on its own sheet, its vector written in its place, and its cause found on the system that it left.
ghost use Rattle.std.specs.Prelude.{◌≡◌, ◌++◌, ◌+◌, ◌*◌, ◌≤◌, length, drop};
ghost use Rattle.numbers.specs.Limits.{most_unknowns};
ghost use Rattle.loops.specs.Each.{each};
ghost use Rattle.single.specs.Single.{dc_call, alone};
ghost use Rattle.spreads.specs.Runs.{job_at, ResultRoom, ScratchRoom, table_of, table_after};
ghost use Rattle.spreads.specs.Spreads.{number_at};
ghost use Rattle.sound.specs.Causes.{with_causes};
ghost use Rattle.sound.specs.Runs.{entry_of, entry_by, entry_at};

use crate::causes;
use options::Options;
use single::Input;

// What is written down for a job: its own number, its cause with its place, and the passes solved.
#[derive(Clone, Copy)]
pub struct Line {
    pub number: u64,
    pub cause: u64,
    pub place: u64,
    pub passes: u64,
}

// Every job in turn, on sheets of so many bytes.
pub fn run_jobs(
    sheets: &[u8],
    points: &[u8],
    tolerances: &[f64],
    jobs: usize,
    bytes: usize,
    nodes: usize,
    sources: usize,
    o: Options,
    base: &mut [f64],
    system: &mut [f64],
    elimination: &mut [f64],
    memory: &mut [f64],
    vectors: &mut [f64],
    numbers: &mut [u64],
    causes: &mut [u64],
    places: &mut [u64],
    passes: &mut [u64],
)
    requires { ResultRoom jobs bytes (nodes + sources) (length sheets.now) (length vectors.old) (length causes.old) (length places.old) (length passes.old)
        × (jobs ≤ length numbers.old)
        × ScratchRoom bytes (nodes + sources) (length base.old) (length system.old) (length elimination.old) (length memory.old) }
    ensures table { table_of vectors.new causes.new places.new passes.new
        ≡ table_after (with_causes tolerances.now (nodes + sources) (job_at o nodes sources bytes sheets.now points.now)) (nodes + sources) jobs
        vectors.old causes.old places.old passes.old }
    ensures own { numbers.new ≡ each (number_at (job_at o nodes sources bytes sheets.now points.now)) jobs ++ drop jobs numbers.old }
{
    for job in 0..jobs {
        let l = run_job(
            sheets,
            points,
            tolerances,
            job,
            bytes,
            nodes,
            sources,
            o,
            base,
            system,
            elimination,
            memory,
            vectors,
        );
        numbers[job] = l.number;
        causes[job] = l.cause;
        places[job] = l.place;
        passes[job] = l.passes;
    }
}

// One job of many: its sheet and its vector are parts of the whole.
fn run_job(
    sheets: &[u8],
    points: &[u8],
    tolerances: &[f64],
    job: usize,
    bytes: usize,
    nodes: usize,
    sources: usize,
    o: Options,
    base: &mut [f64],
    system: &mut [f64],
    elimination: &mut [f64],
    memory: &mut [f64],
    vectors: &mut [f64],
) -> Line
    requires { (nodes + sources ≤ most_unknowns)
        × (job * bytes + bytes ≤ length sheets.now)
        × (job * (nodes + sources) + (nodes + sources) ≤ length vectors.old)
        × ScratchRoom bytes (nodes + sources) (length base.old) (length system.old) (length elimination.old) (length memory.old) }
    ensures { entry_of result vectors.new
        ≡ entry_at tolerances.now (job_at o nodes sources bytes sheets.now points.now job) (nodes + sources) job vectors.old }
{
    let n = nodes + sources;
    let from = job * bytes;
    let to = job * n;
    run_one(
        &sheets[from..from + bytes],
        points,
        tolerances,
        nodes,
        sources,
        o,
        base,
        system,
        elimination,
        memory,
        &mut vectors[to..to + n],
    )
}

// One job by itself, and what the judge says of it.
fn run_one(
    sheet: &[u8],
    points: &[u8],
    tolerances: &[f64],
    nodes: usize,
    sources: usize,
    o: Options,
    base: &mut [f64],
    system: &mut [f64],
    elimination: &mut [f64],
    memory: &mut [f64],
    vector: &mut [f64],
) -> Line
    requires { nodes + sources ≤ most_unknowns }
    ensures { entry_of result vector.new
        ≡ entry_by tolerances.now (nodes + sources) (alone (dc_call o nodes sources sheet.now points.now
        base.old system.old elimination.old vector.old memory.old)) }
{
    let i = Input {
        sheet,
        points,
        nodes,
        sources,
        options: o,
    };
    let m = single::run_alone(i, base, system, elimination, memory, vector);
    let c = causes::told(causes::find(m, system, vector, tolerances, nodes + sources));
    Line {
        number: m.number,
        cause: c.cause,
        place: c.place,
        passes: m.passes,
    }
}
