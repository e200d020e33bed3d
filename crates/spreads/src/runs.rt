// The jobs, one after the other: each by itself on its own sheet, and its vector written in its place.
ghost use Rattle.std.specs.Prelude.{◌≡◌, ◌+◌, ◌*◌, ◌≤◌, length};
ghost use Rattle.numbers.specs.Limits.{most_unknowns};
ghost use Rattle.spreads.specs.Runs.{job_at, ResultRoom, ScratchRoom, entry_of, entry_at, table_of, table_after};

use options::Options;
use single::{Input, Mark};

// Every job in turn, on sheets of so many bytes.
pub fn run_jobs(
    sheets: &[u8],
    points: &[u8],
    jobs: usize,
    bytes: usize,
    nodes: usize,
    sources: usize,
    o: Options,
    base: &mut [f64],
    system: &mut [f64],
    elimination: &mut [f64],
    memory: &mut [f64],
    vectors: &mut [f64],
    numbers: &mut [u64],
    places: &mut [u64],
    passes: &mut [u64],
)
    requires { ResultRoom jobs bytes (nodes + sources) (length sheets.now) (length vectors.old) (length numbers.old) (length places.old) (length passes.old)
        × ScratchRoom bytes (nodes + sources) (length base.old) (length system.old) (length elimination.old) (length memory.old) }
    ensures { table_of vectors.new numbers.new places.new passes.new
        ≡ table_after (job_at o nodes sources bytes sheets.now points.now) (nodes + sources) jobs
        vectors.old numbers.old places.old passes.old }
{
    for job in 0..jobs {
        let m = run_job(
            sheets,
            points,
            job,
            bytes,
            nodes,
            sources,
            o,
            base,
            system,
            elimination,
            memory,
            vectors,
        );
        numbers[job] = m.number;
        places[job] = m.place;
        passes[job] = m.passes;
    }
}

// One job of many: its sheet and its vector are parts of the whole.
fn run_job(
    sheets: &[u8],
    points: &[u8],
    job: usize,
    bytes: usize,
    nodes: usize,
    sources: usize,
    o: Options,
    base: &mut [f64],
    system: &mut [f64],
    elimination: &mut [f64],
    memory: &mut [f64],
    vectors: &mut [f64],
) -> Mark
    requires { (nodes + sources ≤ most_unknowns)
        × (job * bytes + bytes ≤ length sheets.now)
        × (job * (nodes + sources) + (nodes + sources) ≤ length vectors.old)
        × ScratchRoom bytes (nodes + sources) (length base.old) (length system.old) (length elimination.old) (length memory.old) }
    ensures { entry_of result vectors.new
        ≡ entry_at (job_at o nodes sources bytes sheets.now points.now job) (nodes + sources) job vectors.old }
{
    let n = nodes + sources;
    let from = job * bytes;
    let to = job * n;
    let i = Input {
        sheet: &sheets[from..from + bytes],
        points,
        nodes,
        sources,
        options: o,
    };
    single::run_alone(
        i,
        base,
        system,
        elimination,
        memory,
        &mut vectors[to..to + n],
    )
}
