// The engine's two public analyses. Each refuses and changes nothing, or runs within its budget and ends with one verdict. The answer and the buffers are `run_of` of the call
// (specs/Engine.antt), for all input; the elimination matrix is scratch.
#![tactic(auto)]

mod begin;
mod told;
mod work;

ghost use Rattle.std.specs.Prelude.{◌≡◌, true, false, []};
ghost use Rattle.machine.specs.State.{buffers_of};
ghost use Rattle.engine.specs.Engine.{call_in, result_of, run_of, Scratched};

use checks::Sizes;
use numbers::verdict::Verdict;
use options::Options;
use passes::Circuit;
use steps::Job;

// How a run ended: its verdict, the verdict of its DC part, the passes solved, the rows written and the time reached; and whether a diode was then behind.
#[derive(Clone, Copy)]
pub struct Ending {
    pub verdict: Verdict,
    pub dc: Verdict,
    pub passes: u64,
    pub rows: u64,
    pub end: f64,
    // the first diode that is behind in the last vector: 0 for none, else 1 and its record's place
    pub behind: u64,
}

// The number of a refusal and the place of the record, or how the run ended.
#[derive(Clone, Copy)]
pub enum Outcome {
    Refused(u8, usize),
    Ended(Ending),
}

// What is asked of a sheet: its records with their points, the counts of its nodes and sources, and the options.
#[derive(Clone, Copy)]
pub struct Input<'a> {
    pub sheet: &'a [u8],
    pub points: &'a [u8],
    pub nodes: usize,
    pub sources: usize,
    pub options: Options,
}

// The DC operating point of a sheet.
// kept: here and in the functions above the engine five buffers beside each other, for a struct of them that is handed on does not tell its maker what stands in them afterwards (it was tried).
pub fn dc_operating_point(
    i: Input,
    base: &mut [f64],
    system: &mut [f64],
    elimination: &mut [f64],
    vector: &mut [f64],
    memory: &mut [f64],
) -> Outcome
    ensures all { result_of result (buffers_of base.new system.new vector.new memory.new [])
        ≡ run_of (call_in i.entry false elimination.old (buffers_of base.old system.old vector.old memory.old [])) }
    ensures scratch { Scratched (call_in i.entry false elimination.old (buffers_of base.old system.old vector.old memory.old [])) elimination.new }
{
    let mut none = [0.0];
    analysis(
        i,
        false,
        base,
        system,
        elimination,
        vector,
        memory,
        &mut none[..0],
    )
}

// The transient analysis of a sheet: DC first, then steps, whose rows go to `rows`.
pub fn transient_analysis(
    i: Input,
    base: &mut [f64],
    system: &mut [f64],
    elimination: &mut [f64],
    vector: &mut [f64],
    memory: &mut [f64],
    rows: &mut [f64],
) -> Outcome
    ensures all { result_of result (buffers_of base.new system.new vector.new memory.new rows.new)
        ≡ run_of (call_in i.entry true elimination.old (buffers_of base.old system.old vector.old memory.old rows.old)) }
    ensures scratch { Scratched (call_in i.entry true elimination.old (buffers_of base.old system.old vector.old memory.old rows.old)) elimination.new }
{
    analysis(i, true, base, system, elimination, vector, memory, rows)
}

// Either analysis: the checks in their order, then the work on parts of the very lengths.
fn analysis(
    i: Input,
    transient: bool,
    base: &mut [f64],
    system: &mut [f64],
    elimination: &mut [f64],
    vector: &mut [f64],
    memory: &mut [f64],
    rows: &mut [f64],
) -> Outcome
    ensures all { result_of result (buffers_of base.new system.new vector.new memory.new rows.new)
        ≡ run_of (call_in i.entry transient elimination.old (buffers_of base.old system.old vector.old memory.old rows.old)) }
    ensures scratch { Scratched (call_in i.entry transient elimination.old (buffers_of base.old system.old vector.old memory.old rows.old)) elimination.new }
{
    let z = Sizes {
        nodes: i.nodes,
        sources: i.sources,
        sheet: i.sheet.len(),
        points: i.points.len(),
        base: base.len(),
        system: system.len(),
        elimination: elimination.len(),
        vector: vector.len(),
        memory: memory.len(),
        rows: rows.len(),
        transient,
    };
    if let Err(f) = checks::check(i.options, z, i.sheet) {
        return told::refused(f);
    }
    let n = i.nodes + i.sources;
    let cells = n * (n + 1);
    let records = i.sheet.len() / sheet::RECORD;
    let job = Job {
        options: i.options,
        nodes: i.nodes,
        transient,
    };
    let k = Circuit {
        job,
        sheet: i.sheet,
        points: i.points,
    };
    let r = work::run_in(
        k,
        &mut base[..cells],
        &mut elimination[..cells],
        &mut system[..cells],
        &mut vector[..n],
        &mut memory[..records],
        rows,
    );
    told::ended(r)
}
