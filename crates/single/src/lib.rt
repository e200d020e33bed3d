// One DC job by itself, on a vector, a system and a memory that begin as zeros. What is written down for it, and what stands in its buffers afterwards, is `marked_run` in
// specs/Single.antt, for all input; of that, mark, vector and system are `alone`, whatever stood in the buffers. Whoever runs jobs above the engine comes here: specs/Laws/Promises.antt
// says all that such a caller needs to know of the engine.
#![tactic(auto)]

ghost use Rattle.std.specs.Prelude.{◌≡◌, false, []};
ghost use Rattle.machine.specs.State.{buffers_of};
ghost use Rattle.engine.specs.Engine.{call_in, Scratched};
ghost use Rattle.single.specs.Single.{mark_of, marked_of, marked_run};

pub use engine::Input;
use engine::Outcome;

// What is written down for a job: its verdict or its refusal, the faulty record's place, and the passes solved; and the first diode that is behind in its vector, 0 for none, else 1 and the record's place.
#[derive(Clone, Copy)]
pub struct Mark {
    pub number: u64,
    pub place: u64,
    pub passes: u64,
    pub behind: u64,
}

// One job, with fresh memory. A job that is refused leaves zeros in its vector and its system.
pub fn run_alone(
    i: Input,
    base: &mut [f64],
    system: &mut [f64],
    elimination: &mut [f64],
    memory: &mut [f64],
    vector: &mut [f64],
) -> Mark
    ensures all { marked_of result (buffers_of base.new system.new vector.new memory.new [])
        ≡ marked_run (call_in i.entry false elimination.old (buffers_of base.old system.old vector.old memory.old [])) }
    ensures scratch { Scratched (call_in i.entry false elimination.old (buffers_of base.old system.old vector.old memory.old [])) elimination.new }
{
    memory.fill(0.0);
    vector.fill(0.0);
    system.fill(0.0);
    let r = engine::dc_operating_point(i, base, system, elimination, vector, memory);
    marked(r)
}

// A refused job has its refusal for a number, and no pass.
fn marked(r: Outcome) -> Mark
    ensures { result ≡ mark_of r }
{
    match r {
        Outcome::Refused(k, i) => Mark {
            number: k as u64,
            place: i as u64,
            passes: 0,
            behind: 0,
        },
        Outcome::Ended(e) => Mark {
            number: e.verdict.number() as u64,
            place: 0,
            passes: e.passes,
            behind: e.behind,
        },
    }
}
