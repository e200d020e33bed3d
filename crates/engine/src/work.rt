// The work of a run on buffers of the very lengths: its base matrix is stamped, it begins, and runs by its budget.
ghost use Rattle.std.specs.Prelude.{◌≡◌, length};
ghost use Rattle.behind.specs.Behind.{behind_number as behind_of};
ghost use Rattle.machine.specs.State.{buffers_of, state_of};
ghost use Rattle.passes.specs.Attempt.{circuit_of};
ghost use Rattle.passes.specs.Lent.{circuit_in, buffers_in, Kept};
ghost use Rattle.engine.specs.Work.{base_on, Fit, FitIn, end_of, handover_of, handover};

use super::begin::begin;
use behind::behind_number;
use passes::{Buffers, Circuit};
use steps::Counters;

// What a run hands over besides its buffers: its counters, and the first diode that is behind in what it leaves, 0 for none, else 1 and its record's place.
#[derive(Clone, Copy)]
pub struct Handed {
    pub counters: Counters,
    pub behind: u64,
}

// The run, with the accepted vector in an array of its own.
pub fn run_in(
    k: Circuit,
    base: &mut [f64],
    elimination: &mut [f64],
    system: &mut [f64],
    vector: &mut [f64],
    memory: &mut [f64],
    rows: &mut [f64],
) -> Handed
    requires { Fit (length vector.old) (length base.old) (length elimination.old) (length system.old) }
    ensures { handover_of result.counters result.behind (buffers_of base.new system.new vector.new memory.new rows.new)
        ≡ handover (circuit_of k.entry.job (length vector.old) k.entry.sheet.now k.entry.points.now)
        (end_of (circuit_of k.entry.job (length vector.old) k.entry.sheet.now k.entry.points.now) memory.old rows.old) }
{
    let n = vector.len();
    groups::stamp_base(k.sheet, k.job.nodes, n, base);
    let mut a = loops::cells();
    let mut w = Buffers {
        base,
        system,
        elimination,
        vector,
        memory,
    };
    let counters = work(k, &mut a[..n], &mut w, rows);
    let behind = behind_in(k, &w);
    Handed { counters, behind }
}

// The first diode that is behind in these buffers, 0 for none, else 1 and its record's place.
fn behind_in(k: Circuit, w: &Buffers) -> u64
    ensures { result ≡ behind_of k.entry.job.options k.entry.sheet.now w.now.vector.now w.now.memory.now }
{
    behind_number(k.job.options, k.sheet, w.vector, w.memory)
}

// The same with the accepted vector lent and the base stamped.
fn work(k: Circuit, accepted: &mut [f64], w: &mut Buffers, rows: &mut [f64]) -> Counters
    requires fit { FitIn w.old }
    requires accepted_len { length accepted.old ≡ length w.old.vector.now }
    requires stamped { w.old.base.now ≡ base_on k.job.nodes (length w.old.vector.now) k.sheet.now }
    ensures all { state_of result accepted.new (buffers_in w.new rows.new) ≡ end_of (circuit_in k.entry w.old) w.old.memory.now rows.old }
    ensures kept { Kept w.new w.old }
{
    begin(k, accepted, w);
    passes::run(k, Counters::started(), accepted, w, rows)
}
