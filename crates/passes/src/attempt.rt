// The attempt of a pass: stamping, solving and comparing. A pass is stamped in the elimination matrix; when it is whole, it is copied to the system and eliminated.
// Where the pass before was stamped alike, its work is used again: all of it in a circuit without diodes, else what was stamped before the diodes, which a lent matrix holds.
ghost use Rattle.std.specs.Prelude.{◌≡◌, true, [], length};
ghost use Rattle.convergence.specs.Convergence.{convergence_of};
ghost use Rattle.groups.specs.Listed.{Listed};
ghost use Rattle.groups.specs.Sources.{driven_of};
ghost use Rattle.steps.specs.Control.{report_of};
ghost use Rattle.steps.specs.Control.{solved, waited};
ghost use Rattle.behind.specs.Behind.{behind_number};
ghost use Rattle.machine.specs.Machine.{compared, tried};
ghost use Rattle.passes.specs.Sized.{Square};
ghost use Rattle.passes.specs.Lent.{circuit_in, buffers_in, tried_in, linear_in, Kept, SizedIn, HoldsIn, UsableIn, Aside};
ghost use Rattle.passes.specs.Attempt.{pass_of, attempt_of};
ghost use Rattle.passes.specs.Again.{failure_of, finished};
ghost use Rattle.passes.specs.Run.{renewed, renewed_of};

use super::{Buffers, Circuit};
use behind::behind_number;
use convergence::convergence_check;
use groups::diodes::stamp_diodes;
use groups::{Pass, stamp_linear};
use loops::{cells, clear_if, copy};
use machine::accepts;
use numbers::verdict::DIODE_CURRENT;
use solve::solve;
use steps::{Counters, Job, Phase, Report};

// Stamps and solves one pass, and reports on it; where the options say so, "yes" waits for every diode. The parameters are those of `solve_pass`.
pub fn attempt(
    k: Circuit,
    c: Counters,
    again: bool,
    places: &[u8],
    accepted: &[f64],
    held: &mut [f64],
    w: &mut Buffers,
) -> Report
    requires sized { SizedIn w.old (length accepted.now) }
    requires usable { UsableIn (circuit_in k w.old) places.now again c accepted.now held.old w.old }
    ensures all { tried_in result w.new ≡ tried (attempt_of (circuit_in k.entry w.old)) k.entry.job c accepted.now (buffers_in w.old []) }
    ensures left { solved result ≡ true → HoldsIn (circuit_in k.entry w.old) c accepted.now held.new w.new }
    ensures kept { Kept w.new w.old × (w.new.base.now ≡ w.old.base.now) }
{
    let r = solve_pass(k, c, again, places, accepted, held, w);
    wait(k, w, r)
}

// The report on a pass that has left these buffers: where the options say so, "yes" is "no" while a diode is behind.
fn wait(k: Circuit, w: &Buffers, r: Report) -> Report
    ensures { result ≡ waited k.entry.job.options (behind_number k.entry.job.options k.entry.sheet.now w.now.vector.now w.now.memory.now) r }
{
    let o = k.job.options;
    if !accepts(r) | (o.catchup == 0) {
        return r;
    }
    if behind_number(o, k.sheet, w.vector, w.memory) == 0 {
        return r;
    }
    Report::No
}

// Stamps, solves and compares one pass. `again` says that the pass before was stamped alike; `places` lists the diodes; `held` holds what was stamped before them, or is
// empty in a circuit without any.
fn solve_pass(
    k: Circuit,
    c: Counters,
    again: bool,
    places: &[u8],
    accepted: &[f64],
    held: &mut [f64],
    w: &mut Buffers,
) -> Report
    requires sized { SizedIn w.old (length accepted.now) }
    requires usable { UsableIn (circuit_in k w.old) places.now again c accepted.now held.old w.old }
    ensures all { tried_in result w.new ≡ compared (attempt_of (circuit_in k.entry w.old)) k.entry.job c accepted.now (buffers_in w.old []) }
    ensures left { solved result ≡ true → HoldsIn (circuit_in k.entry w.old) c accepted.now held.new w.new }
    ensures kept { Kept w.new w.old × (w.new.base.now ≡ w.old.base.now) }
{
    if (held.len() == 0) & again {
        let vector = &mut *w.vector;
        return compare(k.job, vector);
    }
    let p = pass_of(k.job, w.vector.len(), c);
    let code = stamp_first(p, again, k, accepted, held, w);
    if code != 0 {
        return failure(code);
    }
    finish(k, c.first, places, w)
}

// The numbers of the pass to come: what of a run's job and counters its stamping reads.
pub fn pass_of(j: Job, order: usize, c: Counters) -> Pass
    ensures { result ≡ pass_of j order c }
{
    Pass {
        nodes: j.nodes,
        order: order,
        transient: c.phase != Phase::Dc,
        time: c.time,
        step: c.step,
        pattern_first: j.options.pattern_first != 0,
    }
}

// The report on a vector that is solved again: it is compared with itself.
fn compare(j: Job, vector: &[f64]) -> Report
    ensures { result ≡ report_of (convergence_of vector.now vector.now j.nodes j.options) }
{
    Report::from(convergence_check(vector, vector, j.nodes, j.options))
}

// The report on a pass that was not stamped whole.
fn failure(k: u8) -> Report
    ensures { result ≡ failure_of k }
{
    if k == DIODE_CURRENT {
        return Report::Diode;
    }
    Report::Sine
}

// What a pass has besides its diodes, stamped and held where there is room for it, or taken from where it is held.
fn stamp_first(
    p: Pass,
    again: bool,
    k: Circuit,
    accepted: &[f64],
    held: &mut [f64],
    w: &mut Buffers,
) -> u8
    requires elimination_len { length w.old.elimination.now ≡ length w.old.base.now }
    requires held_len { again ≡ true → (length held.old ≡ length w.old.base.now) × (linear_in p k accepted.now w.old ≡ driven_of 0 held.old) }
    ensures stamps { driven_of result w.new.elimination.now ≡ linear_in p k.entry accepted.now w.old }
    ensures holds { length held.old ≡ length w.old.base.now → result ≡ 0 → held.new ≡ w.new.elimination.now }
    ensures rest { Aside w.new w.old }
{
    if again {
        copy(held, w.elimination);
        return 0;
    }
    let base = w.base;
    let memory = &mut *w.memory;
    let elimination = &mut *w.elimination;
    let code = stamp_linear(p, k.sheet, k.points, base, accepted, memory, elimination);
    copy(elimination, held);
    code
}

// The diodes, and what follows once all is stamped.
fn finish(k: Circuit, first: bool, places: &[u8], w: &mut Buffers) -> Report
    requires square { Square (length w.old.vector.now) (length w.old.elimination.now) × (length w.old.system.now ≡ length w.old.elimination.now) }
    requires listed { Listed k.sheet.now (length places.now) places.now }
    ensures all { tried_in result w.new ≡ finished k.entry.job first k.entry.sheet.now w.old.elimination.now w.old.system.now w.old.vector.now w.old.memory.now }
    ensures kept { Kept w.new w.old × (w.new.base.now ≡ w.old.base.now) }
{
    let vector = &mut *w.vector;
    let n = vector.len();
    let memory = &mut *w.memory;
    let code = stamp_diodes(
        k.job.options,
        k.sheet,
        places,
        n,
        vector,
        memory,
        w.elimination,
    );
    if code != 0 {
        return failure(code);
    }
    let elimination = &mut *w.elimination;
    copy(elimination, w.system);
    renew(k.job, first, elimination, w.vector)
}

// Solves the elimination matrix, compares, and leaves the new vector.
fn renew(j: Job, first: bool, elimination: &mut [f64], vector: &mut [f64]) -> Report
    requires { Square (length vector.old) (length elimination.old) }
    ensures { renewed_of result vector.new ≡ renewed j first elimination.old vector.old }
{
    let n = vector.len();
    let mut x = cells();
    renew_in(j, first, elimination, &mut x[..n], vector)
}

// The same, with x to solve into.
fn renew_in(
    j: Job,
    first: bool,
    elimination: &mut [f64],
    x: &mut [f64],
    vector: &mut [f64],
) -> Report
    requires { Square (length vector.old) (length elimination.old) × (length x.old ≡ length vector.old) }
    ensures { renewed_of result vector.new ≡ renewed j first elimination.old vector.old }
{
    // Never refused: the sizes are a system's.
    let _ = solve(elimination, x, vector.len());
    clear_if(vector, first);
    let r = convergence_check(x, vector, j.nodes, j.options);
    copy(x, vector);
    Report::from(r)
}
