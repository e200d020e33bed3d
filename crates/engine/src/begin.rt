// The buffers as a run begins, over a base matrix that is stamped: zeros for the vectors and the system, and the memory of each diode and inductor at 0.0.
ghost use Rattle.std.specs.Prelude.{◌≡◌, [], ◌<◌, length};
ghost use Rattle.loops.specs.Loop.{zeros_like};
ghost use Rattle.steps.specs.Counters.{started};
ghost use Rattle.machine.specs.State.{buffers_of, state_of};
ghost use Rattle.passes.specs.Lent.{buffers_in, Kept};
ghost use Rattle.engine.specs.Begin.{forgotten, forget_at};

use numbers::kind::{DIODE, INDUCTOR};
use passes::{Buffers, Circuit};

// Makes every buffer but the base what it is before the first pass.
pub fn begin(k: Circuit, accepted: &mut [f64], w: &mut Buffers)
    ensures all { state_of started accepted.new (buffers_in w.new [])
        ≡ state_of started (zeros_like accepted.old) (buffers_of w.old.base.now
        (zeros_like w.old.system.now) (zeros_like w.old.vector.now) (forgotten k.entry.sheet.now w.old.memory.now) []) }
    ensures kept { Kept w.new w.old }
{
    accepted.fill(0.0);
    w.system.fill(0.0);
    w.vector.fill(0.0);
    forget(k.sheet, w.memory);
}

// Puts the memory of every diode and inductor to 0.0; other records' floats stay.
fn forget(sheet: &[u8], memory: &mut [f64])
    ensures { memory.new ≡ forgotten sheet.now memory.old }
{
    for i in 0..memory.len() {
        forget_at(sheet, i, memory);
    }
}

// Puts the float of record i to 0.0 where that is a diode or an inductor.
fn forget_at(sheet: &[u8], i: usize, memory: &mut [f64])
    requires { i < length memory.old }
    ensures { memory.new ≡ forget_at sheet.now i memory.old }
{
    let kind = sheet::kind_at(sheet, i);
    if (kind == DIODE) | (kind == INDUCTOR) {
        memory[i] = 0.0;
    }
}
