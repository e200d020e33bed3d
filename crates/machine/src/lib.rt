// The run as a machine of passes: its definition and its laws are in specs/. The code here writes the rows, takes the accepted vector and says where a vector is taken; stamping, solving and the passes are in `passes`.
// Every function here is total.
#![tactic(auto, unfolding(crate::specs::Machine::landed, crate::specs::Machine::takes, crate::specs::Machine::accepted_by))]

ghost use Rattle.std.specs.Prelude.{◌≡◌};
ghost use Rattle.machine.specs.State.{written_of};
ghost use Rattle.machine.specs.Machine.{written_by, landed as landed_of, accepts as accepts_of, takes as takes_of, accepted_by};

use loops::{copy, put_row};
use numbers::verdict::Verdict;
use options::Options;
use steps::{Counters, Job, Phase, Report, row_due};

// Writes the next row, the counters' time and then the vector; without room for it the run has ended with 25.
pub fn write(c: Counters, vector: &[f64], rows: &mut [f64]) -> Counters
    ensures { written_of result rows.new ≡ written_by c vector.now rows.old }
{
    let w = vector.len() + 1;
    let k = c.rows as usize;
    if k < rows.len() / w {
        put_row(rows, k * w, c.time, vector);
        return c.written();
    }
    c.ended(Verdict::NoRoom)
}

// Writes the next row if the counters' time gets one.
pub fn landed(o: Options, c: Counters, vector: &[f64], rows: &mut [f64]) -> Counters
    ensures { written_of result rows.new ≡ landed_of o c vector.now rows.old }
{
    if row_due(o, c.time) {
        return write(c, vector, rows);
    }
    c
}

// Whether a step with this report is accepted.
pub fn accepts(r: Report) -> bool
    ensures { result ≡ accepts_of r }
{
    matches!(r, Report::Yes)
}

// Whether the vector of a pass is taken, so that each inductor takes its new current: DC's where DC is over by a solved pass, a step's where it is accepted.
pub fn takes(j: Job, c: Counters, r: Report) -> bool
    ensures { result ≡ takes_of j c r }
{
    if c.phase == Phase::Dc {
        return r.solved() && j.dc_after(r, c).phase != Phase::Dc;
    }
    accepts(r)
}

// The vector of an accepted step becomes the accepted one. DC accepts none, so that capacitors start from zeros.
pub fn accept(report: Report, c: Counters, accepted: &mut [f64], vector: &[f64])
    ensures { accepted.new ≡ accepted_by report c accepted.old vector.now }
{
    if c.phase != Phase::Dc && accepts(report) {
        copy(vector, accepted);
    }
}
