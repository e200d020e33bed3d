// What a run answers: a refusal with its place, or how its counters read when no more passes are given.
ghost use Rattle.std.specs.Prelude.{◌≡◌, Err};
ghost use Rattle.engine.specs.Engine.{ending_of, refused_of};

use super::work::Handed;
use super::{Ending, Outcome};
use sheet::Fault;

// The answer of a run that ended, or whose budget did.
pub fn ended(h: Handed) -> Outcome
    ensures { result ≡ ending_of h.counters h.behind }
{
    let c = h.counters;
    Outcome::Ended(Ending {
        verdict: c.verdict(),
        dc: c.dc_verdict(),
        passes: c.passes,
        rows: c.rows,
        end: c.time,
        behind: h.behind,
    })
}

// The answer of a refused call.
pub fn refused(f: Fault) -> Outcome
    ensures { result ≡ refused_of (Err f) }
{
    Outcome::Refused(f.refusal.number(), f.place)
}
