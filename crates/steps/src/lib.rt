// The control of a run, on its counters alone: what the report of a pass makes of them, in DC (the Rust's `dc_solve`) and in a transient
// (`transient_analysis`). No buffer is seen here. Every function is total: a count that stands at the top of its type stays there.
#![tactic(auto)]

ghost use Rattle.std.specs.Prelude.{◌≡◌};
ghost use Rattle.steps.specs.Control.{doubled as doubled_of, row_due as row_due_of};

use convergence::Convergence;
use numbers::verdict::Verdict;
use options::Options;

// The phases of a run.
#[derive(Clone, Copy, Debug, PartialEq, Eq)]
pub enum Phase {
    Dc,
    Transient,
    Ended,
}

// What a run is asked for, and no pass changes: the options, the node count, and whether a transient follows DC.
#[derive(Clone, Copy)]
pub struct Job {
    pub options: Options,
    pub nodes: usize,
    pub transient: bool,
}

// All that a run carries from pass to pass besides its buffers.
#[derive(Clone, Copy)]
pub struct Counters {
    pub phase: Phase,
    // how the run ended, once it has; until then it is no matter
    pub verdict: Verdict,
    // how DC ended, once it is over; until then it is no matter
    pub dc: Verdict,
    // the next pass compares with zeros: it is the first of DC or of its step
    pub first: bool,
    // this step was cut
    pub cut: bool,
    // passes of DC, or of this step since it began or was cut
    pub count: u64,
    // rows written
    pub rows: u64,
    // passes solved to the end
    pub passes: u64,
    pub time: f64,
    pub step: f64,
}

// What became of a pass: solved, with what the convergence check says of it; or not solved, for a diode or a sine.
#[derive(Clone, Copy, Debug, PartialEq, Eq)]
pub enum Report {
    Yes,
    No,
    Error,
    Diode,
    Sine,
}

// The report of a solved pass, from its convergence check.
impl From<Convergence> for Report {
    ghost use Rattle.steps.specs.Control.{report_of};

    ghost from_gives = { λ check report. report ≡ report_of check };

    fn from(check: Convergence) -> Report {
        match check {
            Convergence::Yes => Report::Yes,
            Convergence::No => Report::No,
            Convergence::Error | Convergence::Refused => Report::Error,
        }
    }
}

impl Report {
    ghost use Rattle.steps.specs.Control.{solved as solved_of};

    // Whether the pass was solved.
    pub fn solved(self) -> bool
        ensures { result ≡ solved_of self }
    {
        !matches!(self, Report::Diode | Report::Sine)
    }
}

#[tactic(auto, unfolding(crate::specs::Control::dc_over, crate::specs::Control::dc_after, crate::specs::Control::moved, crate::specs::Control::eased, crate::specs::Control::shortened, crate::specs::Control::step_after))]
impl Job {
    ghost use Rattle.steps.specs.Control.{dc_over as dc_over_of, dc_after as dc_after_of, moved as moved_of, eased as eased_of, shortened as shortened_of, step_after as step_after_of};

    // The counters after a pass of DC, of a transient or of a DC run.
    pub fn dc_after(self, r: Report, c: Counters) -> Counters
        ensures { result ≡ dc_after_of self.options self.transient r c }
    {
        match r {
            Report::Yes => self.dc_over(Verdict::Settled, c.counted()),
            Report::No => {
                let d = c.counted();
                if self.options.itl1 < d.count {
                    return self.dc_over(Verdict::PassesUsed, d);
                }
                d
            }
            Report::Error => self.dc_over(Verdict::Diverged, c.counted()),
            Report::Diode => c.failed(Verdict::DiodeCurrent),
            Report::Sine => c.failed(Verdict::SineRefused),
        }
    }

    // The counters after a pass of a transient's step.
    pub fn step_after(self, r: Report, c: Counters) -> Counters
        ensures { result ≡ step_after_of self.options r c }
    {
        match r {
            Report::Yes => self.moved(self.eased(c.counted())).anew(),
            Report::No => {
                let d = c.counted();
                if self.options.itl4 <= d.count {
                    return self.shortened(d);
                }
                d
            }
            Report::Error => self.moved(c.counted()).ended(Verdict::Diverged),
            Report::Diode => c.ended(Verdict::DiodeCurrent),
            Report::Sine => c.ended(Verdict::SineRefused),
        }
    }

    // DC is over with the verdict v, and a transient goes on.
    fn dc_over(self, v: Verdict, c: Counters) -> Counters
        ensures { result ≡ dc_over_of self.options self.transient v c }
    {
        if !self.transient {
            return c.failed(v);
        }
        let o = self.options;
        Counters {
            phase: Phase::Transient,
            dc: v,
            time: 0.0,
            step: o.tstep * o.fs,
            ..c
        }
        .anew()
    }

    // Time moves by the step; past TSTOP it becomes TSTOP and is the last.
    fn moved(self, c: Counters) -> Counters
        ensures { result ≡ moved_of self.options c }
    {
        let time = c.time + c.step;
        let stop = self.options.tstop;
        if stop < time {
            return Counters { time: stop, ..c }.ended(Verdict::Settled);
        }
        Counters { time, ..c }
    }

    // After easy convergence the step is doubled.
    fn eased(self, c: Counters) -> Counters
        ensures { result ≡ eased_of self.options c }
    {
        if c.cut || self.options.itl3 <= c.count {
            return c;
        }
        Counters {
            step: doubled(self.options, c.step),
            ..c
        }
    }

    // The step is cut, or found too small.
    fn shortened(self, c: Counters) -> Counters
        ensures { result ≡ shortened_of self.options c }
    {
        let o = self.options;
        let step = c.step * o.ft;
        if step < o.tstep * o.rmin {
            return self
                .moved(Counters { step, ..c })
                .ended(Verdict::StepTooSmall);
        }
        Counters {
            step,
            cut: true,
            count: 0,
            ..c
        }
    }
}

// Twice the step, at most TSTEP * RMAX.
// kept: `min` takes the other number where one is a NaN; here a NaN is taken as the comparison has it, and the bits of every answer rest on that
fn doubled(o: Options, step: f64) -> f64
    ensures { result ≡ doubled_of o step }
{
    let d = step * 2.0;
    let most = o.tstep * o.rmax;
    if most < d { most } else { d }
}

// Whether a time gets a row.
pub fn row_due(o: Options, time: f64) -> bool
    ensures { result ≡ row_due_of o time }
{
    o.tstart <= time && time != 0.0
}

#[tactic(auto, unfolding(crate::specs::Counters::next, crate::specs::Counters::verdict_of, crate::specs::Counters::dc_verdict_of))]
impl Counters {
    ghost use Rattle.steps.specs.Counters.{started as started_of, counted as counted_of, ended as ended_of, anew as anew_of, written as written_of, going as going_of, verdict_of, dc_verdict_of};
    ghost use Rattle.steps.specs.Control.{failed as failed_of};

    // The counters of a run that is to begin.
    pub const fn started() -> Self
        ensures { result ≡ started_of }
    {
        Counters {
            phase: Phase::Dc,
            verdict: Verdict::Settled,
            dc: Verdict::Settled,
            first: true,
            cut: false,
            count: 0,
            rows: 0,
            passes: 0,
            time: 0.0,
            step: 0.0,
        }
    }

    // Whether the run wants another pass.
    pub fn going(self) -> bool
        ensures { result ≡ going_of self }
    {
        self.phase != Phase::Ended
    }

    // The run's verdict when no more passes are given: still going is 24.
    pub fn verdict(self) -> Verdict
        ensures { result ≡ verdict_of self }
    {
        if self.going() {
            Verdict::BudgetSpent
        } else {
            self.verdict
        }
    }

    // DC's verdict when no more passes are given.
    pub fn dc_verdict(self) -> Verdict
        ensures { result ≡ dc_verdict_of self }
    {
        if self.phase == Phase::Dc {
            Verdict::BudgetSpent
        } else {
            self.dc
        }
    }

    // One row more is written.
    pub fn written(self) -> Self
        ensures { result ≡ written_of self }
    {
        Counters {
            rows: self.rows.saturating_add(1),
            ..self
        }
    }

    // The run has ended with the verdict v.
    pub fn ended(self, v: Verdict) -> Self
        ensures { result ≡ ended_of v self }
    {
        Counters {
            phase: Phase::Ended,
            verdict: v,
            ..self
        }
    }

    // DC ends with v, and so does the run.
    fn failed(self, v: Verdict) -> Self
        ensures { result ≡ failed_of v self }
    {
        Counters { dc: v, ..self }.ended(v)
    }

    // One pass more is solved.
    fn counted(self) -> Self
        ensures { result ≡ counted_of self }
    {
        Counters {
            first: false,
            count: self.count.saturating_add(1),
            passes: self.passes.saturating_add(1),
            ..self
        }
    }

    // A step begins.
    fn anew(self) -> Self
        ensures { result ≡ anew_of self }
    {
        Counters {
            first: true,
            cut: false,
            count: 0,
            ..self
        }
    }
}
