// The verdicts of a run: how it ends. Each has its number in the documents.
ghost use Rattle.std.specs.Prelude.{◌≡◌};

use std::fmt;

#[derive(Clone, Copy, Debug, PartialEq, Eq, Hash)]
pub enum Verdict {
    // the run settled; in a transient: it came to its end
    Settled = 0,
    // DC passes used up
    PassesUsed = 20,
    // convergence error
    Diverged = 21,
    // a diode's current is not finite
    DiodeCurrent = 22,
    // step too small
    StepTooSmall = 23,
    // budget spent
    BudgetSpent = 24,
    // no room for the next row
    NoRoom = 25,
    // a sine source was refused
    SineRefused = 26,
}

impl Verdict {
    ghost use Rattle.numbers.specs.Verdicts.{number_of};

    // The verdict's number.
    pub fn number(self) -> u8
        ensures { result ≡ number_of self }
    {
        self as u8
    }
}

impl fmt::Display for Verdict {
    fn fmt<W: fmt::Write>(&self, f: &mut fmt::Formatter<W>) -> fmt::Result {
        write!(f, "verdict {}", *self as u8)
    }
}

// The run settled; in a transient: it came to its end.
pub const SETTLED: u8 = Verdict::Settled as u8;

// DC passes used up.
pub const PASSES_USED: u8 = Verdict::PassesUsed as u8;

// Convergence error.
pub const DIVERGED: u8 = Verdict::Diverged as u8;

// A diode's current is not finite.
pub const DIODE_CURRENT: u8 = Verdict::DiodeCurrent as u8;

// Step too small.
pub const STEP_TOO_SMALL: u8 = Verdict::StepTooSmall as u8;

// Budget spent.
pub const BUDGET_SPENT: u8 = Verdict::BudgetSpent as u8;

// No room for the next row.
pub const NO_ROOM: u8 = Verdict::NoRoom as u8;

// A sine source was refused.
pub const SINE_REFUSED: u8 = Verdict::SineRefused as u8;
