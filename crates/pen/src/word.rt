// The plain words of refusals, verdicts and causes, and the name of an unknown.
ghost use Rattle.std.specs.Prelude.{◌≡◌};
ghost use Rattle.pen.specs.Words.{is_refusal, RefusalOf, VerdictOf};

use numbers::refusal::Refusal;
use numbers::verdict::Verdict;
use numbers::{cause, refusal, verdict};
use std::fmt;
use std::fmt::{Display, Formatter, Write};

// An unknown by its name: a node's voltage, or a source's current.
#[derive(Clone, Copy, Debug, PartialEq, Eq)]
pub enum Unknown {
    Node(u64),
    Source(u64),
}

impl Unknown {
    ghost use Rattle.pen.specs.Words.{which_of};

    // Place k of a vector: the nodes stand first.
    pub fn at(k: u64, nodes: u64) -> Unknown
        ensures { result ≡ which_of k nodes }
    {
        if k < nodes {
            return Unknown::Node(k);
        }
        Unknown::Source(k - nodes)
    }

    // What it is of, and which of these it is.
    pub fn parts(self) -> (&'static str, u64) {
        match self {
            Unknown::Node(i) => ("node", i),
            Unknown::Source(i) => ("source", i),
        }
    }
}

impl Display for Unknown {
    fn fmt<W: Write>(&self, f: &mut Formatter<W>) -> fmt::Result {
        let (of, i) = self.parts();
        write!(f, "{of} {i}")
    }
}

// What a number means.
pub fn number_words(k: u8) -> &'static str {
    if is_refusal(k) {
        return refusal_of(k).map_or("no such refusal", |r| refusal_words(r));
    }
    verdict_words(k, false)
}

// What a refusal of a whole call of spreads means: of the sheet it is said of all its sheets.
pub fn call_words(k: u8) -> &'static str {
    if k == Refusal::Sheet.number() {
        return "sheets not of one length, not whole records, or too many records";
    }
    number_words(k)
}

// What the cause of a job means: one that has none is sound, and a cause that is no number of the run is the judge's or a diode's.
pub fn cause_words(k: u8) -> &'static str {
    match k {
        0 => "sound",
        cause::BEHIND => "a diode is behind",
        cause::REJECTED => "the judge rejects its vector",
        _ => number_words(k),
    }
}

// Whether a number is a refusal's: 0 and those from 20 on are verdicts.
pub fn is_refusal(k: u8) -> bool
    ensures { result ≡ is_refusal k }
{
    (Verdict::Settled.number() < k) & (k < Verdict::PassesUsed.number())
}

// What the number of a run's verdict means: with 0 a transient reached its end, and DC settled.
pub fn verdict_words(k: u8, transient: bool) -> &'static str {
    verdict_of(k).map_or("no such verdict", |v| ending_words(v, transient))
}

// The refusal that has a number, if one has it.
fn refusal_of(k: u8) -> Option<Refusal>
    ensures { RefusalOf k result }
{
    match k {
        refusal::ORDER => Some(Refusal::Order),
        refusal::SHEET => Some(Refusal::Sheet),
        refusal::POINTS => Some(Refusal::Points),
        refusal::COUNTS => Some(Refusal::Counts),
        refusal::ROOM => Some(Refusal::Room),
        refusal::KIND => Some(Refusal::Kind),
        refusal::UNUSED => Some(Refusal::Unused),
        refusal::NODE => Some(Refusal::Node),
        refusal::SOURCE => Some(Refusal::Source),
        refusal::PATTERN => Some(Refusal::Pattern),
        refusal::TOLERANCE => Some(Refusal::Tolerance),
        refusal::ARGUMENT => Some(Refusal::Argument),
        refusal::JOBS => Some(Refusal::Jobs),
        _ => None,
    }
}

// The verdict that has a number, if one has it.
fn verdict_of(k: u8) -> Option<Verdict>
    ensures { VerdictOf k result }
{
    match k {
        verdict::SETTLED => Some(Verdict::Settled),
        verdict::PASSES_USED => Some(Verdict::PassesUsed),
        verdict::DIVERGED => Some(Verdict::Diverged),
        verdict::DIODE_CURRENT => Some(Verdict::DiodeCurrent),
        verdict::STEP_TOO_SMALL => Some(Verdict::StepTooSmall),
        verdict::BUDGET_SPENT => Some(Verdict::BudgetSpent),
        verdict::NO_ROOM => Some(Verdict::NoRoom),
        verdict::SINE_REFUSED => Some(Verdict::SineRefused),
        _ => None,
    }
}

// The words of a verdict, of DC or of a transient.
fn ending_words(v: Verdict, transient: bool) -> &'static str {
    match v {
        Verdict::Settled if transient => "reached its end",
        Verdict::Settled => "settled",
        Verdict::PassesUsed => "DC passes used up",
        Verdict::Diverged => "convergence error",
        Verdict::DiodeCurrent => "diode current not finite",
        Verdict::StepTooSmall => "step too small",
        Verdict::BudgetSpent => "budget spent",
        Verdict::NoRoom => "no room for the next row",
        Verdict::SineRefused => "sine refused",
    }
}

fn refusal_words(r: Refusal) -> &'static str {
    match r {
        Refusal::Order => "no node, or more than 48 unknowns",
        Refusal::Sheet => "sheet not whole records, or too many",
        Refusal::Points => "points not whole, or too many",
        Refusal::Counts => "a limit or the budget out of range",
        Refusal::Room => "a lent buffer too short",
        Refusal::Kind => "kind not 1 to 11",
        Refusal::Unused => "an unused byte not zero",
        Refusal::Node => "node not below the node count",
        Refusal::Source => "source number not below the source count, or shared with an inductor",
        Refusal::Pattern => "points beyond those given",
        Refusal::Tolerance => "a number not finite, or a tolerance below zero",
        // the sine's: it refuses no job
        Refusal::Argument => "no such refusal",
        Refusal::Jobs => "no job, more than 256, or no such unknown",
    }
}
