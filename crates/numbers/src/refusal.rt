// The refusals of a call: why it does not run. Each has its number in the documents; a call that is not refused has 0 for a number.
ghost use Rattle.std.specs.Prelude.{◌≡◌};

use std::error::Error;
use std::fmt;

#[derive(Clone, Copy, Debug, PartialEq, Eq, Hash)]
pub enum Refusal {
    // no node, or N above the limit
    Order = 1,
    // the sheet's length
    Sheet = 2,
    // the points' length
    Points = 3,
    // iteration limits or the budget
    Counts = 4,
    // a lent buffer is too short
    Room = 5,
    // a record's kind
    Kind = 6,
    // a byte of a record that must be zero
    Unused = 7,
    // a record's node
    Node = 8,
    // a record's source number
    Source = 9,
    // a record's points
    Pattern = 10,
    // the judge: a number that is not finite, or a tolerance below zero
    Tolerance = 11,
    // the sine: its argument
    Argument = 12,
    // the spreads: the number of jobs, or the chosen unknown
    Jobs = 13,
}

impl Refusal {
    ghost use Rattle.numbers.specs.Refusals.{number_of};

    // The refusal's number.
    pub fn number(self) -> u8
        ensures { result ≡ number_of self }
    {
        self as u8
    }
}

impl fmt::Display for Refusal {
    fn fmt<W: fmt::Write>(&self, f: &mut fmt::Formatter<W>) -> fmt::Result {
        write!(f, "refused by {}", *self as u8)
    }
}

impl Error for Refusal {}

// No node, or N above the limit.
pub const ORDER: u8 = Refusal::Order as u8;

// The sheet's length.
pub const SHEET: u8 = Refusal::Sheet as u8;

// The points' length.
pub const POINTS: u8 = Refusal::Points as u8;

// Iteration limits or the budget.
pub const COUNTS: u8 = Refusal::Counts as u8;

// A lent buffer is too short.
pub const ROOM: u8 = Refusal::Room as u8;

// A record's kind.
pub const KIND: u8 = Refusal::Kind as u8;

// A byte of a record that must be zero.
pub const UNUSED: u8 = Refusal::Unused as u8;

// A record's node.
pub const NODE: u8 = Refusal::Node as u8;

// A record's source number.
pub const SOURCE: u8 = Refusal::Source as u8;

// A record's points.
pub const PATTERN: u8 = Refusal::Pattern as u8;

// The judge: a number that is not finite, or a tolerance below zero.
pub const TOLERANCE: u8 = Refusal::Tolerance as u8;

// The sine: its argument.
pub const ARGUMENT: u8 = Refusal::Argument as u8;

// The spreads: the number of jobs, or the chosen unknown.
pub const JOBS: u8 = Refusal::Jobs as u8;
