// What the program writes: a sheet for a person, or records for a machine, as lines of fields apart by tabs or as JSON (docs/FORMATS.md).
// What is decided on the way, as the sum of the counts and which lines there are, has its definitions in specs/; what only writes has none, and is compared with stored output.
#![tactic(auto)]

mod call; // call.rt: a whole call, its files and its faults
mod cause; // cause.rt: which spreads are sound, and the values over them
mod job; // job.rt: a single job
mod spread; // spread.rt: all spreads of a call, job by job
mod switch; // switch.rt: the options that are on or off

pub use call::{call_begun, call_ended, fault, faulted, file_begun, file_fault, sentence};
pub use cause::{Values, is_unsound, not_sound, not_sound_line, range};
pub use job::{JobHead, Volts, behind, ended, heading, judged, refused, rows, vector};
pub use spread::{Lists, Run, Spreads, asked, call_refused, counts, runs, unsettled};
pub use switch::Switches;
