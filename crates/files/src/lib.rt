// A file of jobs or of spreads: read, run and reported with a pen, and what was seen of it kept for the status (docs/FORMATS.md).
#![tactic(auto)]

mod clock; // clock.rt: whether it is time to say how far a file is
mod going; // going.rt: what a call carries from run to run
mod job; // job.rt: a file of jobs
mod spread; // spread.rt: a file of spreads
mod volts; // volts.rt: the two voltages of a diode that is behind

pub use going::Going;
pub use job::run_file as run_jobs;
pub use spread::run_file as run_spreads;
