// The program and its shell: what an argument is, what all arguments together ask for, what is seen of a run, and the status that the shell is answered (docs/FORMATS.md).
// Nothing here reads or writes, so that each decision has its definition in specs/.
#![tactic(auto)]

mod asked; // asked.rt: all arguments together
mod seen; // seen.rt: what is seen of the runs, and the status
mod word; // word.rt: an argument by itself

pub use asked::{Asked, Fault};
pub use seen::Seen;
pub use word::{Word, digit};
