// Files of jobs, of answers, of spreads and of calls of spreads with their reports (docs/FORMATS.md), for every program that runs them: reads their heads into values with names, reads the parts behind a head,
// and runs a job in lent rooms. Both forms of a head are read to one layout, so that nobody behind it asks for the form. A new word of a head gets its name here.
#![tactic(auto)]

mod answer; // answer.rt: the numbers of a stored answer
mod file; // file.rt: a file's first words, which say its form
mod job; // job.rt: the numbers of a job
mod lent; // lent.rt: what a lent buffer holds before a call, and whether it holds what it must after it
mod parts; // parts.rt: the bytes behind a head
mod report; // report.rt: the numbers of a stored report of spreads
mod room; // room.rt: the room that parts and buffers are lent
mod runs; // runs.rt: a job, run by its numbers
mod spread; // spread.rt: the numbers of a file of spreads
mod words; // words.rt: the words of a head, of either form

pub use answer::{Answer, NOT_TOLD, NextAnswer, next_answer};
pub use file::{File, JobsFile, answers_file, calls_file, is_over, jobs_file};
pub use job::{Head, NextJob, is_sized, next_job, tolerances};
pub use lent::{after, holds, kept, lend, lend_words, same, words_hold};
pub use parts::{part, within, within_words};
pub use report::{Lengths, NextReport, SpreadsReport, next_report};
pub use room::{
    MATRIX, MEMORY, Rooms, VECTOR, matrix, memory_room, points_room, sheet_room, tolerance_room,
    vector_room, zero_rooms,
};
pub use runs::{Run, run_job};
pub use spread::{Spreads, SpreadsFile, spreads_file};
