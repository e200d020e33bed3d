// How the program writes: a pen that knows the form and whether all was written, floats, the words of refusals, verdicts and causes, and the fields of a record in each form (docs/FORMATS.md).
// What is decided on the way has its definitions in specs/; what only writes has none, and is compared with stored output.
#![tactic(auto)]

mod ink; // ink.rt: the pen: the form, what is written about, and whether all was written
mod number; // number.rt: floats in decimal that reads back, and as bits
mod record; // record.rt: a record's fields in each form
mod word; // word.rt: the words of refusals, verdicts and causes

pub use ink::{Form, Pen};
pub use number::Number;
pub use record::{float_in, word_in};
pub use word::{Unknown, call_words, cause_words, is_refusal, number_words, verdict_words};
