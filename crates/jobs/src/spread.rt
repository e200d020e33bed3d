// The numbers of a file of spreads, with their names.
use super::job::options_of;
use super::words::{Reading, word};
use super::{file, words};
use options::Options;
use std::io::Read;

// The words of the head in form 1, and those that are known here.
const FORM_1: u8 = 25;

const KNOWN: u8 = 32;

#[derive(Clone, Copy)]
pub struct Spreads {
    pub jobs: u64,
    pub nodes: u64,
    pub sources: u64,
    pub options: Options,
    pub sheets: u64, // bytes of all together
    pub points: u64, // bytes
    pub unknown: u64,
    pub tolerances: u64, // floats behind the points
}

// The numbers of a file of spreads; or it is empty or no file of spreads, ends inside its head, or has a head that is not known here.
#[derive(Drop)]
pub enum SpreadsFile {
    Whole(Spreads),
    Empty,
    Other,
    Ends,
    Unknown,
}

// Reads the head of a file of spreads.
pub fn spreads_file<R: Read>(from: &mut R) -> SpreadsFile {
    let mut head = words::head_room();
    if words::read_first(from, &mut head) == 0 {
        return SpreadsFile::Empty;
    }
    let form = file::form_of(word(&head, 0), file::SPREADS);
    if form == 0 {
        return SpreadsFile::Other;
    }
    let r = words::read_rest(from, form, FORM_1, KNOWN, &mut head);
    match r {
        Reading::Whole => known(&head),
        Reading::Ends => SpreadsFile::Ends,
        Reading::Unknown => SpreadsFile::Unknown,
    }
}

// The numbers of a file with this head; what a job has in its words 26 to 29 a file of spreads has not, so that they must be 0.
fn known(head: &[u8]) -> SpreadsFile {
    if (word(head, 26) | word(head, 27) | word(head, 28) | word(head, 29)) != 0 {
        return SpreadsFile::Unknown;
    }
    SpreadsFile::Whole(spreads_of(head))
}

// The numbers of the file whose head was read.
fn spreads_of(head: &[u8]) -> Spreads {
    let options = options_of(head);
    Spreads {
        jobs: word(head, 2),
        nodes: word(head, 3),
        sources: word(head, 4),
        options,
        sheets: word(head, 22),
        points: word(head, 23),
        unknown: word(head, 24),
        tolerances: word(head, 25),
    }
}
