// The numbers of a stored report of spreads: what the call lent, what it answered, and how much stands in each buffer.
use super::words;
use super::words::{Reading, word};
use std::io::Read;

// The words of a report's head in form 1, which every head has, and those that are known here.
const FORM_1: u8 = 28;

const KNOWN: u8 = 28;

// The lengths that a call of spreads lends.
#[derive(Clone, Copy)]
pub struct Lengths {
    pub base: u64, // floats, as in the four that follow
    pub system: u64,
    pub elimination: u64,
    pub memory: u64,
    pub vectors: u64,
    pub numbers: u64, // words, as in the five that follow
    pub places: u64,
    pub passes: u64,
    pub counts: u64,
    pub plus: u64,
    pub minus: u64,
}

#[derive(Clone, Copy)]
pub struct SpreadsReport {
    pub lent: Lengths,
    pub refusal: u64,
    pub settled: u64,
    pub smallest: u64, // a float's bits
    pub largest: u64, // a float's bits
    pub smallest_at: u64,
    pub largest_at: u64,
    pub matrix: u64, // floats of each matrix that are scratch
    pub memory: u64, // floats of the memory that are scratch
    pub vectors: u64, // floats that follow
    pub numbers: u64, // words that follow, as in the five below
    pub places: u64,
    pub passes: u64,
    pub counts: u64,
    pub plus: u64,
    pub minus: u64,
    pub bytes: u64, // of all that follows
}

// The numbers of the next report, if it has them and no other.
#[derive(Drop)]
pub enum NextReport {
    Whole(SpreadsReport),
    Unreadable,
}

// Reads the head of the next report in a file of this form. As in an answer, no head may have a word that would not be compared.
pub fn next_report<R: Read>(from: &mut R, form: u64) -> NextReport {
    let mut head = words::head_room();
    let r = words::read_head(from, form, FORM_1, KNOWN, &mut head);
    let Reading::Whole = r else {
        return NextReport::Unreadable;
    };
    let n = word(&head, 1);
    let all = word(&head, 0);
    let size = words::bytes(&head, form);
    if (n != KNOWN as u64) | (all < size) {
        return NextReport::Unreadable;
    }
    NextReport::Whole(report_of(&head, std::num::wrapping_sub_u64(all, size)))
}

// The lengths of a report with this head.
fn lengths_of(head: &[u8]) -> Lengths {
    Lengths {
        base: word(head, 2),
        system: word(head, 3),
        elimination: word(head, 4),
        memory: word(head, 5),
        vectors: word(head, 6),
        numbers: word(head, 7),
        places: word(head, 8),
        passes: word(head, 9),
        counts: word(head, 10),
        plus: word(head, 11),
        minus: word(head, 12),
    }
}

// The numbers of a report with this head and so many bytes behind it.
fn report_of(head: &[u8], bytes: u64) -> SpreadsReport {
    let lent = lengths_of(head);
    SpreadsReport {
        lent,
        refusal: word(head, 13),
        settled: word(head, 14),
        smallest: word(head, 15),
        largest: word(head, 16),
        smallest_at: word(head, 17),
        largest_at: word(head, 18),
        matrix: word(head, 19),
        memory: word(head, 20),
        vectors: word(head, 21),
        numbers: word(head, 22),
        places: word(head, 23),
        passes: word(head, 24),
        counts: word(head, 25),
        plus: word(head, 26),
        minus: word(head, 27),
        bytes,
    }
}
