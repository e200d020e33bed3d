// The numbers of a stored answer.
use super::words;
use super::words::{Reading, word};
use std::io::Read;

// The words of an answer's head in form 1, which every head has, and those that are known here.
const FORM_1: u8 = 14;

const KNOWN: u8 = 15;

// What an answer has for a number that it does not tell, and that is not compared.
pub const NOT_TOLD: u64 = 18446744073709551615;

#[derive(Clone, Copy)]
pub struct Answer {
    pub refusal: u64,
    pub place: u64,
    pub verdict: u64,
    pub dc: u64,
    pub passes: u64,
    pub rows: u64,
    pub end: u64, // a float's bits
    pub base: u64, // floats that follow, as in the four below
    pub system: u64,
    pub vector: u64,
    pub memory: u64,
    pub row_floats: u64,
    pub floats: u64, // bytes of all of them
    pub behind: u64, // 0, or 1 and the place of the first diode that is behind
}

// The numbers of the next answer, if it has them and no other.
#[derive(Drop)]
pub enum NextAnswer {
    Whole(Answer),
    Unreadable,
}

// Reads the head of the next answer in a file of this form. A word that is not known here would not be compared, so that no head may have one, be it 0.
pub fn next_answer<R: Read>(from: &mut R, form: u64) -> NextAnswer {
    let mut head = words::head_room();
    let r = words::read_head(from, form, FORM_1, KNOWN, &mut head);
    let Reading::Whole = r else {
        return NextAnswer::Unreadable;
    };
    let n = word(&head, 1);
    if (n < FORM_1 as u64) | ((KNOWN as u64) < n) {
        return NextAnswer::Unreadable;
    }
    let all = word(&head, 0);
    let size = words::bytes(&head, form);
    if all < size {
        return NextAnswer::Unreadable;
    }
    NextAnswer::Whole(answer_of(&head, all - size))
}

// The numbers of an answer with this head and so many bytes of floats behind it.
fn answer_of(head: &[u8], floats: u64) -> Answer {
    Answer {
        refusal: word(head, 2),
        place: word(head, 3),
        verdict: word(head, 4),
        dc: word(head, 5),
        passes: word(head, 6),
        rows: word(head, 7),
        end: word(head, 8),
        base: word(head, 9),
        system: word(head, 10),
        vector: word(head, 11),
        memory: word(head, 12),
        row_floats: word(head, 13),
        floats,
        behind: words::word_or(head, 14, NOT_TOLD),
    }
}
