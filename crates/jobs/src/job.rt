// The numbers of a job, with their names.
use super::words;
use super::words::{Reading, float, word};
use options::Options;
use std::io::Read;
use std::num::wrapping_add_u64;

// The words of a job's head in form 1, and those that are known here.
const FORM_1: u8 = 30;

const KNOWN: u8 = 32;

#[derive(Clone, Copy)]
pub struct Head {
    pub bytes: u64, // of the job
    pub head: u64, // of its head
    pub transient: bool,
    pub nodes: u64,
    pub sources: u64,
    pub options: Options,
    pub sheet: u64, // bytes
    pub points: u64, // bytes
    pub base: u64, // floats lent, as in the five that follow
    pub system: u64,
    pub elimination: u64,
    pub vector: u64,
    pub memory: u64,
    pub rows: u64,
}

// The numbers of the next job; or the file ends inside its head, or the head is not one that is known here.
#[derive(Drop)]
pub enum NextJob {
    Whole(Head),
    Ends,
    Unknown,
}

// Reads the head of the next job in a file of this form.
pub fn next_job<R: Read>(from: &mut R, form: u64) -> NextJob {
    let mut head = words::head_room();
    let r = words::read_head(from, form, FORM_1, KNOWN, &mut head);
    match r {
        Reading::Whole => known(head_of(&head, form), word(&head, 2)),
        Reading::Ends => NextJob::Ends,
        Reading::Unknown => NextJob::Unknown,
    }
}

// A job that asks for this analysis: DC, a transient, or one that is not known here.
fn known(h: Head, analysis: u64) -> NextJob {
    if 1 < analysis {
        return NextJob::Unknown;
    }
    NextJob::Whole(h)
}

// The numbers of a job whose head was read from a file of this form.
fn head_of(head: &[u8], form: u64) -> Head {
    let options = options_of(head);
    Head {
        bytes: word(head, 0),
        head: words::bytes(head, form),
        transient: word(head, 2) == 1,
        nodes: word(head, 3),
        sources: word(head, 4),
        options,
        sheet: word(head, 22),
        points: word(head, 23),
        base: word(head, 24),
        system: word(head, 25),
        elimination: word(head, 26),
        vector: word(head, 27),
        memory: word(head, 28),
        rows: word(head, 29),
    }
}

// The options among the numbers of a job or of spreads.
pub fn options_of(head: &[u8]) -> Options {
    Options {
        reltol: float(head, 5),
        vntol: float(head, 6),
        abstol: float(head, 7),
        tstart: float(head, 8),
        tstop: float(head, 9),
        tstep: float(head, 10),
        fs: float(head, 11),
        ft: float(head, 12),
        rmin: float(head, 13),
        rmax: float(head, 14),
        gmin: float(head, 15),
        boltzmann: float(head, 16),
        charge: float(head, 17),
        itl1: word(head, 18),
        itl3: word(head, 19),
        itl4: word(head, 20),
        budget: word(head, 21),
        catchup: word(head, 30),
        pattern_first: word(head, 31),
    }
}

// The bytes of a job past its points: the judge's tolerances, a float for each row.
pub fn tolerances(h: Head) -> u64 {
    let used = used(h);
    if h.bytes < used {
        return 0;
    }
    h.bytes - used
}

// Whether a job's size has room for its parts, and is a multiple of 8.
pub fn is_sized(h: Head) -> bool {
    (used(h) <= h.bytes) & (h.bytes % 8 == 0)
}

// The bytes of the head, the sheet and the points.
fn used(h: Head) -> u64 {
    wrapping_add_u64(h.head, wrapping_add_u64(filled(h.sheet), filled(h.points)))
}

// The bytes of a part of n bytes that is filled up to a multiple of 8.
fn filled(n: u64) -> u64 {
    wrapping_add_u64(n, (8 - n % 8) % 8)
}
