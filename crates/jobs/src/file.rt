// A file's first words: its name with the form's digit, and the number of jobs.
use super::parts::{file_room, one_byte};
use num::u64_at;
use std::io::Read;
use std::num::wrapping_sub_u64;

// "SAVJOBS", "SAVANSW", "SAVSPRD" and "SAVCALL" as little-endian words; the eighth byte is the form's digit.
const JOBS: u64 = 0x0053_424f_4a56_4153;

const ANSWERS: u64 = 0x0057_534e_4156_4153;

pub const SPREADS: u64 = 0x0044_5250_5356_4153;

const CALLS: u64 = 0x004c_4c41_4356_4153;

// The digits 1 and 2 as the eighth byte of a word.
const ONE: u64 = 0x3100_0000_0000_0000;

const TWO: u64 = 0x3200_0000_0000_0000;

// The form of a file, 1 or 2, and its number of jobs. A file of another kind has form 0 and no jobs.
#[derive(Drop)]
pub struct File {
    pub form: u64,
    pub jobs: u64,
}

// The first words of a file of jobs; or it is empty, no file of jobs, or ends inside these words.
#[derive(Drop)]
pub enum JobsFile {
    Whole(File),
    Empty,
    Other,
    Ends,
}

// Reads the first words of a file of jobs.
pub fn jobs_file<R: Read>(from: &mut R) -> JobsFile {
    let mut b = file_room();
    let n = reading::read_full(from, &mut b);
    let form = form_of(u64_at(&b, 0), JOBS);
    if n == 0 {
        return JobsFile::Empty;
    }
    if form == 0 {
        return JobsFile::Other;
    }
    if n < 32 {
        return JobsFile::Ends;
    }
    JobsFile::Whole(File {
        form,
        jobs: u64_at(&b, 8),
    })
}

// Whether the file has no byte more. One that cannot be read may have some.
pub fn is_over<R: Read>(from: &mut R) -> bool {
    let mut more = one_byte();
    match from.read(&mut more) {
        Ok(n) => n == 0,
        Err(_) => false,
    }
}

// The first words of a file of jobs and answers.
pub fn answers_file<R: Read>(from: &mut R) -> File {
    file_named(from, ANSWERS)
}

// The first words of a file of calls of spreads and their reports; its number of jobs is that of the calls.
pub fn calls_file<R: Read>(from: &mut R) -> File {
    file_named(from, CALLS)
}

fn file_named<R: Read>(from: &mut R, name: u64) -> File {
    let mut b = file_room();
    let n = reading::read_full(from, &mut b);
    let form = form_of(u64_at(&b, 0), name);
    if (n < 32) | (form == 0) {
        return File { form: 0, jobs: 0 };
    }
    File {
        form,
        jobs: u64_at(&b, 8),
    }
}

// The form of a file with this first word: 1 or 2, or 0 where the word is another name.
pub fn form_of(word: u64, name: u64) -> u64 {
    let digit = wrapping_sub_u64(word, name);
    if digit == ONE {
        return 1;
    }
    if digit == TWO {
        return 2;
    }
    0
}
