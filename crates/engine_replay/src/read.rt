// Reads the file of jobs and answers part by part: each job's numbers, sheet and points, then its answer's numbers and floats.
use super::job;
use super::job::Found;
use jobs::{Head, NextAnswer, NextJob};
use std::io::Read;

// Reads the next job's numbers and goes on with the rest of it.
pub fn replay_one<R: Read>(from: &mut R, form: u64, counts: &mut [u64]) -> Found {
    let next = jobs::next_job(from, form);
    match next {
        NextJob::Whole(h) => replay_after(from, form, h, counts),
        _ => Found::Unreadable,
    }
}

// Reads the sheet, the points and the answer of the job with these numbers, and runs it.
fn replay_after<R: Read>(from: &mut R, form: u64, h: Head, counts: &mut [u64]) -> Found {
    let mut sheet = jobs::sheet_room();
    let mut points = jobs::points_room();
    let mut floats = [0; 65536];
    let s = jobs::part(from, &mut sheet, h.sheet);
    let p = jobs::part(from, &mut points, h.points);
    let next = jobs::next_answer(from, form);
    let NextAnswer::Whole(a) = next else {
        return Found::Unreadable;
    };
    let f = jobs::part(from, &mut floats, a.floats);
    if !job::whole(h, a, s as u64, p as u64, f as u64) {
        return Found::Unreadable;
    }
    job::replayed(h, a, &sheet[..s], &points[..p], &floats[..f], counts)
}
