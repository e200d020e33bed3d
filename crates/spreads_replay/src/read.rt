// Reads the file of calls and reports part by part: each call's numbers, sheets and points, as a file of spreads has them, then its report's numbers and words.
use super::call;
use super::call::Found;
use jobs::{NextReport, Spreads, SpreadsFile};
use std::io::Read;

// Reads the next call's numbers and goes on with the rest of it.
pub fn replay_one<R: Read>(from: &mut R, form: u64, counts: &mut [u64]) -> Found {
    let next = jobs::spreads_file(from);
    match next {
        SpreadsFile::Whole(h) => replay_after(from, form, h, counts),
        _ => Found::Unreadable,
    }
}

// Reads the sheets, the points and the report of the call with these numbers, and makes it.
fn replay_after<R: Read>(from: &mut R, form: u64, h: Spreads, counts: &mut [u64]) -> Found {
    let mut sheets = [0; 65536];
    let mut points = jobs::points_room();
    let mut words = [0; 65536];
    let s = jobs::part(from, &mut sheets, h.sheets);
    let p = jobs::part(from, &mut points, h.points);
    let next = jobs::next_report(from, form);
    let NextReport::Whole(r) = next else {
        return Found::Unreadable;
    };
    let w = jobs::part(from, &mut words, r.bytes);
    if !call::whole(h, r, s as u64, p as u64, w as u64) {
        return Found::Unreadable;
    }
    call::replayed(h, r, &sheets[..s], &points[..p], &words[..w], counts)
}
