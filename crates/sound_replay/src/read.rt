// Reads the file of calls and reports part by part: each call's numbers, sheets, points and tolerances, as a file of spreads has them, then the numbers and words of its two reports.
ghost use Rattle.std.specs.Prelude.{◌≡◌, length};

use super::call;
use super::call::Found;
use jobs::{NextReport, Spreads, SpreadsFile};
use num::u64_at;
use std::io::Read;

// "SAVSOUN2" as a little-endian word, and the form of the reports that its digit says.
const NAME: u64 = 0x324e_554f_5356_4153;

const FORM: u64 = 2;

// The number of calls that a file's first words tell, 0 for a file of another kind.
pub fn calls_in<R: Read>(from: &mut R) -> u64 {
    let mut b = first_words();
    let n = reading::read_full(from, &mut b);
    if (n < 32) | (u64_at(&b, 0) != NAME) {
        return 0;
    }
    u64_at(&b, 8)
}

fn first_words() -> [u8; 32]
    ensures { 32 ≡ length result }
{
    [0; 32]
}

// Reads the next call's numbers and goes on with the rest of it.
pub fn replay_one<R: Read>(from: &mut R, counts: &mut [u64]) -> Found {
    let next = jobs::spreads_file(from);
    match next {
        SpreadsFile::Whole(h) => replay_after(from, h, counts),
        _ => Found::Unreadable,
    }
}

// Reads the sheets, the points and the tolerances of the call with these numbers.
fn replay_after<R: Read>(from: &mut R, h: Spreads, counts: &mut [u64]) -> Found {
    if h.tolerances > jobs::VECTOR as u64 {
        return Found::Unreadable;
    }
    let mut sheets = [0; 65536];
    let mut points = jobs::points_room();
    let mut tolerances = jobs::tolerance_room();
    let s = jobs::part(from, &mut sheets, h.sheets);
    let p = jobs::part(from, &mut points, h.points);
    let t = jobs::part(from, &mut tolerances, 8 * h.tolerances);
    if !call::read_whole(h, s as u64, p as u64, t as u64) {
        return Found::Unreadable;
    }
    replay_with(
        from,
        h,
        &sheets[..s],
        &points[..p],
        &tolerances[..t],
        counts,
    )
}

// Reads the call's two reports, and makes it.
fn replay_with<R: Read>(
    from: &mut R,
    h: Spreads,
    sheets: &[u8],
    points: &[u8],
    tolerances: &[u8],
    counts: &mut [u64],
) -> Found {
    let mut words = [0; 65536];
    let mut more = jobs::points_room();
    let first = jobs::next_report(from, FORM);
    let NextReport::Whole(r) = first else {
        return Found::Unreadable;
    };
    let w = jobs::part(from, &mut words, r.bytes);
    let second = jobs::next_report(from, FORM);
    let NextReport::Whole(q) = second else {
        return Found::Unreadable;
    };
    let m = jobs::part(from, &mut more, q.bytes);
    if !call::whole(r, q, w as u64, m as u64) {
        return Found::Unreadable;
    }
    call::replayed(
        h,
        r,
        q,
        sheets,
        points,
        tolerances,
        &words[..w],
        &more[..m],
        counts,
    )
}
