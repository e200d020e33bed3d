// How many calls were refused by each number and how many jobs of the others ended in each way, and the lines that say so.
ghost use Rattle.std.specs.Prelude.{◌≡◌, length};

use super::call::Found;
use numbers::limit::JOB_NUMBERS;
use numbers::refusal;
use std::num::wrapping_add_u64;

// Places of the counts: the calls that differ, the calls refused by k at k, the calls that ran, and the jobs with number v at 32 + v.
const DIFFER: u64 = 0;

const RAN: u64 = 31;

const JOBS: u64 = 32;

const NUMBERS: u8 = JOB_NUMBERS as u8;

// All counts at 0.
pub fn zeros() -> [u64; 64]
    ensures { 64 ≡ length result }
{
    [0; 64]
}

// Counts a call by its refusal, and where that is 0, which is none, its jobs by what the call counted itself.
pub fn ended(counts: &mut [u64], refused: u64, by_number: &[u64]) {
    if refused == 0 {
        add(counts, RAN, 1);
        jobs_ended(counts, by_number);
        return;
    }
    if refused < RAN {
        add(counts, refused, 1);
    }
}

// Counts the jobs of a call.
fn jobs_ended(counts: &mut [u64], by_number: &[u64]) {
    for v in 0..NUMBERS {
        add(
            counts,
            wrapping_add_u64(JOBS, v as u64),
            at(by_number, v as u64),
        );
    }
}

// Counts a call that differs, and names it where it is among the first ten.
pub fn found<P: Print>(rt: &P, counts: &mut [u64], k: u64, f: Found) {
    if let Found::Nothing = f {
        return;
    }
    add(counts, DIFFER, 1);
    if at(counts, DIFFER) <= 10 {
        text(rt, b"call ");
        number(rt, k);
        text(rt, b" differs: ");
        print_field(rt, f);
        text(rt, b"\n");
    }
}

// Writes the name of a field.
fn print_field<P: Print>(rt: &P, f: Found) {
    print_item(
        rt,
        b"nothing,refusal,settled,smallest,largest,smallest at,largest at,base matrix,system matrix,elimination matrix,memory,vectors,numbers,places,passes,counts,plus,minus,cannot be read",
        place_of(f),
    );
}

// The place of a field's name among those.
fn place_of(f: Found) -> u8 {
    match f {
        Found::Nothing => 0,
        Found::Refusal => 1,
        Found::Settled => 2,
        Found::Smallest => 3,
        Found::Largest => 4,
        Found::SmallestAt => 5,
        Found::LargestAt => 6,
        Found::Base => 7,
        Found::System => 8,
        Found::Elimination => 9,
        Found::Memory => 10,
        Found::Vectors => 11,
        Found::Numbers => 12,
        Found::Places => 13,
        Found::Passes => 14,
        Found::Counts => 15,
        Found::Plus => 16,
        Found::Minus => 17,
        Found::Unreadable => 18,
    }
}

// Writes item k of a list whose items are apart by commas.
fn print_item<P: Print>(rt: &P, list: &[u8], k: u8) {
    let mut before = k;
    for i in 0..list.len() {
        before = item_byte(rt, list[i], before);
    }
}

// Writes a byte of a list if no item is left before its own. Answers how many are left then: after the item's end more than there can be.
fn item_byte<P: Print>(rt: &P, b: u8, before: u8) -> u8 {
    if b == b',' {
        if before == 0 {
            return 255;
        }
        return before - 1;
    }
    if before == 0 {
        text(rt, &[b; 1]);
    }
    before
}

// Writes how many calls differ, and then a line for each way to end.
pub fn report<P: Print>(rt: &P, counts: &[u64]) {
    text(rt, b", ");
    number(rt, at(counts, DIFFER));
    text(rt, b" differ\ncalls refused:\n");
    report_from(rt, counts, 0, refusal::ORDER, refusal::ROOM);
    report_from(rt, counts, 0, refusal::JOBS, refusal::JOBS);
    text(rt, b"calls that ran: ");
    number(rt, at(counts, RAN));
    text(rt, b"\ntheir jobs:\n");
    report_from(rt, counts, JOBS, 0, NUMBERS - 1);
}

// Writes the counts of the numbers from `from` to `to`, those of which there are any.
fn report_from<P: Print>(rt: &P, counts: &[u64], kind: u64, from: u8, to: u8) {
    for v in from..=to {
        report_one(rt, at(counts, wrapping_add_u64(kind, v as u64)), v as u64);
    }
}

// Writes the count of number v, if there is any.
fn report_one<P: Print>(rt: &P, count: u64, v: u64) {
    if count == 0 {
        return;
    }
    text(rt, b"  ");
    number(rt, count);
    text(rt, b" with ");
    number(rt, v);
    text(rt, b"\n");
}

// So many more at a place.
fn add(counts: &mut [u64], place: u64, more: u64) {
    let i = place as usize;
    if i < counts.len() {
        counts[i] = wrapping_add_u64(counts[i], more);
    }
}

// The count at a place.
fn at(counts: &[u64], place: u64) -> u64 {
    let i = place as usize;
    if i < counts.len() {
        return counts[i];
    }
    0
}

fn text<P: Print>(rt: &P, s: &[u8]) {
    let _ = rt.write_all(s);
}

fn number<P: Print>(rt: &P, n: u64) {
    let _ = rt.print(n);
}
