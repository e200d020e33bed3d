// Replays stored sheets, sound and damaged, and compares the refusal and its place with the stored answers, which another program worked out
// from the rules (tools/sheet/make_jobs.py, with the file's format). Writes each sheet that differs, and the counts.
#![tactic(auto)]

ghost use Rattle.std.specs.Prelude.{◌≡◌, ◌≤◌, length};

use numbers::refusal::Refusal;
use sheet::{Fault, Limits};

// A refusal and its place, or 0 and 0.
#[derive(Clone, Copy, Debug, PartialEq, Eq)]
struct Answer {
    number: u64,
    place: u64,
}

// Whether a job agrees with its stored answer, and the bytes that it takes in the file.
#[derive(Clone, Copy, Debug, PartialEq, Eq)]
struct Replayed {
    agrees: bool,
    bytes: usize,
}

fn main(rt: HostRuntime) {
    if let Some(mut jobs) = reading::open_argument(&rt, 1) {
        let mut file = file_buffer();
        let size = reading::read_full(&mut jobs, &mut file);
        replay(&rt, &file[..size]);
    }
}

// Room for the file of jobs.
fn file_buffer() -> [u8; 524288]
    ensures { 524288 ≡ length result }
{
    [0; 524288]
}

// Replays the jobs of a file.
fn replay<P: Print>(rt: &P, file: &[u8]) {
    if file.len() < 4 {
        return;
    }
    let jobs = num::u32_at(file, 0);
    let mut wrong: u64 = 0;
    let mut at = 4;
    for k in 0..jobs {
        let one = replay_one(rt, &file[at..], k);
        if !one.agrees {
            wrong = wrong.wrapping_add(1);
        }
        at += one.bytes;
    }
    let _ = println!(rt; "{jobs} sheets, {wrong} differ");
}

// Replays the job that the bytes begin with, number k, and writes it where it differs.
fn replay_one<P: Print>(rt: &P, job: &[u8], k: u32) -> Replayed
    ensures { result.bytes ≤ length job.now }
{
    let bytes = num::u32_at(job, 0) as usize;
    if job.len() < 24 + bytes {
        return Replayed {
            agrees: false,
            bytes: job.len(),
        };
    }
    let got = answer_of(&job[24..24 + bytes], job);
    let wanted = Answer {
        number: num::u32_at(job, 16) as u64,
        place: num::u32_at(job, 20) as u64,
    };
    let agrees = got == wanted;
    if !agrees {
        report(rt, k, got, wanted);
    }
    Replayed {
        agrees,
        bytes: 24 + bytes,
    }
}

// Refusals 2, 3 and 6 to 10 in their order, for a sheet under the counts of its job's header.
fn answer_of(sheet: &[u8], job: &[u8]) -> Answer {
    match checked(sheet, job) {
        Ok(()) => Answer {
            number: 0,
            place: 0,
        },
        Err(f) => Answer {
            number: f.refusal.number() as u64,
            place: f.place as u64,
        },
    }
}

// The first of these refusals with its place, if there is one.
fn checked(sheet: &[u8], job: &[u8]) -> Result<(), Fault> {
    let points = num::u32_at(job, 12) as usize;
    if sheet::bad_sheet(sheet.len()) {
        return Err(Fault {
            refusal: Refusal::Sheet,
            place: 0,
        });
    }
    if sheet::bad_points(points) {
        return Err(Fault {
            refusal: Refusal::Points,
            place: 0,
        });
    }
    let l = Limits {
        nodes: num::u32_at(job, 4) as usize,
        sources: num::u32_at(job, 8) as usize,
        points: points / sheet::POINT,
    };
    sheet::check_sheet(sheet, l)
}

// Writes a sheet that differs.
fn report<P: Print>(rt: &P, k: u32, got: Answer, wanted: Answer) {
    let _ = println!(rt;
        "sheet {k}: {} at {}, wanted {} at {}",
        got.number, got.place, wanted.number, wanted.place
    );
}
