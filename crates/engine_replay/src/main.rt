// Replays stored jobs and answers (docs/FORMATS.md): runs each job of the files that the arguments name, and compares every number of the answer and every lent buffer
// afterwards bit for bit. Writes for each file the first jobs that differ with the field, how many jobs ended in each way, and what became of the jobs at the limits.
#![tactic(auto)]

mod buffers; // buffers.rt: the lent buffers, before a call and after it
mod job; // job.rt: a job that was read, run and compared
mod read; // read.rt: a file's next job
mod tally; // tally.rt: how many jobs ended in each way

use std::io::Read;
use std::rt::Files;

fn main(rt: HostRuntime) {
    for i in 1..usize::MAX {
        let mut path = [0; reading::PATH];
        let Some(n) = reading::argument(&rt, i, &mut path) else {
            return;
        };
        replay_file(&rt, &path[..n]);
    }
}

// Replays the file of this name.
fn replay_file<R: Files + Print + Eprint>(rt: &R, name: &[u8]) {
    if let Some(mut file) = reading::open(rt, name) {
        replay(rt, &mut file, name);
    }
}

// Replays the whole file and writes what came out.
fn replay<P: Print, R: Read>(rt: &P, from: &mut R, name: &[u8]) {
    let mut counts = tally::zeros();
    let f = jobs::answers_file(from);
    replay_all(rt, from, f.form, f.jobs, &mut counts);
    let _ = rt.write_all(name);
    let _ = print!(rt; ": {} jobs", f.jobs);
    tally::report(rt, &counts);
}

// Replays job after job. A file that ends too early, or whose sizes are beyond all bounds, counts as one job that differs and ends the replay.
fn replay_all<P: Print, R: Read>(rt: &P, from: &mut R, form: u64, jobs: u64, counts: &mut [u64]) {
    for k in 0..jobs {
        let found = read::replay_one(from, form, counts);
        tally::found(rt, counts, k, found);
        if job::ends(found) {
            return;
        }
    }
}
