// Replays stored calls of spreads (docs/FORMATS.md): makes each call of the files that the arguments name through the C door's function, and compares every number of the answer and every lent buffer
// afterwards, past the lengths that were lent too. Writes for each file the first calls that differ with the field, how many calls were refused by each number, and how many jobs of the others ended in each way.
#![tactic(auto)]

mod call; // call.rt: a call that was read, made and compared
mod read; // read.rt: a file's next call
mod rooms; // rooms.rt: the lent buffers
mod tallied; // tallied.rt: how many calls and jobs ended in each way

use std::io::Read;
use std::rt::Files;

fn main(rt: HostRuntime) {
    for i in 1..usize::MAX {
        let mut path = [0; reading::PATH];
        let Some(n) = reading::argument(&rt, i, &mut path) else {
            return;
        };
        replay_file(&rt, &path[..n]);
    }
}

// Replays the file of this name.
fn replay_file<R: Files + Print + Eprint>(rt: &R, name: &[u8]) {
    if let Some(mut file) = reading::open(rt, name) {
        replay(rt, &mut file, name);
    }
}

// Replays the whole file and writes what came out.
fn replay<P: Print, R: Read>(rt: &P, from: &mut R, name: &[u8]) {
    let mut counts = tallied::zeros();
    let f = jobs::calls_file(from);
    replay_all(rt, from, f.form, f.jobs, &mut counts);
    let _ = rt.write_all(name);
    let _ = print!(rt; ": {} calls", f.jobs);
    tallied::report(rt, &counts);
}

// Replays call after call. A file that ends too early, or whose sizes are beyond all bounds, counts as one call that differs and ends the replay.
fn replay_all<P: Print, R: Read>(rt: &P, from: &mut R, form: u64, calls: u64, counts: &mut [u64]) {
    for k in 0..calls {
        let found = read::replay_one(from, form, counts);
        tallied::found(rt, counts, k, found);
        if call::ends(found) {
            return;
        }
    }
}
