// Replays stored answers: each entry of the data files holds what a model is asked and what it must answer, and the program says how many differ.
// A file's entries have one length; all numbers are eight bytes, little-endian. tools/models says what stands where and makes the files.
#![tactic(auto)]

mod entry;

ghost use Rattle.std.specs.Prelude.{◌≡◌, length};

use std::io::Read;
use std::rt::Files;

// How many answers were compared, and how many of them differ.
#[derive(Drop)]
struct Tally {
    seen: u64,
    differ: u64,
}

fn main(rt: HostRuntime) {
    replay(&rt, "patterns", entry::PATTERNS);
    replay(&rt, "patterns_first", entry::PATTERNS_FIRST);
    replay(&rt, "capacitors", entry::CAPACITORS);
    replay(&rt, "diodes", entry::DIODES);
    replay(&rt, "situations", entry::SITUATIONS);
    replay(&rt, "sines", entry::SINES);
}

// Compares every answer of the file and writes its line.
fn replay<R: Files + Print + Eprint>(rt: &R, name: &str, kind: u8) {
    if let Some(mut answers) = reading::open(rt, name.as_bytes()) {
        let Tally { seen, differ } = replay_all(&mut answers, kind);
        let _ = println!(rt; "{name}: {seen} answers, {differ} differ");
    }
}

// Compares entry by entry up to the file's end. An entry cut short counts as one that differs.
fn replay_all<R: Read>(from: &mut R, kind: u8) -> Tally {
    let mut t = Tally { seen: 0, differ: 0 };
    let mut left = 1000000u64;
    while left > 0 {
        let found = replay_one(from, kind);
        if found == 0 {
            return t;
        }
        t = counted(t, found);
        left -= 1;
    }
    t
}

// The tally after one more answer.
fn counted(t: Tally, found: u8) -> Tally {
    if found == 1 {
        return Tally {
            seen: std::num::wrapping_add_u64(t.seen, 1),
            differ: t.differ,
        };
    }
    Tally {
        seen: std::num::wrapping_add_u64(t.seen, 1),
        differ: std::num::wrapping_add_u64(t.differ, 1),
    }
}

// Reads the next entry: 0 where the file ends, 1 where the answer is the stored one, 2 where it differs.
fn replay_one<R: Read>(from: &mut R, kind: u8) -> u8 {
    let mut buf = entry_buffer();
    let size = entry::size_of(kind);
    let n = reading::read_full(from, &mut buf[..size]);
    if n == 0 {
        return 0;
    }
    if n == size {
        return judged(&buf, kind);
    }
    2
}

// 1 where the answer of the entry at the start of e is the stored one, else 2.
fn judged(e: &[u8; 144], kind: u8) -> u8 {
    if entry::is_right(e, kind) {
        return 1;
    }
    2
}

// Room for the longest entry.
fn entry_buffer() -> [u8; 144]
    ensures { length result ≡ 144 }
{
    [0; 144]
}
