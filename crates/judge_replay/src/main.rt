// Judges each system that the file named by the first argument holds, and compares the answer with the one stored beside it, which exact fractions gave (tools/judge).
// A system is a head of 16 bytes, little-endian: rows (32 bits), how many floats of system, vector and tolerances follow (16 each), the refusal (16; 0 if none), the row (32; rows if every one holds, 0 if refused).
// Writes how many were judged, by answer, and how many differ; each that differs is named by its place, from 0.
#![tactic(auto)]

ghost use Rattle.std.specs.Prelude.{◌≡◌, ◌≤◌};

use judge::Judged;
use numbers::refusal::Refusal;
use std::io::Read;

// Systems, and floats of a system and of a vector, that are read at most.
const SYSTEMS: u64 = 65536;

const MOST_SYSTEM: usize = 2400;

const MOST_VECTOR: usize = 64;

// What a head says of a system that is short enough to be read.
#[derive(Clone, Copy)]
struct Head {
    rows: usize,
    system: usize,
    vector: usize,
    tolerances: usize,
    refusal: u16,
    row: usize,
    ghost system_fits: { system ≤ 2400 },
    ghost vector_fits: { vector ≤ 64 },
    ghost tolerances_fit: { tolerances ≤ 64 },
}

// An answer is the one stored beside its system, or not. A system too large to be read has none, and is as stored where that is a refusal beyond all that there are.
#[derive(Clone, Copy)]
enum Outcome {
    Same(Result<Judged, Refusal>),
    Unread,
    Differs,
}

#[derive(Clone, Copy)]
struct Tally {
    accepted: u64,
    rejected: u64,
    rows: u64,
    short: u64,
    numbers: u64,
    differ: u64,
}

fn main(rt: HostRuntime) {
    if let Some(mut systems) = reading::open_argument(&rt, 1) {
        report(&rt, replay(&rt, &mut systems));
    }
}

fn replay<P: Print, R: Read>(rt: &P, from: &mut R) -> Tally {
    let mut t = Tally {
        accepted: 0,
        rejected: 0,
        rows: 0,
        short: 0,
        numbers: 0,
        differ: 0,
    };
    for place in 0..SYSTEMS {
        let Some(o) = one(from) else {
            return t;
        };
        if let Outcome::Differs = o {
            let _ = println!(rt; "differs: {place}");
        }
        t.count(o);
    }
    t
}

// Reads and judges the next system; none where the file ends.
fn one<R: Read>(from: &mut R) -> Option<Outcome> {
    let mut head = [0u8; 16];
    if reading::read_full(from, &mut head) != 16 {
        return None;
    }
    let Some(h) = head_of(&head) else {
        return Some(unread(&head));
    };
    let size = 8 * (h.system + h.vector + h.tolerances);
    let mut body = [0; 65536];
    if reading::read_full(from, &mut body[..size]) != size {
        return None;
    }
    Some(compared(judged(&body, h), h))
}

fn head_of(b: &[u8]) -> Option<Head> {
    let system = num::u16_at(b, 4) as usize;
    let vector = num::u16_at(b, 6) as usize;
    let tolerances = num::u16_at(b, 8) as usize;
    if MOST_SYSTEM < system || MOST_VECTOR < vector || MOST_VECTOR < tolerances {
        return None;
    }
    Some(Head {
        rows: num::u32_at(b, 0) as usize,
        system,
        vector,
        tolerances,
        refusal: num::u16_at(b, 10),
        row: num::u32_at(b, 12) as usize,
    })
}

// What stands beside a system that is too large to be read.
fn unread(b: &[u8]) -> Outcome {
    if 255 <= num::u16_at(b, 10) && num::u32_at(b, 12) == 0 {
        Outcome::Unread
    } else {
        Outcome::Differs
    }
}

// The system, the vector and the tolerances stand one after the other.
fn judged(bytes: &[u8], h: Head) -> Result<Judged, Refusal> {
    let system: [f64; MOST_SYSTEM] = floats_at(bytes, 0);
    let vector: [f64; MOST_VECTOR] = floats_at(bytes, 8 * h.system);
    let tolerances: [f64; MOST_VECTOR] = floats_at(bytes, 8 * (h.system + h.vector));
    judge::judge(
        &system[..h.system],
        &vector[..h.vector],
        &tolerances[..h.tolerances],
        h.rows,
    )
}

// So many floats from `at` on.
fn floats_at<const N: usize>(bytes: &[u8], at: usize) -> [f64; N]
    requires { (at ≤ 65536) × (N ≤ 2400) }
{
    let mut r = [0.0; N];
    for (i, x) in r.iter_mut().enumerate() {
        *x = num::f64_at(bytes, at + 8 * i);
    }
    r
}

fn compared(j: Result<Judged, Refusal>, h: Head) -> Outcome {
    if same(j, h) {
        Outcome::Same(j)
    } else {
        Outcome::Differs
    }
}

// Whether the answer is the stored one: the refusal, and the row, which is the row count where every row holds, and 0 where the call is refused.
fn same(j: Result<Judged, Refusal>, h: Head) -> bool {
    match j {
        Ok(Judged::Accepted) => h.refusal == 0 && h.row == h.rows,
        Ok(Judged::Rejected(i)) => h.refusal == 0 && h.row == i,
        Err(k) => h.refusal == u16::from(k.number()) && h.row == 0,
    }
}

impl Tally {
    fn count(&mut self, o: Outcome) {
        let n = match o {
            Outcome::Same(Ok(Judged::Accepted)) => &mut self.accepted,
            Outcome::Same(Ok(Judged::Rejected(_))) => &mut self.rejected,
            Outcome::Same(Err(Refusal::Order)) => &mut self.rows,
            Outcome::Same(Err(Refusal::Room)) => &mut self.short,
            Outcome::Same(Err(_)) | Outcome::Unread => &mut self.numbers,
            Outcome::Differs => &mut self.differ,
        };
        *n = n.wrapping_add(1);
    }
}

fn report<P: Print>(rt: &P, t: Tally) {
    line(rt, "accepted ", t.accepted);
    line(rt, "rejected ", t.rejected);
    line(rt, "refused by 1 ", t.rows);
    line(rt, "refused by 5 ", t.short);
    line(rt, "refused by 11 ", t.numbers);
    line(rt, "differ ", t.differ);
}

fn line<P: Print>(rt: &P, what: &str, n: u64) {
    let _ = println!(rt; "{what}{n}");
}
