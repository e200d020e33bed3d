// Writes each float of the file named by the first argument in decimal, and compares the digits and their place with those stored beside it, which are Python's shortest (tools/decimal).
// A record is 24 bytes, little-endian: the float's bits and the digits (64 each), the place and the kind (32 each). The kind is 0, or 2 for an infinity, one more with a minus, and 4 for NaN.
// Writes how many are the same, by the number of digits, and how many differ; each that differs is named by its place in the file, from 0.
#![tactic(auto)]

use decimal::Decimal;
use std::fmt;
use std::io::Read;

// Floats that are read at most.
const FLOATS: u64 = 65536;

// The least numbers of 16 and of 17 digits.
const SIXTEEN: u64 = 1000000000000000;

const SEVENTEEN: u64 = 10000000000000000;

// A float, and what is stored for it; none where the kind is no kind.
#[derive(Clone, Copy)]
struct Record {
    float: f64,
    stored: Option<Decimal>,
}

#[derive(Clone, Copy, Default)]
struct Tally {
    none: u64,
    fewer: u64,
    sixteen: u64,
    seventeen: u64,
    differ: u64,
}

impl Tally {
    // Counts a float that is written as it is stored.
    fn count(&mut self, d: Decimal) {
        let counter = match d {
            Decimal::Nan | Decimal::Infinite { .. } => &mut self.none,
            Decimal::Finite { digits, .. } if digits < SIXTEEN => &mut self.fewer,
            Decimal::Finite { digits, .. } if digits < SEVENTEEN => &mut self.sixteen,
            Decimal::Finite { .. } => &mut self.seventeen,
        };
        *counter = counter.wrapping_add(1);
    }

    fn count_differing(&mut self) {
        self.differ = self.differ.wrapping_add(1);
    }
}

impl fmt::Display for Tally {
    fn fmt<W: fmt::Write>(&self, f: &mut fmt::Formatter<W>) -> fmt::Result {
        writeln!(f, "up to 15 digits {}", self.fewer)?;
        writeln!(f, "16 digits {}", self.sixteen)?;
        writeln!(f, "17 digits {}", self.seventeen)?;
        writeln!(f, "infinite or NaN {}", self.none)?;
        writeln!(f, "differ {}", self.differ)
    }
}

fn main(rt: HostRuntime) {
    if let Some(mut floats) = reading::open_argument(&rt, 1) {
        let _ = print!(rt; "{}", replay(&rt, &mut floats));
    }
}

// Replays record after record, to the end of the file.
fn replay<P: Print, R: Read>(rt: &P, from: &mut R) -> Tally {
    let mut t = Tally::default();
    for place in 0..FLOATS {
        let Some(record) = next_record(from) else {
            break;
        };
        let d = decimal::decimal_of(record.float);
        if record.stored == Some(d) {
            t.count(d);
        } else {
            t.count_differing();
            let _ = println!(rt; "differs: {place}");
        }
    }
    t
}

// Reads the next record; none where the file ends before it does.
fn next_record<R: Read>(from: &mut R) -> Option<Record> {
    let mut b = [0u8; 24];
    if reading::read_full(from, &mut b) != 24 {
        return None;
    }
    Some(Record {
        float: num::f64_at(&b, 0),
        stored: stored_at(&b),
    })
}

// What a record has beside its float.
fn stored_at(b: &[u8]) -> Option<Decimal> {
    let kind = num::u32_at(b, 20);
    let minus = kind % 2 == 1;
    match kind {
        0 | 1 => Some(Decimal::Finite {
            minus,
            digits: num::u64_at(b, 8),
            place: num::u32_at(b, 16) as u64,
        }),
        2 | 3 => Some(Decimal::Infinite { minus }),
        4 => Some(Decimal::Nan),
        _ => None,
    }
}
