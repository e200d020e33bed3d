// Replays the stored answers of exp, ln and sin: each record of the file that the first argument names holds a function, an input, the answer that the
// definitions give, and the correctly rounded value, each a little-endian word. It tells how many answers differ, and how far the answers are from the correctly rounded values.
#![tactic(auto)]

use std::io::Read;

const EXP: u64 = 1;

const LN: u64 = 2;

const SIN: u64 = 3;

const RECORD: usize = 32;

const NAN_BITS: u64 = 0x7ff8_0000_0000_0000;

const REFUSED_BITS: u64 = 0xffff_ffff_ffff_ffff;

fn main(rt: HostRuntime) {
    if let Some(mut answers) = reading::open_argument(&rt, 1) {
        replay(&rt, &mut answers);
    }
}

// What was found of one function.
#[derive(Clone, Copy)]
pub struct Tally {
    pub count: u64,
    pub differ: u64,
    pub far: u64,
}

// Reads the list, 2,048 records at a time, and reports on each function.
fn replay<P: Print, R: Read>(rt: &P, from: &mut R) {
    let mut exp = Tally {
        count: 0,
        differ: 0,
        far: 0,
    };
    let mut ln = exp;
    let mut sin = exp;
    let mut turn: usize = 0;
    while turn < 16 {
        let mut buf = [0; 65536];
        let n = reading::read_full(from, &mut buf);
        exp = tallied(EXP, &buf[..n], exp);
        ln = tallied(LN, &buf[..n], ln);
        sin = tallied(SIN, &buf[..n], sin);
        turn += 1;
    }
    report(rt, "exp", exp);
    report(rt, "ln", ln);
    report(rt, "sin", sin);
}

// The records of one function added to a tally.
fn tallied(which: u64, list: &[u8], start: Tally) -> Tally {
    let n = list.len() / RECORD;
    let mut t = start;
    let mut i = 0;
    while i < n {
        let at = i * RECORD;
        if num::u64_at(list, at) == which {
            t = told(
                which,
                num::u64_at(list, at + 8),
                num::u64_at(list, at + 16),
                num::u64_at(list, at + 24),
                t,
            );
        }
        i += 1;
    }
    t
}

// One record added to a tally.
fn told(which: u64, input: u64, stored: u64, right: u64, t: Tally) -> Tally {
    let x = num::float_of(input);
    let r = answer(which, x);
    let mut differ = t.differ;
    if r != stored {
        differ = std::num::wrapping_add_u64(differ, 1);
    }
    Tally {
        count: std::num::wrapping_add_u64(t.count, 1),
        differ,
        far: larger(t.far, distance(which, x, r, right)),
    }
}

// The bits that the function answers at x.
fn answer(which: u64, x: f64) -> u64 {
    if which == EXP {
        return bits_of(functions::exp(x));
    }
    if which == LN {
        return bits_of(functions::ln(x));
    }
    match functions::sin(x) {
        Some(r) => bits_of(r),
        None => REFUSED_BITS,
    }
}

// The bits of a float, one pattern for every NaN.
fn bits_of(x: f64) -> u64 {
    if x != x {
        return NAN_BITS;
    }
    f64::to_bits(x)
}

// How many floats the answer is from the correctly rounded value, where that is told: in exp's range, where ln's answer is above 1/4 in size, and for sin
// where that is so and x is below 1000, or where x is below 1/4.
fn distance(which: u64, x: f64, r: u64, right: u64) -> u64 {
    if told_at(which, x, num::absolute(num::float_of(r))) {
        return apart(r, right);
    }
    0
}

// Whether it is told at x, for an answer of this size.
fn told_at(which: u64, x: f64, size: f64) -> bool {
    if which == EXP {
        return within(-708.0, x, 709.0);
    }
    if which == SIN {
        if within(-0.25, x, 0.25) {
            return true;
        }
        if !within(-1000.0, x, 1000.0) {
            return false;
        }
    }
    if num::finite(size) {
        return 0.25 < size;
    }
    false
}

fn within(low: f64, x: f64, high: f64) -> bool {
    if low <= x {
        return x <= high;
    }
    false
}

// How many floats lie from one pattern to another.
fn apart(a: u64, b: u64) -> u64 {
    let i = place(a);
    let j = place(b);
    if i < j { j - i } else { i - j }
}

// The place of a pattern among all floats, from the least up.
fn place(b: u64) -> u64 {
    if b < 0x8000_0000_0000_0000 {
        b + 0x8000_0000_0000_0000
    } else {
        0xffff_ffff_ffff_ffff - b
    }
}

fn larger(a: u64, b: u64) -> u64 {
    if a < b { b } else { a }
}

fn report<P: Print>(rt: &P, name: &str, t: Tally) {
    let _ = println!(rt;
        "{name}: {} answers, {} differ, at most {} units from the correctly rounded value",
        t.count, t.differ, t.far
    );
}
