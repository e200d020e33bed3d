// Takes the mean of each sum that the file named by the first argument holds, and compares its bits with those stored beside it, which exact fractions gave (tools/mean).
// A sum is a head of 24 bytes, little-endian: the count (64 bits), the terms that follow and the limbs of a row (32 each), the mean's bits (64). A term is two floats, to be multiplied.
// Writes how many are the same, by kind, and how many differ; each that differs is named by its place, from 0.
#![tactic(auto)]

use std::io::Read;

// Sums, and terms of one sum, that are read at most.
const SUMS: u64 = 65536;

const TERMS: usize = 4096;

#[derive(Clone, Copy)]
struct Head {
    count: u64,
    terms: usize,
    limbs: usize,
    bits: u64,
}

#[derive(Drop)]
enum Outcome {
    Same(u64),
    Differs,
    End,
}

#[derive(Clone, Copy)]
struct Tally {
    zeros: u64,
    subnormals: u64,
    normals: u64,
    infinities: u64,
    differ: u64,
}

fn main(rt: HostRuntime) {
    if let Some(mut sums) = reading::open_argument(&rt, 1) {
        report(&rt, replay(&rt, &mut sums));
    }
}

fn replay<P: Print, R: Read>(rt: &P, from: &mut R) -> Tally {
    let mut t = Tally {
        zeros: 0,
        subnormals: 0,
        normals: 0,
        infinities: 0,
        differ: 0,
    };
    for place in 0..SUMS {
        let o = one(from);
        if let Outcome::End = o {
            return t;
        }
        if let Outcome::Differs = o {
            name(rt, place);
        }
        t = counted(t, o);
    }
    t
}

// Reads the next sum and takes its mean; a file that ends, or a sum too long to be read, is the end.
fn one<R: Read>(from: &mut R) -> Outcome {
    let mut head = [0u8; 24];
    if reading::read_full(from, &mut head) != 24 {
        return Outcome::End;
    }
    let h = head_of(&head);
    if TERMS < h.terms {
        return Outcome::End;
    }
    let size = 16 * h.terms;
    let mut body = [0; 65536];
    if reading::read_full(from, &mut body[..size]) != size {
        return Outcome::End;
    }
    compared(bits_of(mean_of(&body, h)), h.bits)
}

fn head_of(b: &[u8]) -> Head {
    Head {
        count: num::u64_at(b, 0),
        terms: num::u32_at(b, 8) as usize,
        limbs: num::u32_at(b, 12) as usize,
        bits: num::u64_at(b, 16),
    }
}

// The terms are kept one after the other.
fn mean_of(bytes: &[u8; 65536], h: Head) -> f64 {
    let mut plus = exact::empty();
    let mut minus = exact::empty();
    add_all(bytes, h.terms, &mut plus, &mut minus);
    of_rows(&plus, &minus, h.limbs, h.count)
}

// The mean of the rows' limbs below `limbs`, which are all of them but where a refusal is tried.
fn of_rows(plus: &[u64], minus: &[u64], limbs: usize, count: u64) -> f64 {
    if plus.len() < limbs {
        return 0.0 / 0.0;
    }
    if minus.len() < limbs {
        return 0.0 / 0.0;
    }
    mean::mean(&plus[..limbs], &minus[..limbs], count)
}

fn add_all(bytes: &[u8], terms: usize, plus: &mut [u64], minus: &mut [u64]) {
    if TERMS < terms {
        return;
    }
    for i in 0..terms {
        let x = num::f64_at(bytes, 16 * i);
        let y = num::f64_at(bytes, 16 * i + 8);
        let _ = exact::keep_product(plus, minus, x, y);
    }
}

// A NaN, which no mean is, has the bits of none.
fn bits_of(x: f64) -> u64 {
    if x != x {
        return 0xffff_ffff_ffff_ffff;
    }
    f64::to_bits(x)
}

fn compared(bits: u64, stored: u64) -> Outcome {
    if bits == stored {
        Outcome::Same(bits % 0x8000_0000_0000_0000)
    } else {
        Outcome::Differs
    }
}

// By the bits without the sign's.
fn counted(t: Tally, o: Outcome) -> Tally {
    let mut c = t;
    match o {
        Outcome::Same(size) => {
            if size == 0 {
                c.zeros = next(t.zeros);
            } else if size < 0x0010_0000_0000_0000 {
                c.subnormals = next(t.subnormals);
            } else if size < 0x7ff0_0000_0000_0000 {
                c.normals = next(t.normals);
            } else {
                c.infinities = next(t.infinities);
            }
        }
        Outcome::Differs => c.differ = next(t.differ),
        Outcome::End => {}
    }
    c
}

fn next(n: u64) -> u64 {
    std::num::wrapping_add_u64(n, 1)
}

fn name<P: Print>(rt: &P, place: u64) {
    let _ = println!(rt; "differs: {place}");
}

fn report<P: Print>(rt: &P, t: Tally) {
    line(rt, "zero ", t.zeros);
    line(rt, "subnormal ", t.subnormals);
    line(rt, "normal ", t.normals);
    line(rt, "infinite ", t.infinities);
    line(rt, "differ ", t.differ);
}

fn line<P: Print>(rt: &P, what: &str, n: u64) {
    let _ = println!(rt; "{what}{n}");
}
