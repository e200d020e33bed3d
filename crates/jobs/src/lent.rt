// What a lent buffer holds before a call, and whether it holds what it must after it, past its end too. Before a call float 0 or word 0 is some pattern, and every further one is one pattern up.
use std::num::{wrapping_add_u64, wrapping_add_usize};

// Fills a buffer with the patterns from `first` up.
pub fn lend(x: &mut [f64], first: u64) {
    for i in 0..x.len() {
        x[i] = num::float_of(wrapping_add_u64(first, i as u64));
    }
}

// Whether x begins with n stored floats, those from place `at` of the bytes on, and holds after them what was lent.
pub fn holds(x: &[f64], first: u64, bytes: &[u8], at: usize, n: usize) -> bool {
    if x.len() < n {
        return false;
    }
    stored(x, bytes, at, n) & kept(x, first, n)
}

// Whether the floats of x before n are those that the bytes hold from place `at` on.
fn stored(x: &[f64], bytes: &[u8], at: usize, n: usize) -> bool {
    let mut place = at;
    for i in 0..x.len() {
        if i < n {
            if !same(x[i], num::u64_at(bytes, place)) {
                return false;
            }
        }
        place = wrapping_add_usize(place, 8);
    }
    true
}

// Whether the floats of x from n on are as they were lent.
pub fn kept(x: &[f64], first: u64, n: usize) -> bool {
    for i in 0..x.len() {
        if n <= i {
            if !same(x[i], wrapping_add_u64(first, i as u64)) {
                return false;
            }
        }
    }
    true
}

// Whether x has these bits; any NaN stands for any other.
pub fn same(x: f64, bits: u64) -> bool {
    if x != x {
        let y = num::float_of(bits);
        return y != y;
    }
    f64::to_bits(x) == bits
}

// The place in bytes after n floats that begin at `at`.
pub fn after(at: usize, n: usize) -> usize {
    let two = wrapping_add_usize(n, n);
    let four = wrapping_add_usize(two, two);
    wrapping_add_usize(at, wrapping_add_usize(four, four))
}

// Fills a buffer of words with the patterns from `first` up.
pub fn lend_words(x: &mut [u64], first: u64) {
    for i in 0..x.len() {
        x[i] = wrapping_add_u64(first, i as u64);
    }
}

// Whether x begins with n stored words, those from place `at` of the bytes on, and holds after them what was lent.
pub fn words_hold(x: &[u64], first: u64, bytes: &[u8], at: usize, n: usize) -> bool {
    if x.len() < n {
        return false;
    }
    let mut place = at;
    for i in 0..x.len() {
        if x[i] != expected(first, bytes, place, i, n) {
            return false;
        }
        place = wrapping_add_usize(place, 8);
    }
    true
}

// Word i of a buffer after a call: the stored one at this place of the bytes, or from n on what was lent.
fn expected(first: u64, bytes: &[u8], place: usize, i: usize, n: usize) -> u64 {
    if i < n {
        return num::u64_at(bytes, place);
    }
    wrapping_add_u64(first, i as u64)
}
