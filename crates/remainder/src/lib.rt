// The remainder of two floats, exactly as `%` answers it, over whole numbers: both are digits at a place, the digits are divided, and what is left is put back at the lower place.
#![tactic(auto)]

ghost use Rattle.std.specs.Prelude.{◌≡◌, ◌+◌, ◌-◌, ◌*◌, ◌%◌, ◌^◌, ◌<◌, ◌≤◌, min, false};
ghost use Rattle.std.specs.Float.{binary64};
ghost use Rattle.std.specs.Float.Ieee.{rem, round};
ghost use Rattle.std.specs.Float.Ieee.Exact.{HasValue};

use exact::Parts;

// x less the whole multiple of y that is next below it in size, with x's sign.
pub fn remainder(x: f64, y: f64) -> f64
    ensures { result ≡ rem binary64 x y }
{
    if !num::finite(x) {
        return f64::NAN;
    }
    if !num::finite(y) {
        return if y == y { x } else { y };
    }
    let a = exact::digits_of(x);
    let b = exact::digits_of(y);
    if b.digits == 0 {
        return f64::NAN;
    }
    put(left(a, b), a.place.min(b.place), a.minus)
}

// What is left of the size of a, divided by that of b, at the lower of the two places.
fn left(a: Parts, b: Parts) -> u64
    requires some { 0 < b.digits }
    requires digits { a.digits < 2 ^ 53 }
    requires others { b.digits < 2 ^ 53 }
    ensures value { result * 2 ^ min a.place b.place ≡ (a.digits * 2 ^ a.place) % (b.digits * 2 ^ b.place) }
    ensures few { result < 2 ^ 53 }
{
    if b.place <= a.place {
        return doubled(a.digits % b.digits, a.place - b.place, b.digits);
    }
    short(a.digits, b.place - a.place, b.digits)
}

// r doubled k times, modulo n.
fn doubled(r: u64, k: usize, n: u64) -> u64
    requires below { r < n }
    requires few { n < 2 ^ 53 }
    ensures { result ≡ (r * 2 ^ k) % n }
{
    let mut left = r;
    // kept: a loop, since each turn needs that `left` is below n, which a fold's closure does not know
    for _i in 0..k {
        left = 2 * left % n;
    }
    left
}

// What is left of m, divided by n * 2^d.
fn short(m: u64, d: usize, n: u64) -> u64
    requires some { 0 < n }
    requires digits { m < 2 ^ 53 }
    ensures { result ≡ m % (n * 2 ^ d) }
{
    if 53 <= d {
        return m;
    }
    let unit = 1u64 << d;
    m / unit % n * unit + m % unit
}

// r * 2^place in units of 2^-1074, with a sign.
fn put(r: u64, place: usize, minus: bool) -> f64
    requires few { r < 2 ^ 53 }
    requires low { place ≤ 2045 }
    ensures { result ≡ round binary64 minus (r * 2 ^ place) (2 ^ 1074) }
{
    signed(r, minus) * unit(place)
}

// A whole number as a float, with a sign.
fn signed(r: u64, minus: bool) -> f64
    requires { r < 2 ^ 53 }
    ensures { HasValue result minus r 1 }
{
    let size = r as f64;
    if minus { -size } else { size }
}

// 2^(place - 1074), from its bits.
fn unit(place: usize) -> f64
    requires { place ≤ 2045 }
    ensures { HasValue result false (2 ^ place) (2 ^ 1074) }
{
    if place < 52 {
        return f64::from_bits(1u64 << place);
    }
    f64::from_bits((place as u64 - 51) * 4503599627370496)
}
