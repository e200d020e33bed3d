// A number of quarter steps of a float as a whole number of decimal units. A step is the distance of the floats of one exponent, and the unit is the power of ten that is a tenth to a hundredth of its quarter.
ghost use Rattle.std.specs.Prelude.{◌≡◌, ◌*◌, ◌/◌, ◌%◌, ◌^◌, ◌<◌, eqb, length};
ghost use Rattle.decimal.specs.Limbs.{value, Few, Holds};
ghost use Rattle.decimal.specs.Scale.{place_of, cut_of};

use super::limbs;

// A quotient: its whole part, and whether nothing is left.
#[derive(Clone, Copy, Debug, PartialEq, Eq)]
pub struct Cut {
    pub whole: u64,
    pub even: bool,
}

// a quarter steps of the floats whose exponent's field is b, in units of 10^(place_of(b) - 326).
pub fn cut_at(b: u64, a: u64) -> Cut
    requires { (0 < b) × (b < 2047) × (a < 2 ^ 56) }
    ensures { result ≡ cut_of b a }
{
    let w = place_of(b);
    let mut l = limbs::limbs_of(a);
    times_long(&mut l, 2, 1073741824, 30, b.saturating_sub(1077));
    times_long(&mut l, 10, 1000000000, 9, 326u64.saturating_sub(w));
    let twos = over_long(&mut l, 2, 1073741824, 30, 1077u64.saturating_sub(b));
    let tens = over_long(&mut l, 10, 1000000000, 9, w.saturating_sub(326));
    Cut {
        whole: limbs::number_of(&l),
        even: tens & twos,
    }
}

// The place of the decimal unit for the exponent's field b: 0.30103 is the logarithm of 2.
pub fn place_of(b: u64) -> u64
    requires { b < 2047 }
    ensures { result ≡ place_of b }
{
    (b * 30103 + 79069) / 100000
}

// Times k, n times over: `size` at a time by big, and the rest one by one.
fn times_long(l: &mut [u64], k: u64, big: u64, size: u64, n: u64)
    requires { (0 < k) × (k < 2 ^ 32) × (big ≡ k ^ size) × (big < 2 ^ 32) × (0 < size) × Few l.old × (value l.old * k ^ n < 2 ^ (32 * length l.old)) }
    ensures { Holds (length l.old) l.new (value l.old * k ^ n) }
{
    limbs::times_power(l, big, n / size);
    limbs::times_power(l, k, n % size);
}

// Over k, n times over; whether every division came out even.
fn over_long(l: &mut [u64], k: u64, big: u64, size: u64, n: u64) -> bool
    requires { (0 < k) × (k < 2 ^ 32) × (big ≡ k ^ size) × (big < 2 ^ 32) × (0 < size) × Few l.old }
    ensures { Holds (length l.old) l.new (value l.old / k ^ n) × (result ≡ eqb (value l.old % k ^ n) 0) }
{
    let first = limbs::over_power(l, big, n / size);
    let second = limbs::over_power(l, k, n % size);
    second & first
}
