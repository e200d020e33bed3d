// ln of a finite x above zero: e and m from the leading digits, z = (m - 1) / (m + 1) by three divisions, and the series in words.
ghost use Rattle.std.specs.Prelude.{◌≡◌, ◌+◌, ◌-◌, ◌*◌, ◌/◌, ◌^◌, ◌<◌, ◌≤◌, Bool, false, T, if◌then◌else◌};
ghost use Rattle.std.specs.Float.Ieee.{neg};
ghost use Rattle.std.specs.Float.Ieee.Positive.{positive};
ghost use Rattle.functions.specs.Words.{size_of};
ghost use Rattle.functions.specs.Exp.{ell};
ghost use Rattle.functions.specs.Ln.{ln_word, z_word, one_of, ln_size, ln_float, unit_of, minus_of, place_of, ln_answer, ln_positive, Digits};
ghost use Rattle.functions.specs.Laws.Leading.{Leading};

use crate::pack::LEADING;
use crate::{pack, reduce, word};

// 3/2 as a number of 53 digits is written: from there on m is halved, and so below 1.
const THREE_HALVES: u64 = 3 << 51;

// The digits of z that a division gives, and how many numbers they can be.
const TURN: u64 = 21;

const PART: u64 = 1 << TURN;

// 2^62 times 1 + y / 3 + y^2 / 5 + .., y in units of 2^-64.
const SERIES: [u64; 10] = [
    4611686018427387904,
    1537228672809129301,
    922337203685477580,
    658812288346769700,
    512409557603043100,
    419244183493398900,
    354745078340568300,
    307445734561825860,
    271275648142787523,
    251578777698996783,
];

// ln of a finite x above zero.
pub fn ln_positive(x: f64) -> f64
    requires { T (positive x) }
    ensures { result ≡ ln_positive x }
{
    let b = f64::to_bits(x);
    let l = leading((b >> 52) & 0x7ff, b & 0xf_ffff_ffff_ffff);
    ln_answer(l.c, l.q, THREE_HALVES <= l.q)
}

// q * 2^(c - 53), q of 53 digits.
#[derive(Clone, Copy)]
pub struct Head {
    pub q: u64,
    pub c: u64,
}

// The leading digits of the number that a field and digits stand for, in units of 2^-1074, and how many digits it has.
fn leading(field: u64, digits: u64) -> Head
    requires { (field ≤ 2046) × (digits < 2 ^ 52) × (1 ≤ field + digits) }
    ensures { Leading (size_of field digits) result.q result.c }
{
    if 0 < field {
        return Head {
            q: digits + LEADING,
            c: field + 52,
        };
    }
    let z = digits.leading_zeros() as u64;
    Head {
        q: digits << (z - 11),
        c: 64 - z,
    }
}

// The answer at q * 2^(c - 1127).
fn ln_answer(c: u64, q: u64, h: bool) -> f64
    requires { (c ≤ 2098) × Digits h q }
    ensures { result ≡ ln_answer c q h }
{
    let p = place_of(c, h);
    let minus = minus_of(p, h);
    let w = ln_word(z_word(q, one_of(h)));
    ln_float(minus, p.abs_diff(1075), w, minus == h)
}

// e + 1075.
fn place_of(c: u64, h: bool) -> u64
    requires { c ≤ 2098 }
    ensures { result ≡ place_of c h }
{
    if h { c + 1 } else { c }
}

// Whether e is below 0, or z where e is 0.
fn minus_of(p: u64, h: bool) -> bool
    ensures { result ≡ minus_of p h }
{
    if p == 1075 { h } else { p < 1075 }
}

// 1 as q is written.
fn one_of(h: bool) -> u64
    ensures { result ≡ one_of h }
{
    if h { 2 * LEADING } else { LEADING }
}

// z = (q - o) / (q + o) in size, in units of 2^-64: 21 digits at each division.
fn z_word(q: u64, o: u64) -> u64
    requires { (2 ^ 53 ≤ q + o) × (q + o < 2 ^ 54) × (1 ≤ q) × (1 ≤ o) }
    ensures { result ≡ z_word q o }
{
    let m = (q + o) * 512;
    let first = reduce::divided(m, q.abs_diff(o) * 512, TURN);
    let second = reduce::divided(m, first.left, TURN);
    let third = reduce::divided(m, second.left, TURN);
    2 * ((first.k * PART + second.k) * PART + third.k)
}

// z + z^3 / 3 + .. in units of 2^-62, f being z in units of 2^-64 and at most 1 / 5.
fn ln_word(f: u64) -> u64
    requires { f ≤ 3689348814741910324 }
    ensures { result ≡ ln_word f }
{
    word::upper(f, word::horner(&SERIES, word::upper(f, f)))
}

// e L and the series, added or taken away, with the sign.
fn ln_float(minus: bool, k: u64, w: u64, same: bool) -> f64
    requires { (k ≤ 1075) × (w ≤ 2 ^ 60 + 1) × (same ≡ false → 1 ≤ k) }
    ensures { result ≡ (if minus then neg (ln_float k w same) else ln_float k w same) }
{
    let t = unit_of(k);
    pack::signed(minus, 1021 + t, ln_size(t, k, w, same))
}

// The unit that keeps the size in a word.
fn unit_of(k: u64) -> u64
    ensures { result ≡ unit_of k }
{
    if k < 12 { 4 } else { 10 }
}

// The size in units of 2^(t - 64), L by its two halves.
fn ln_size(t: u64, k: u64, w: u64, same: bool) -> u64
    requires { (3 ≤ t) × (t ≤ 32) × (k ≤ 1075) × (k * ell / 2 ^ t + w / 2 ^ (t - 3) < 2 ^ 64) × (same ≡ false → w / 2 ^ (t - 3) ≤ k * ell / 2 ^ t) }
    ensures { result ≡ ln_size t k w same }
{
    let l = ((k * 0xB17217F7) << (32 - t)) + ((k * 0xD1CF79AC) >> t);
    if same {
        l + (w >> (t - 3))
    } else {
        l - (w >> (t - 3))
    }
}
