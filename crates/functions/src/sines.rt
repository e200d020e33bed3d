// sin up to 2^20 in size: by k mod 2 the sine's or the cosine's sum at f in words.
ghost use Rattle.std.specs.Prelude.{◌≡◌, ℕ, ◌*◌, ◌^◌, ◌<◌, ◌≤◌, Bool, T, if◌then◌else◌};
ghost use Rattle.std.specs.Float.Ieee.{neg};
ghost use Rattle.std.specs.Float.Ieee.Scale.{finite};
ghost use Rattle.std.specs.Float.Ieee.Positive.{num, den};
ghost use Rattle.functions.specs.Words.{size_of};
ghost use Rattle.functions.specs.Sin.{wave_word, wave_side, small_size, sin_small, sin_large, sin_near, SinRange};

use crate::pack::LEADING;
use crate::{pack, reduce, word};

// Q in units of 2^-62.
const QUARTER: u64 = 0x6487ED5110B4611A;

// The sine's size over f, in units of 2^-62, over the square's powers; each term has the other sign of the one before.
const SINE: [u64; 9] = [
    4611686018427387904,
    768614336404564650,
    38430716820228232,
    915017067148291,
    12708570377059,
    115532457973,
    740592679,
    3526631,
    12965,
];

// The cosine's size.
const COSINE: [u64; 9] = [
    4611686018427387904,
    2305843009213693952,
    192153584101141162,
    6405119470038038,
    114377133393536,
    1270857037705,
    9627704831,
    52899477,
    220414,
];

// sin within its range.
pub fn sin_near(x: f64) -> f64
    requires { SinRange x }
    ensures { result ≡ sin_near x }
{
    let b = f64::to_bits(x);
    let field = (b >> 52) & 0x7ff;
    if field < 1021 {
        return sin_small(x);
    }
    sin_large(x)
}

// sin below 1/4 in size: x by its own digits, times the sum over f; and x itself where it is tiny.
fn sin_small(x: f64) -> f64
    requires { T (finite x) × (4 * num x < den x) }
    ensures { result ≡ sin_small x }
{
    let b = f64::to_bits(x);
    let field = (b >> 52) & 0x7ff;
    if field < 959 {
        return x;
    }
    small_wave(reduce::negative(x), field, b & 0xf_ffff_ffff_ffff)
}

// The same from the sign, the field and the digits, at every fraction n / d that these stand for.
fn small_wave(minus: bool, field: u64, digits: u64) -> f64
    requires { (959 ≤ field) × (field < 1021) × (digits < 2 ^ 52) }
    ensures { (n d : ℕ) → 0 < d → n * 2 ^ 1074 ≡ size_of field digits * d → result ≡ (if minus then neg (small_size n d) else small_size n d) }
{
    let q = digits + LEADING;
    let f = (q * 512) >> (1020 - field);
    let p = word::upper(q * 2048, word::falling(&SINE, word::upper(f, f)));
    pack::signed(minus, field + 1, p)
}

// sin from 1/4 up.
fn sin_large(x: f64) -> f64
    requires { SinRange x }
    ensures { result ≡ sin_large x }
{
    let p = reduce::reduction(QUARTER, x);
    let minus = reduce::negative(x) != wave_side(p.k, p.under);
    pack::signed(minus, 1023, wave_word(p.k, p.f))
}

// By k mod 2 the sine or the cosine of f, in units of 2^-62.
fn wave_word(k: u64, f: u64) -> u64
    ensures { result ≡ wave_word k f }
{
    let y = word::upper(f, f);
    if k % 2 == 0 {
        word::upper(f, word::falling(&SINE, y))
    } else {
        word::falling(&COSINE, y)
    }
}

// Whether the answer's sign is not the argument's.
fn wave_side(k: u64, under: bool) -> bool
    ensures { result ≡ wave_side k under }
{
    if k % 2 == 0 {
        (2 <= k % 4) != under
    } else {
        2 <= k % 4
    }
}
