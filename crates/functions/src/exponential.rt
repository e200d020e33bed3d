// exp from -708 to 709: the sum at f in words, the terms of even and of odd degree apart, and 2^k in the exponent's field.
ghost use Rattle.std.specs.Prelude.{◌≡◌, ◌^◌, ◌≤◌};
ghost use Rattle.functions.specs.Exp.{fixed_exp, exp_of, ExpRange};

use crate::{pack, reduce, word};

// L in units of 2^-62.
const LN2: u64 = 0x2C5C85FDF473DE6B;

// 2^62 times the terms of even degree, over the square's powers.
const EVEN: [u64; 7] = [
    4611686018427387904,
    2305843009213693952,
    192153584101141162,
    6405119470038038,
    114377133393536,
    1270857037705,
    9627704831,
];

// 2^62 times the terms of odd degree, over f as well.
const ODD: [u64; 7] = [
    4611686018427387904,
    768614336404564650,
    38430716820228232,
    915017067148291,
    12708570377059,
    115532457973,
    740592679,
];

// exp within its range.
pub fn exp_near(x: f64) -> f64
    requires { ExpRange x }
    ensures { result ≡ exp_of x }
{
    let r = reduce::reduction(LN2, x);
    if reduce::negative(x) {
        pack::nearest(1023 - r.k, fixed_exp(!r.under, r.f))
    } else {
        pack::nearest(1023 + r.k, fixed_exp(r.under, r.f))
    }
}

// 2^62 exp(f), or exp(-f), f in units of 2^-64 and at most L / 2.
fn fixed_exp(negative: bool, f: u64) -> u64
    requires { f ≤ 6393154322601327830 }
    ensures { result ≡ fixed_exp negative f }
{
    let y = word::upper(f, f);
    let e = word::horner(&EVEN, y);
    let o = word::upper(f, word::horner(&ODD, y));
    if negative { e - o } else { e + o }
}
