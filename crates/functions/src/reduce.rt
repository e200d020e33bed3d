// The exact reduction of a float's size by a modulus, which exp and sin share, and the division under it, which ln has too.
ghost use Rattle.std.specs.Prelude.{◌≡◌, ℕ, ◌+◌, ◌*◌, ◌/◌, ◌%◌, ◌^◌, ◌<◌, ◌≤◌, false, T};
ghost use Rattle.std.specs.Float.Ieee.Scale.{finite};
ghost use Rattle.std.specs.Float.Ieee.Positive.{num, den};
ghost use Rattle.num.specs.Floats.{sign};
ghost use Rattle.functions.specs.Words.{size_of};
ghost use Rattle.functions.specs.Reduction.{nearest_of, left_of, below_of, k_of, f_top};

use crate::pack::LEADING;

// k, the size of f in units of 2^-64, and whether the size is below k times the modulus.
#[derive(Clone, Copy)]
pub struct Parts {
    pub k: u64,
    pub f: u64,
    pub under: bool,
}

// The reduction of x by m / 2^62.
pub fn reduction(m: u64, x: f64) -> Parts
    requires { (2 ^ 61 ≤ m) × (m < 2 ^ 63) × T (finite x) × (num x < 2 ^ 21 * den x) }
    ensures { (result.k ≡ k_of (4 * m) x) × (result.f ≡ f_top (4 * m) x / den x) × (result.under ≡ below_of (4 * m) (num x) (den x)) }
{
    let b = f64::to_bits(x);
    reduced(m, (b >> 52) & 0x7ff, b & 0xf_ffff_ffff_ffff)
}

// Whether x stands with a minus.
pub fn negative(x: f64) -> bool
    requires { T (finite x) }
    ensures { result ≡ sign x }
{
    0x8000_0000_0000_0000 <= f64::to_bits(x)
}

// The reduction by m / 2^62 of the size that an exponent's field and the digits stand for: that of every fraction n / d of this size.
fn reduced(m: u64, field: u64, digits: u64) -> Parts
    requires { (2 ^ 61 ≤ m) × (m < 2 ^ 63) × (field ≤ 1043) × (digits < 2 ^ 52) }
    ensures { (n d : ℕ) → 0 < d → n * 2 ^ 1074 ≡ size_of field digits * d → (result.k ≡ nearest_of (4 * m) n d) × (result.f ≡ left_of (4 * m) n d / d) × (result.under ≡ below_of (4 * m) n d) }
{
    if field < 1021 {
        return small(field, digits);
    }
    let p = divided(m, (digits + LEADING) * 256, field - 1021);
    if 2 * p.left < m {
        Parts {
            k: p.k,
            f: 4 * p.left,
            under: false,
        }
    } else {
        Parts {
            k: p.k + 1,
            f: 4 * (m - p.left),
            under: true,
        }
    }
}

// A size below 1/4 is its own f: nothing of it is left in units of 2^-64, or it is cut.
fn small(field: u64, digits: u64) -> Parts
    requires { (field < 1021) × (digits < 2 ^ 52) }
    ensures { ((n d : ℕ) → 0 < d → n * 2 ^ 1074 ≡ size_of field digits * d → result.f ≡ n * 2 ^ 64 / d) × (result.k ≡ 0) × (result.under ≡ false) }
{
    if field < 957 {
        return Parts {
            k: 0,
            f: 0,
            under: false,
        };
    }
    let q = digits + LEADING;
    Parts {
        k: 0,
        f: (q * 512) >> (1020 - field),
        under: false,
    }
}

#[derive(Clone, Copy)]
pub struct Quotient {
    pub k: u64,
    pub left: u64,
}

// start * 2^n divided by m. The leading digits of both give a quotient that is right or one too small.
pub fn divided(m: u64, start: u64, n: u64) -> Quotient
    requires { (2 ^ 61 ≤ m) × (m < 2 ^ 63) × (start < m) × (n ≤ 22) }
    ensures { (start * 2 ^ n ≡ result.k * m + result.left) × (result.left < m) × (result.k < 2 ^ n) }
{
    let k = ((start >> 21) << n) / ((m >> 21) + 1);
    let left = taken(start << n, k, m);
    if left < m {
        Quotient { k, left }
    } else {
        Quotient {
            k: k + 1,
            left: left - m,
        }
    }
}

// a - k * m, wrapped.
fn taken(a: u64, k: u64, m: u64) -> u64
    ensures { (result + k * m) % 2 ^ 64 ≡ a }
{
    a.wrapping_sub(k.wrapping_mul(m))
}
