// A row of limbs of 64 bits, the lowest first: less another row, and over a small number.
ghost use Rattle.std.specs.Prelude.{◌≡◌, ◌+◌, ◌-◌, ◌*◌, ◌^◌, ◌<◌, ◌≤◌, length};
ghost use Rattle.numbers.specs.Limits.{sum_limbs};
ghost use Rattle.exact.specs.Limbs.{value};
ghost use Rattle.mean.specs.Rows.{Row, Divided};

use numbers::limit::SUM_LIMBS;

// 2^32: halves of a limb.
const HALF: u64 = 1 << 32;

// a less b.
pub fn difference(a: &[u64], b: &[u64]) -> [u64; SUM_LIMBS]
    requires { (length a.now ≡ sum_limbs) × (length b.now ≡ sum_limbs) × (value b.now ≤ value a.now) }
    ensures { Row result (value a.now - value b.now) }
{
    let mut r = exact::empty();
    let mut borrow = false;
    for i in 0..SUM_LIMBS {
        let (word, left) = a[i].borrowing_sub(b[i], borrow);
        r[i] = word;
        borrow = left;
    }
    r
}

// Over d, from the highest limb down; what is left.
pub fn over(l: &mut [u64], d: u64) -> u64
    requires { (0 < d) × (d < 2 ^ 32) }
    ensures { Divided l.old d result l.new }
{
    let mut left = 0;
    for i in (0..l.len()).rev() {
        let (whole, rest) = part(left, l[i], d);
        l[i] = whole;
        left = rest;
    }
    left
}

// left 2^64 + x over d, and what is left. kept: by halves of 32 bits, so that each step divides one word.
fn part(left: u64, x: u64, d: u64) -> (u64, u64)
    requires { (left < d) × (d < 2 ^ 32) }
    ensures { (result.0 * d + result.1 ≡ left * 2 ^ 64 + x) × (result.1 < d) }
{
    let high = left * HALF + x / HALF;
    let low = high % d * HALF + x % HALF;
    (high / d * HALF + low / d, low % d)
}
