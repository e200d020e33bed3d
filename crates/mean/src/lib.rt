// The mean of a sum that crate `exact` keeps: plus less minus, two rows of 66 limbs, over a count, correctly rounded.
// Whoever keeps a sum over many runs ends with it. The one public function is total.
#![tactic(auto)]

mod leading; // leading.rt: the digits of a long number that a float keeps, with a mark for what lies below
mod limbs; // limbs.rt: a row of limbs less another, and over a small number
mod pack; // pack.rt: a float from its digits

ghost use Rattle.std.specs.Prelude.{◌≡◌, ◌-◌, ◌*◌, ◌^◌, ◌<◌, ◌≤◌, length};
ghost use Rattle.std.specs.Float.{binary64};
ghost use Rattle.std.specs.Float.Ieee.{round};
ghost use Rattle.numbers.specs.Limits.{sum_limbs};
ghost use Rattle.exact.specs.Limbs.{value};
ghost use Rattle.mean.specs.Mean.{mean_of};

use numbers::limit::SUM_LIMBS;

// Counts from 2^32 on are not divided by.
const COUNTS: u64 = 1 << 32;

// The float nearest to plus less minus, in units of 2^-2148, over the count: of two as near the even one, an infinity where it is too large.
// 0.0 where the sum is 0, where a row is not 66 limbs, and for a count that is 0 or not below 2^32.
// A sum that is not 0 keeps its sign, even where it is too small for a float and the mean is a zero.
pub fn mean(plus: &[u64], minus: &[u64], count: u64) -> f64
    ensures { result ≡ mean_of plus.now minus.now count }
{
    if plus.len() != SUM_LIMBS || minus.len() != SUM_LIMBS || count == 0 || COUNTS <= count {
        return 0.0;
    }
    if exact::at_most(minus, plus) {
        return over_count(plus, minus, count, false);
    }
    over_count(minus, plus, count, true)
}

// What a is more than b, over the count, with a sign.
fn over_count(a: &[u64], b: &[u64], count: u64, minus: bool) -> f64
    requires { (length a.now ≡ sum_limbs) × (length b.now ≡ sum_limbs) × (value b.now ≤ value a.now) × (0 < count) × (count < 2 ^ 32) }
    ensures { result ≡ round binary64 minus (value a.now - value b.now) (count * 2 ^ 2148) }
{
    let mut row = limbs::difference(a, b);
    let left = limbs::over(&mut row, count);
    let d = leading::leading(&row, left == 0);
    pack::packed(minus, d.places, d.word)
}
