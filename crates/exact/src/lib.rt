// Exact sums of floats and of their products, with no rounding at all: a sum is plus less minus, two rows of 66 limbs that the caller lends, in units of 2^-2148.
// The judge sums with it, and whoever keeps a sum over many runs. Every function here is total: what cannot be added is refused, and then nothing changes.
#![tactic(auto)]

mod limbs; // limbs.rt: a number added to a row of limbs, the carry passed on
mod parts; // parts.rt: a finite float as digits at a place

ghost use Rattle.std.specs.Prelude.{◌≡◌, ◌+◌, ◌*◌, ◌^◌, ◌<◌, T, length, nat_le, slice_index};
ghost use Rattle.std.specs.Float.Ieee.Scale.{finite};
ghost use Rattle.numbers.specs.Limits.{sum_limbs};
ghost use Rattle.exact.specs.Limbs.{value, limbs_of};
ghost use Rattle.num.specs.Literals.{one};
ghost use Rattle.num.specs.Floats.{sign};
ghost use Rattle.exact.specs.Exact.{times, size, units};
ghost use Rattle.exact.specs.Kept.{has_room, rows_of, check_of, kept_of, within_of};
ghost use Rattle.exact.specs.Rows.{Room, Adds, Small};

use numbers::limit::SUM_LIMBS;
pub use parts::Parts;

// The place of a row's topmost limb.
const TOP: usize = SUM_LIMBS - 1;

// 2^63: a row whose topmost limb is below it is below 2^4223 units.
const ROOM: u64 = 1 << 63;

// Why a number is not added. The rows stay as they were.
#[derive(Clone, Copy, Debug, PartialEq, Eq, Hash)]
pub enum Unkept {
    // a factor is an infinity or a NaN
    NotFinite,
    // a row stands at 2^4223 units or above
    NoRoom,
    // a row is not 66 limbs long
    WrongLength,
}

// A float's digits, their place and its sign, if it is finite; an infinity and a NaN have no digits.
pub fn digits_of(x: f64) -> Parts
    ensures { T (finite x) → (result.digits * 2 ^ result.place ≡ units x) × Small result.digits result.place × (result.minus ≡ sign x) }
{
    if num::finite(x) {
        return parts::parts_of(x);
    }
    Parts {
        digits: 0,
        place: 0,
        minus: false,
    }
}

// A row that stands for 0.
pub fn empty() -> [u64; SUM_LIMBS]
    ensures { result ≡ limbs_of sum_limbs 0 }
{
    [0; SUM_LIMBS]
}

// Makes a row that is lent stand for 0.
pub fn clear(row: &mut [u64])
    ensures { row.new ≡ limbs_of (length row.old) 0 }
{
    row.fill(0);
}

// Adds x to plus less minus. With the two rows exchanged x is taken off.
pub fn keep(plus: &mut [u64], minus: &mut [u64], x: f64) -> Result<(), Unkept>
    ensures { rows_of result plus.new minus.new ≡ kept_of plus.old minus.old x one }
{
    keep_product(plus, minus, x, 1.0)
}

// Adds x times y to plus less minus. With the two rows exchanged it is taken off.
pub fn keep_product(plus: &mut [u64], minus: &mut [u64], x: f64, y: f64) -> Result<(), Unkept>
    ensures { rows_of result plus.new minus.new ≡ kept_of plus.old minus.old x y }
{
    check(plus, minus, x, y)?;
    add_term(plus, minus, x, y);
    Ok(())
}

// Whether the row a stands for at most what b stands for, whatever their lengths.
pub fn at_most(a: &[u64], b: &[u64]) -> bool
    ensures { result ≡ nat_le (value a.now) (value b.now) }
{
    for i in (0..a.len().max(b.len())).rev() {
        let p = limb(a, i);
        let q = limb(b, i);
        if p != q {
            return p < q;
        }
    }
    true
}

// Whether plus less minus is in size at most t's size. What is not two rows of 66 limbs and a finite t is within nothing.
pub fn within(plus: &[u64], minus: &[u64], t: f64) -> bool
    ensures { result ≡ within_of plus.now minus.now t }
{
    plus.len() == SUM_LIMBS
        && minus.len() == SUM_LIMBS
        && num::finite(t)
        && reaches(minus, t, plus)
        && reaches(plus, t, minus)
}

// What stands against adding x times y.
fn check(plus: &[u64], minus: &[u64], x: f64, y: f64) -> Result<(), Unkept>
    ensures { result ≡ check_of plus.now minus.now x y }
{
    if plus.len() != SUM_LIMBS || minus.len() != SUM_LIMBS {
        return Err(Unkept::WrongLength);
    }
    if !num::finite(x) || !num::finite(y) {
        return Err(Unkept::NotFinite);
    }
    if !has_room(plus) || !has_room(minus) {
        return Err(Unkept::NoRoom);
    }
    Ok(())
}

// Whether a row is below 2^4223 units: its topmost limb says it.
fn has_room(l: &[u64]) -> bool
    requires { length l.now ≡ sum_limbs }
    ensures { result ≡ has_room l.now }
{
    l[TOP] < ROOM
}

// The product goes to the row of its sign.
fn add_term(plus: &mut [u64], minus: &mut [u64], x: f64, y: f64)
    requires { T (finite x) × T (finite y) × Room plus.old × Room minus.old }
    ensures { Adds plus.old minus.old (times x y) plus.new minus.new }
{
    let p = parts::parts_of(x);
    let q = parts::parts_of(y);
    if p.minus == q.minus {
        parts::add_size(plus, p, q);
    } else {
        parts::add_size(minus, p, q);
    }
}

// Whether b is at most a and t's size together. One limb more than a row has leaves room for any t.
fn reaches(a: &[u64], t: f64, b: &[u64]) -> bool
    requires { (length a.now ≡ sum_limbs) × T (finite t) }
    ensures { result ≡ nat_le (value b.now) (value a.now + size t) }
{
    let mut sum = limbs::widened(a);
    parts::add_size(&mut sum, parts::parts_of(t), parts::parts_of(1.0));
    at_most(b, &sum)
}

// The limb at i; past the end there is 0.
pub fn limb(l: &[u64], i: usize) -> u64
    ensures { result ≡ slice_index l.now i }
{
    l.get(i).copied().unwrap_or(0)
}
