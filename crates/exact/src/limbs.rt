// A number added to a row of limbs of 64 bits: a limb keeps what it has room for, and the carry is passed on.
ghost use Rattle.std.specs.Prelude.{◌≡◌, ◌+◌, ◌*◌, ◌/◌, ◌%◌, ◌^◌, ◌<◌, length};
ghost use Rattle.std.specs.Int.{from_bool};
ghost use Rattle.numbers.specs.Limits.{sum_limbs};
ghost use Rattle.exact.specs.Limbs.{value};
ghost use Rattle.exact.specs.Rows.{Sum, Carried, Wide};

use numbers::limit::SUM_LIMBS;

// Limbs in a row with one limb more.
const WIDE: usize = SUM_LIMBS + 1;

// Adds a b 2^bit.
pub fn add_product(limbs: &mut [u64], bit: usize, a: u64, b: u64)
    requires { (a < 2 ^ 53) × (b < 2 ^ 53) × (bit / 64 + 2 < length limbs.old) × (value limbs.old + a * b * 2 ^ bit < 2 ^ (64 * length limbs.old)) }
    ensures { Sum limbs.old (a * b * 2 ^ bit) limbs.new }
{
    let (low, high) = a.carrying_mul(b, 0);
    let at = bit / 64;
    let s = (bit % 64) as u64;
    let c0 = add_word(limbs, at, low_word(low, s), false);
    let c1 = add_word(limbs, at + 1, middle_word(low, high, s), c0);
    let c2 = add_word(limbs, at + 2, high_word(high, s), c1);
    carry_on(limbs, at + 3, c2);
}

// The row with one limb more, which is 0.
pub fn widened(l: &[u64]) -> [u64; WIDE]
    requires { length l.now ≡ sum_limbs }
    ensures { Wide l.now result }
{
    let mut r = [0; WIDE];
    // kept: a loop, since `copy_from_slice` may call memmove, and the archive asks the C library for memcpy and memset alone.
    for i in 0..l.len() {
        r[i] = l[i];
    }
    r
}

// Adds word and carry at the limb `at`, and answers the carry for the limb above.
fn add_word(limbs: &mut [u64], at: usize, word: u64, carry: bool) -> bool
    requires { at < length limbs.old }
    ensures { Carried limbs.old at (word + from_bool carry) (from_bool result) limbs.new }
{
    let (sum, carried) = limbs[at].carrying_add(word, carry);
    limbs[at] = sum;
    carried
}

// Passes a carry on to the limbs from `from` up.
fn carry_on(limbs: &mut [u64], from: usize, carry: bool)
    requires { value limbs.old + from_bool carry * 2 ^ (64 * from) < 2 ^ (64 * length limbs.old) }
    ensures { Sum limbs.old (from_bool carry * 2 ^ (64 * from)) limbs.new }
{
    let mut left = carry;
    for i in from..limbs.len() {
        if !left {
            return;
        }
        left = add_word(limbs, i, 0, left);
    }
}

// The low word of p 2^s.
fn low_word(p: u64, s: u64) -> u64
    requires { s < 64 }
    ensures { result ≡ p * 2 ^ s % 2 ^ 64 }
{
    p << s
}

// The high word of p 2^s.
fn high_word(p: u64, s: u64) -> u64
    requires { s < 64 }
    ensures { result ≡ p * 2 ^ s / 2 ^ 64 }
{
    (p >> (63 - s)) >> 1
}

// The word that the low word's high part and the high word's low part share.
fn middle_word(low: u64, high: u64, s: u64) -> u64
    requires { s < 64 }
    ensures { result ≡ low * 2 ^ s / 2 ^ 64 + high * 2 ^ s % 2 ^ 64 }
{
    high_word(low, s) + low_word(high, s)
}
