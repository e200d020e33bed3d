// A long number, as limbs of 32 bits, the lowest first: times a small number, over a small number, and again.
ghost use Rattle.std.specs.Prelude.{◌≡◌, ◌+◌, ◌*◌, ◌/◌, ◌%◌, ◌^◌, ◌<◌, eqb, length};
ghost use Rattle.decimal.specs.Limbs.{value, Few, Holds, Divided};

// One more than the most that a limb holds.
const BASE: u64 = 1 << 32;

// The limbs of a: 1,152 bits hold every number that a float's digits pass through.
pub fn limbs_of(a: u64) -> [u64; 36]
    ensures { Holds 36 result a }
{
    let mut l = [0; 36];
    l[0] = a % BASE;
    l[1] = a / BASE;
    l
}

// The number of the limbs, where it is below 2^64.
pub fn number_of(l: &[u64]) -> u64
    requires { (1 < length l.now) × Few l.now × (value l.now < 2 ^ 64) }
    ensures { result ≡ value l.now }
{
    l[0] + BASE * l[1]
}

// Times k, n times over.
pub fn times_power(l: &mut [u64], k: u64, n: u64)
    requires { (0 < k) × (k < 2 ^ 32) × Few l.old × (value l.old * k ^ n < 2 ^ (32 * length l.old)) }
    ensures { Holds (length l.old) l.new (value l.old * k ^ n) }
{
    for i in 0..n {
        times(l, k);
    }
}

// Over d, n times over; whether every division came out even.
pub fn over_power(l: &mut [u64], d: u64, n: u64) -> bool
    requires { (0 < d) × (d < 2 ^ 32) × Few l.old }
    ensures { Holds (length l.old) l.new (value l.old / d ^ n) × (result ≡ eqb (value l.old % d ^ n) 0) }
{
    let mut even = true;
    for i in 0..n {
        even &= over(l, d) == 0;
    }
    even
}

// Times k.
fn times(l: &mut [u64], k: u64)
    requires { (k < 2 ^ 32) × Few l.old × (value l.old * k < 2 ^ (32 * length l.old)) }
    ensures { Holds (length l.old) l.new (value l.old * k) }
{
    let mut carry: u64 = 0;
    for limb in l.iter_mut() {
        let t = *limb * k + carry;
        *limb = t % BASE;
        carry = t / BASE;
    }
}

// Over d, from the highest limb down; what is left.
fn over(l: &mut [u64], d: u64) -> u64
    requires { (0 < d) × (d < 2 ^ 32) × Few l.old }
    ensures { Divided l.old d result l.new }
{
    let mut left: u64 = 0;
    for i in (0..l.len()).rev() {
        let t = left * BASE + l[i];
        l[i] = t / d;
        left = t % d;
    }
    left
}
