// Words of 64 bits as fixed-point numbers: the upper half of a product, and sums by Horner's rule.
ghost use Rattle.std.specs.Prelude.{◌≡◌, ◌+◌, ◌-◌, ◌*◌, ◌/◌, ◌^◌, ◌≤◌};
ghost use Rattle.functions.specs.Words.{horner, falling, Falls};

// a * b / 2^64.
pub fn upper(a: u64, b: u64) -> u64
    ensures { result ≡ a * b / 2 ^ 64 }
{
    ((a as u128 * b as u128) >> 64) as u64
}

// c0 + y (c1 + y (c2 + ..)), y in units of 2^-64, from the last word on.
pub fn horner<const N: usize>(words: &[u64; N], y: u64) -> u64
    requires within { y ≤ 2 ^ 62 }
    requires falls { Falls (2 ^ 62) words.now }
    ensures { result ≡ horner words.now y }
{
    let mut a = 0;
    for &c in words.iter().rev() {
        a = next(c, a, y);
    }
    a
}

// c0 - y (c1 - y (c2 - ..)).
pub fn falling<const N: usize>(words: &[u64; N], y: u64) -> u64
    requires { Falls (2 ^ 62) words.now }
    ensures { result ≡ falling words.now y }
{
    let mut a = 0;
    for &c in words.iter().rev() {
        a = less(c, a, y);
    }
    a
}

// c + a * y.
fn next(c: u64, a: u64, y: u64) -> u64
    requires { (c ≤ 2 ^ 62) × (y ≤ 2 ^ 62) }
    ensures { result ≡ c + a * y / 2 ^ 64 }
{
    c + upper(a, y)
}

// c - a * y.
fn less(c: u64, a: u64, y: u64) -> u64
    requires { a ≤ c }
    ensures { (result ≡ c - a * y / 2 ^ 64) × (result ≤ c) }
{
    c - upper(a, y)
}
