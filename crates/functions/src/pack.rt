// A float from a fixed-point number.
ghost use Rattle.std.specs.Prelude.{◌≡◌, ◌^◌, if◌then◌else◌, from_bits};
ghost use Rattle.std.specs.Float.{binary64};
ghost use Rattle.std.specs.Float.Ieee.{neg};
ghost use Rattle.functions.specs.Words.{packed, Room};

// The digit that leads the 53 of a float, which its bits leave out.
pub const LEADING: u64 = 1 << 52;

// p * 2^(b - 1085), rounded to 53 digits.
pub fn nearest(b: u64, p: u64) -> f64
    requires { Room b p }
    ensures { result ≡ from_bits binary64 (packed b p) }
{
    f64::from_bits(packed_bits(b, p))
}

// The same with a sign. The sign is added to the bits, so that there is no branch to guess.
pub fn signed(minus: bool, b: u64, p: u64) -> f64
    requires { Room b p }
    ensures { result ≡ (if minus then neg (from_bits binary64 (packed b p)) else from_bits binary64 (packed b p)) }
{
    f64::from_bits(packed_bits(b, p) + sign_bit(minus))
}

fn sign_bit(minus: bool) -> u64
    ensures { result ≡ (if minus then 2 ^ 63 else 0) }
{
    u64::from(minus) << 63
}

fn packed_bits(b: u64, p: u64) -> u64
    requires { Room b p }
    ensures { result ≡ packed b p }
{
    if p == 0 {
        return 0;
    }
    let z = p.leading_zeros() as u64;
    let digits = (((p << z) >> 10) + 1) >> 1;
    (b - z) * LEADING + digits
}
