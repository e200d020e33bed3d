// A float from the digits that it keeps and two more.
ghost use Rattle.std.specs.Prelude.{◌≡◌, ◌+◌, ◌*◌, ◌^◌, ◌<◌, ◌≤◌, if◌then◌else◌, from_bits};
ghost use Rattle.std.specs.Float.{binary64};
ghost use Rattle.mean.specs.Leading.{pattern_of, nearest_fourth};

// 2^52: the weight of the exponent's field.
const FIELD: u64 = 1 << 52;

// The bits of infinity.
const INFINITY: u64 = 2047 << 52;

// word / 4, to the nearest whole number, units of 2^(places - 1074), with a sign.
pub fn packed(minus: bool, places: u64, word: u64) -> f64
    requires { (places ≤ 3097) × (word < 2 ^ 55) }
    ensures { result ≡ from_bits binary64 ((if minus then 2 ^ 63 else 0) + pattern_of places (nearest_fourth word)) }
{
    let digits = (word + 1 + word / 4 % 2) / 4;
    f64::from_bits(sign_bit(minus) + (places * FIELD + digits).min(INFINITY))
}

fn sign_bit(minus: bool) -> u64
    ensures { result ≡ (if minus then 2 ^ 63 else 0) }
{
    if minus { 1 << 63 } else { 0 }
}
