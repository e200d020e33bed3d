// Numbers at the bottom of everything: little-endian reads out of bytes, a float of any 64 bits, the absolute value and the test for finite.
// Every function here is total. A byte past the end of a slice reads as 0. A number whose bytes are all there is one load, after the question whether they are.
#![tactic(auto)]

ghost use Rattle.std.specs.Prelude.{◌≡◌, ℕ, ◌+◌, ◌<◌, get_or};
ghost use Rattle.std.specs.Float.{binary64};
ghost use Rattle.std.specs.Float.Ieee.{of_bits};
ghost use Rattle.std.specs.Float.Ieee.Scale.{finite as finiteOf};
ghost use Rattle.num.specs.Le.{le16, le32, le64, float_at};
ghost use Rattle.num.specs.Floats.{absolute_of};

// The 16 bits at `at`.
pub fn u16_at(s: &[u8], at: usize) -> u16
    ensures { result ≡ le16 s.now at }
{
    u16::from_le_bytes(bytes_at(s, at))
}

// The 32 bits at `at`.
pub fn u32_at(s: &[u8], at: usize) -> u32
    ensures { result ≡ le32 s.now at }
{
    u32::from_le_bytes(bytes_at(s, at))
}

// The 64 bits at `at`.
pub fn u64_at(s: &[u8], at: usize) -> u64
    ensures { result ≡ le64 s.now at }
{
    u64::from_le_bytes(bytes_at(s, at))
}

// The N bytes from `at` on, of which those past the end are 0.
fn bytes_at<const N: usize>(s: &[u8], at: usize) -> [u8; N]
    ensures { (k : ℕ) → k < N → get_or result k 0 ≡ get_or s.now (at + k) 0 }
{
    let Some(rest) = s.get(at..) else {
        return [0; N];
    };
    if let Some(whole) = rest.first_chunk() {
        return *whole;
    }
    let mut bytes = [0; N];
    bytes[..rest.len()].copy_from_slice(rest);
    bytes
}

// The float whose 64 bits stand at `at`.
pub fn f64_at(s: &[u8], at: usize) -> f64
    ensures { result ≡ float_at s.now at }
{
    float_of(u64_at(s, at))
}

// The float of a bit pattern; every pattern of a NaN gives NaN.
pub fn float_of(bits: u64) -> f64
    ensures { result ≡ of_bits binary64 bits }
{
    if 0x7ff0000000000000 < bits % 0x8000000000000000 {
        f64::NAN
    } else {
        f64::from_bits(bits)
    }
}

// The absolute value: the sign is cleared, of a zero too, and a NaN stays one.
pub fn absolute(x: f64) -> f64
    ensures { result ≡ absolute_of x }
{
    x.abs()
}

// Whether x is neither an infinity nor a NaN.
pub fn finite(x: f64) -> bool
    ensures { result ≡ finiteOf x }
{
    x.is_finite()
}
