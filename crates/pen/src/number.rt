// Floats for a person and for a machine: decimal text that reads back to the same bits, and the bits themselves.
ghost use Rattle.std.specs.Prelude.{◌≡◌, ◌-◌, ◌^◌, ◌<◌, to_bits};
ghost use Rattle.std.specs.Float.{binary64};
ghost use Rattle.pen.specs.Layout.{digits_in, layout_of, powered_of, power_size, parts_of};

use decimal::Decimal;
use std::fmt;
use std::fmt::{Display, Formatter, Write};

// A float in decimal: with an exponent below 1e-4 and from 1e16 on.
#[derive(Clone, Copy)]
pub struct Number(pub f64);

impl Display for Number {
    fn fmt<W: Write>(&self, f: &mut Formatter<W>) -> fmt::Result {
        match decimal::decimal_of(self.0) {
            Decimal::Nan => write!(f, "NaN"),
            Decimal::Infinite { minus } => write!(f, "{}inf", sign(minus)),
            Decimal::Finite {
                minus,
                digits,
                place,
            } => {
                let digits = Digits { digits, place };
                write!(f, "{}{digits}", sign(minus))
            }
        }
    }
}

// Digits times 10^(place - 326).
#[derive(Clone, Copy)]
pub struct Digits {
    pub digits: u64,
    pub place: u64,
}

impl Display for Digits {
    fn fmt<W: Write>(&self, f: &mut Formatter<W>) -> fmt::Result {
        let digits = self.digits;
        match laid_out(count(digits), self.place) {
            Some(Layout::Whole(zeros)) => {
                let zeros = zeros as usize;
                write!(f, "{digits}{:0>zeros$}.0", "")
            }
            Some(Layout::Below(zeros)) => {
                let zeros = zeros as usize;
                write!(f, "0.{:0>zeros$}{digits}", "")
            }
            Some(Layout::Inside(behind)) => write!(f, "{}", Pointed { digits, behind }),
            Some(
                Layout::Power {
                    behind,
                    minus,
                    size,
                },
            ) => write!(f, "{}e{}{size}", Pointed { digits, behind }, sign(minus)),
            None => Ok(()),
        }
    }
}

// Digits with a point before the last of them, so many as are behind it; none with more behind it than a number of 64 bits has.
#[derive(Clone, Copy)]
struct Pointed {
    digits: u64,
    behind: u64,
}

impl Display for Pointed {
    fn fmt<W: Write>(&self, f: &mut Formatter<W>) -> fmt::Result {
        if self.behind >= 20 {
            return Ok(());
        }
        let parts = parted(self.digits, self.behind);
        write!(f, "{}", parts.before)?;
        if self.behind == 0 {
            return Ok(());
        }
        let zeros = parts.zeros as usize;
        write!(f, ".{:0>zeros$}{}", "", parts.behind)
    }
}

// How the digits of a number stand: zeros behind them and then the point, zeros between the point and them, so many of them behind the point; or so many behind it and a power of ten.
#[derive(Clone, Copy, Debug, PartialEq, Eq)]
enum Layout {
    Whole(u64),
    Below(u64),
    Inside(u64),
    Power { behind: u64, minus: bool, size: u64 },
}

// Digits on both sides of a point: the number before it, zeros behind it, and the number behind these.
#[derive(Clone, Copy, Debug, PartialEq, Eq)]
struct Parts {
    before: u64,
    zeros: u64,
    behind: u64,
}

// The 64 bits of x; of every NaN the same.
pub fn bits(x: f64) -> u64
    ensures { result ≡ to_bits binary64 x }
{
    if x != x {
        return 0x7ff8_0000_0000_0000;
    }
    f64::to_bits(x)
}

pub fn sign(minus: bool) -> &'static str {
    if minus { "-" } else { "" }
}

// How n digits times 10^(place - 326) stand: with a power of ten below 1e-4 and from 1e16 on. None for a place beyond all floats.
fn laid_out(n: u64, place: u64) -> Option<Layout>
    requires { (0 < n) × (n < 32) }
    ensures { result ≡ layout_of n place }
{
    if 1000 < place {
        return None;
    }
    let end = place + n;
    if end < 323 {
        return Some(powered(n, end));
    }
    if 342 < end {
        return Some(powered(n, end));
    }
    if 326 <= place {
        return Some(Layout::Whole(place - 326));
    }
    if end <= 326 {
        return Some(Layout::Below(326 - end));
    }
    Some(Layout::Inside(326 - place))
}

// n digits, the first of them before the point, and the power of ten of that digit, which ends at place `end`.
fn powered(n: u64, end: u64) -> Layout
    requires { 0 < n }
    ensures { result ≡ powered_of n end }
{
    Layout::Power {
        behind: n - 1,
        minus: end < 327,
        size: power_size(end),
    }
}

// The size of the power of ten of a number's first digit, which ends at place `end`.
fn power_size(end: u64) -> u64
    ensures { result ≡ power_size end }
{
    end.abs_diff(327)
}

// The digits before a point and the k behind it.
fn parted(digits: u64, k: u64) -> Parts
    requires { k < 20 }
    ensures { result ≡ parts_of digits k }
{
    let t = ten_to(k);
    let behind = digits % t;
    Parts {
        before: digits / t,
        zeros: k.saturating_sub(count(behind)),
        behind,
    }
}

// 10^k, of which 10^19 is the largest that a word holds.
fn ten_to(k: u64) -> u64
    requires { k < 20 }
    ensures { (result ≡ 10 ^ k) × (0 < result) }
{
    10u64.pow(k as u32)
}

// How many digits n has.
fn count(n: u64) -> u64
    ensures value { result ≡ digits_in n }
    ensures result_nonzero { (0 < result) × (result < 32) }
{
    let mut k: u64 = 1;
    for i in 0..19 {
        if ten_to(i + 1) <= n {
            k += 1;
        }
    }
    k
}
