// The judge: does the vector solve the system, row by row, within the row's tolerance, worked out without any rounding? It stands on exact sums alone and changes nothing.
#![tactic(auto)]

ghost use Rattle.std.specs.Prelude.{◌≡◌, true, false, ◌+◌, ◌*◌, ◌<◌, ◌≤◌, T};
ghost use Rattle.std.specs.Float.Ieee.Scale.{finite};
ghost use Rattle.exact.specs.Exact.{none, within};
ghost use Rattle.exact.specs.Sums.{Sums};
ghost use Rattle.num.specs.Lists.{every};
ghost use Rattle.judge.specs.Judge.{allowed as allowedFor, total, residual, holds, named, judge_refusal, judge_of, Readable, Given};

use numbers::limit::UNKNOWNS;
use numbers::refusal::Refusal;

#[derive(Clone, Copy, Debug, PartialEq, Eq)]
pub enum Judged {
    // every row stays within its tolerance
    Accepted,
    // the first row that does not
    Rejected(usize),
}

// Judges a vector on `rows` rows of rows + 1 numbers, the last of each the right side, with a tolerance for each row. Refused by order, room or tolerance.
pub fn judge(
    system: &[f64],
    vector: &[f64],
    tolerances: &[f64],
    rows: usize,
) -> Result<Judged, Refusal>
    ensures { result ≡ judge_of rows system.now vector.now tolerances.now }
{
    check(system, vector, tolerances, rows)?;
    Ok(judge_rows(system, vector, tolerances, rows))
}

// What stands against judging.
fn check(m: &[f64], x: &[f64], t: &[f64], n: usize) -> Result<(), Refusal>
    ensures { result ≡ judge_refusal n m.now x.now t.now }
{
    if n == 0 || UNKNOWNS < n {
        return Err(Refusal::Order);
    }
    let size = n * (n + 1);
    if m.len() < size || x.len() < n || t.len() < n {
        return Err(Refusal::Room);
    }
    let finite = all_allowed(&m[..size], false) && all_allowed(&x[..n], false);
    if !finite || !all_allowed(&t[..n], true) {
        return Err(Refusal::Tolerance);
    }
    Ok(())
}

// On what is not refused.
fn judge_rows(m: &[f64], x: &[f64], t: &[f64], n: usize) -> Judged
    requires { Given n m.now x.now t.now }
    ensures { result ≡ named (holds n m.now x.now t.now) n 0 }
{
    for i in 0..n {
        if !row_holds(m, x, n, i, t[i]) {
            return Judged::Rejected(i);
        }
    }
    Judged::Accepted
}

// Whether row i stays within the tolerance t: its products are added up, and its right side is taken off, with the rows of limbs exchanged.
fn row_holds(m: &[f64], x: &[f64], n: usize, i: usize, t: f64) -> bool
    requires { Readable n m.now x.now × (i < n) × T (finite t) }
    ensures { result ≡ within (residual n m.now x.now i) t }
{
    let mut plus = exact::empty();
    let mut minus = exact::empty();
    let from = i * (n + 1);
    add_row(&mut plus, &mut minus, m, x, from, n);
    let right = from + n;
    exact::keep(&mut minus, &mut plus, m[right]).unwrap();
    exact::within(&plus, &minus, t)
}

// Adds to an empty sum n coefficients from `from` on, times the vector.
fn add_row(plus: &mut [u64], minus: &mut [u64], m: &[f64], x: &[f64], from: usize, n: usize)
    requires { Readable n m.now x.now × (from + n ≤ n * (n + 1)) × Sums 0 none plus.old minus.old }
    ensures { Sums n (total m.now x.now from n) plus.new minus.new }
{
    for j in 0..n {
        let at = from + j;
        exact::keep_product(plus, minus, m[at], x[j]).unwrap();
    }
}

// Whether every number of s is allowed.
fn all_allowed(s: &[f64], tolerance: bool) -> bool
    ensures { result ≡ every (allowedFor tolerance) s.now }
{
    for i in 0..s.len() {
        if !allowed(s[i], tolerance) {
            return false;
        }
    }
    true
}

// A number must be finite, and a tolerance not below zero: -0.0 is not.
fn allowed(x: f64, tolerance: bool) -> bool
    ensures { result ≡ allowedFor tolerance x }
{
    if tolerance {
        if x < 0.0 {
            return false;
        }
    }
    num::finite(x)
}
