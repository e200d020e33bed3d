// The report over the jobs' numbers and vectors: how many have each number, and over the settled ones the exact sum, the smallest and the largest of the chosen unknown.
#![tactic(auto)]

ghost use Rattle.std.specs.Prelude.{◌≡◌, true, not, ◌&&◌, ◌||◌, ◌++◌, ◌+◌, ◌≤◌, ◌<◌, eqb, length, drop};
ghost use Rattle.std.specs.Float.Ieee.Scale.{finite};
ghost use Rattle.numbers.specs.Limits.{most_jobs, sum_limbs};
ghost use Rattle.numbers.specs.Verdicts.{settled};
ghost use Rattle.loops.specs.Each.{each};
ghost use Rattle.tally.specs.Tally.{nothing as nothingOf, number_in, value_in, how_many, with_job, taken, totals_of, totals_over, Summable, counts_after, counts_to, holds_jobs, all_finite, ready as readyOf, totals_after};

use numbers::limit::{JOB_NUMBERS, JOBS, SUM_LIMBS};
use numbers::verdict::Verdict;

const SETTLED: u64 = Verdict::Settled as u64;

// Over the settled jobs: how many, and the smallest and the largest of the chosen unknown with the job where it stands, the earliest on a tie. All 0 where none settled.
#[derive(Clone, Copy)]
pub struct Report {
    pub settled: u64,
    pub smallest: f64,
    pub largest: f64,
    pub smallest_at: u64,
    pub largest_at: u64,
}

// A value, and the job where it stands.
#[derive(Clone, Copy)]
pub struct Peak {
    pub value: f64,
    pub at: u64,
}

// Puts down for each number from 0 to 26 how many of the first `jobs` have it. Nothing happens where the lists have no room for the jobs or for the counts.
pub fn count_all(numbers: &[u64], jobs: usize, counts: &mut [u64])
    ensures { counts.new ≡ counts_after numbers.now jobs counts.old }
{
    count_to(numbers, jobs, JOB_NUMBERS, counts);
}

// The same for each number below `kinds`.
pub fn count_to(numbers: &[u64], jobs: usize, kinds: usize, counts: &mut [u64])
    ensures { counts.new ≡ counts_to kinds numbers.now jobs counts.old }
{
    if jobs <= numbers.len() && kinds <= counts.len() {
        count_each(numbers, jobs, kinds, counts);
    }
}

// The same where there is room.
fn count_each(numbers: &[u64], jobs: usize, kinds: usize, counts: &mut [u64])
    requires { (jobs ≤ length numbers.now) × (kinds ≤ length counts.old) }
    ensures { counts.new ≡ each (how_many (number_in numbers.now) jobs) kinds ++ drop kinds counts.old }
{
    for k in 0..kinds {
        counts[k] = count(numbers, jobs, k as u64);
    }
}

// How many of the first `jobs` numbers are k.
fn count(numbers: &[u64], jobs: usize, k: u64) -> u64
    requires { jobs ≤ length numbers.now }
    ensures { result ≡ how_many (number_in numbers.now) jobs k }
{
    numbers[..jobs].iter().filter(|x| **x == k).count() as u64
}

// Makes `plus` less `minus` the exact sum of the chosen unknown over the settled jobs, and answers the report. Where the lists do not hold the jobs, a settled value is not finite or a row has
// not 66 limbs, nothing happens, and none has settled.
pub fn sum_up(
    numbers: &[u64],
    vectors: &[f64],
    jobs: usize,
    n: usize,
    unknown: usize,
    plus: &mut [u64],
    minus: &mut [u64],
) -> Report
    ensures { totals_of result plus.new minus.new
        ≡ totals_after jobs n unknown numbers.now vectors.now plus.old minus.old }
{
    let p = plus.len();
    let m = minus.len();
    if ready(numbers, vectors, jobs, n, unknown, p, m) {
        return add_up(numbers, vectors, jobs, n, unknown, plus, minus);
    }
    nothing()
}

// Whether the report can be made, with rows of so many limbs.
fn ready(
    numbers: &[u64],
    vectors: &[f64],
    jobs: usize,
    n: usize,
    unknown: usize,
    plus: usize,
    minus: usize,
) -> bool
    ensures { result ≡ readyOf jobs n unknown numbers.now vectors.now plus minus }
{
    holds(jobs, n, unknown, numbers.len(), vectors.len())
        && plus == SUM_LIMBS
        && minus == SUM_LIMBS
        && all_finite(numbers, vectors, jobs, n, unknown)
}

// Whether lists of these lengths hold the jobs.
fn holds(jobs: usize, n: usize, unknown: usize, numbers: usize, vectors: usize) -> bool
    ensures { result ≡ holds_jobs jobs n unknown numbers vectors }
{
    jobs <= JOBS && unknown < n && jobs <= numbers && jobs <= vectors / n
}

// Whether the settled jobs' values are finite.
fn all_finite(numbers: &[u64], vectors: &[f64], jobs: usize, n: usize, unknown: usize) -> bool
    requires { holds_jobs jobs n unknown (length numbers.now) (length vectors.now) ≡ true }
    ensures { result ≡ all_finite (number_in numbers.now) (value_in n unknown vectors.now) jobs }
{
    let mut all = true;
    for j in 0..jobs {
        let at = j * n + unknown;
        all = still(all, numbers[j], vectors[at]);
    }
    all
}

// The same with one job more.
fn still(all: bool, number: u64, x: f64) -> bool
    ensures { result ≡ (all && (not (eqb number settled) || finite x)) }
{
    if number == SETTLED {
        return all & num::finite(x);
    }
    all
}

// The sum and the report where they can be made.
fn add_up(
    numbers: &[u64],
    vectors: &[f64],
    jobs: usize,
    n: usize,
    unknown: usize,
    plus: &mut [u64],
    minus: &mut [u64],
) -> Report
    requires { Summable jobs n unknown numbers.now vectors.now × (length plus.old ≡ sum_limbs) × (length minus.old ≡ sum_limbs) }
    ensures { totals_of result plus.new minus.new
        ≡ totals_over (number_in numbers.now) (value_in n unknown vectors.now) jobs }
{
    exact::clear(plus);
    exact::clear(minus);
    let mut r = nothing();
    for j in 0..jobs {
        let at = j * n + unknown;
        r = take_in(r, numbers[j], j as u64, vectors[at], plus, minus);
    }
    r
}

// The report over no job.
fn nothing() -> Report
    ensures { result ≡ nothingOf }
{
    Report {
        settled: 0,
        smallest: 0.0,
        largest: 0.0,
        smallest_at: 0,
        largest_at: 0,
    }
}

// Takes in job j with the value x, where its number says that it settled.
fn take_in(r: Report, number: u64, j: u64, x: f64, plus: &mut [u64], minus: &mut [u64]) -> Report
    requires { r.settled < most_jobs }
    ensures { totals_of result plus.new minus.new ≡ taken (eqb number settled) j x r plus.old minus.old }
{
    if number != SETTLED {
        return r;
    }
    let _ = exact::keep(plus, minus, x);
    with_job(r, j, x)
}

// The report with one settled job more: it takes the place of a value that it is below or above; on a tie the earlier stays.
fn with_job(r: Report, j: u64, x: f64) -> Report
    requires { r.settled < most_jobs }
    ensures { result ≡ with_job j x r }
{
    if r.settled == 0 {
        return Report {
            settled: 1,
            smallest: x,
            largest: x,
            smallest_at: j,
            largest_at: j,
        };
    }
    let new = Peak { value: x, at: j };
    let low = if x < r.smallest {
        new
    } else {
        Peak {
            value: r.smallest,
            at: r.smallest_at,
        }
    };
    let high = if r.largest < x {
        new
    } else {
        Peak {
            value: r.largest,
            at: r.largest_at,
        }
    };
    Report {
        settled: r.settled + 1,
        smallest: low.value,
        largest: high.value,
        smallest_at: low.at,
        largest_at: high.at,
    }
}
