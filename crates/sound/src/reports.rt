// The two reports: over the settled jobs, by their own numbers, and over the sound ones, by their causes.
ghost use Rattle.std.specs.Prelude.{◌≡◌, ◌≤◌, length};
ghost use Rattle.numbers.specs.Limits.{sum_limbs, most_jobs};
ghost use Rattle.tally.specs.Tally.{number_in, value_in, Summable};
ghost use Rattle.sound.specs.Reports.{summed_of, both_over};

use numbers::limit::{JOBS, SUM_LIMBS};
use tally::Report;

// Over the settled jobs, and over the sound ones: in the second `settled` counts the sound jobs.
#[derive(Clone, Copy)]
pub struct Reports {
    pub settled: Report,
    pub sound: Report,
}

// A word for each job.
pub fn words() -> [u64; JOBS]
    ensures { length result ≡ most_jobs }
{
    [0; JOBS]
}

// Both reports and their exact sums, each in the first limbs of its rows.
pub fn sum_both(
    numbers: &[u64],
    causes: &[u64],
    vectors: &[f64],
    jobs: usize,
    n: usize,
    unknown: usize,
    plus: &mut [u64],
    minus: &mut [u64],
    sound_plus: &mut [u64],
    sound_minus: &mut [u64],
) -> Reports
    requires { Summable jobs n unknown numbers.now vectors.now × Summable jobs n unknown causes.now vectors.now
        × (sum_limbs ≤ length plus.old) × (sum_limbs ≤ length minus.old) × (sum_limbs ≤ length sound_plus.old) × (sum_limbs ≤ length sound_minus.old) }
    ensures { summed_of result plus.new minus.new sound_plus.new sound_minus.new
        ≡ both_over (number_in numbers.now) (number_in causes.now) (value_in n unknown vectors.now) jobs
        plus.old minus.old sound_plus.old sound_minus.old }
{
    let settled = tally::sum_up(
        numbers,
        vectors,
        jobs,
        n,
        unknown,
        &mut plus[..SUM_LIMBS],
        &mut minus[..SUM_LIMBS],
    );
    let sound = tally::sum_up(
        causes,
        vectors,
        jobs,
        n,
        unknown,
        &mut sound_plus[..SUM_LIMBS],
        &mut sound_minus[..SUM_LIMBS],
    );
    Reports { settled, sound }
}
