// What the whole call refuses before it touches anything: all that `spreads` refuses, and by 5 also too few counts, tolerances or limbs of the sum over the sound jobs.
ghost use Rattle.std.specs.Prelude.{◌≡◌, ◌+◌, ◌≤◌};
ghost use Rattle.numbers.specs.Limits.{most_unknowns};
ghost use Rattle.sound.specs.Refusals.{short_more, sound_refusal};

use numbers::limit::{JOB_CAUSES, SUM_LIMBS};
use options::Options;
use spreads::refusals::Lent;

// The lengths of what is lent beyond a call of `spreads`.
#[derive(Clone, Copy)]
pub struct More {
    pub tolerances: usize,
    pub plus: usize,
    pub minus: usize,
}

// The refusal, 13 or 1 to 5, or 0 where there is none.
pub fn refusal(o: Options, z: Lent, y: More) -> u8
    ensures { result ≡ sound_refusal o z y }
{
    let k = spreads::refusals::refusal(o, z);
    if k != 0 {
        return k;
    }
    if short_more(z, y) {
        return numbers::refusal::ROOM;
    }
    0
}

// Whether the counts, the tolerances or the two rows are too short. No tolerance at all is enough.
fn short_more(z: Lent, y: More) -> bool
    requires { z.nodes + z.sources ≤ most_unknowns }
    ensures { result ≡ short_more z y }
{
    let few = (y.tolerances != 0) & (y.tolerances < z.nodes + z.sources);
    (z.counts < JOB_CAUSES) | few | (y.plus < SUM_LIMBS) | (y.minus < SUM_LIMBS)
}
