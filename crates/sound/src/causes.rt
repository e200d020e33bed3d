// Whether a job is sound, and if not why. A job has one cause: the first that holds of its run's own number, a diode behind, the judge.
ghost use Rattle.std.specs.Prelude.{◌≡◌};
ghost use Rattle.single.specs.Single.{single_of};
ghost use Rattle.sound.specs.Causes.{heard as heardOf, cause_of, numbers_of};

use judge::Judged;
use numbers::cause::{BEHIND, REJECTED};
use numbers::refusal::Refusal;
use numbers::verdict::SETTLED;
use single::Mark;

#[derive(Clone, Copy)]
pub enum Cause {
    // settled, no diode behind, and accepted by the judge where it was asked
    Sound,
    // the run's own number, a refusal 6 to 10 or a verdict, and the place of the refused record
    Own(u64, u64),
    // the first record whose diode is behind
    Behind(u64),
    // the judge's refusal
    Unjudged(Refusal),
    // the first row that is not within its tolerance
    Rejected(usize),
}

// A cause as a number, 0 where the job is sound, and its place: a record or a row, 0 where it has none.
#[derive(Clone, Copy)]
pub struct Numbers {
    pub cause: u64,
    pub place: u64,
}

// The cause of a job of n unknowns that has left this mark, system and vector.
pub fn find(m: Mark, system: &[f64], vector: &[f64], tolerances: &[f64], n: usize) -> Cause
    ensures { result ≡ cause_of (single_of m vector.now system.now) tolerances.now n }
{
    if m.number != SETTLED as u64 {
        return Cause::Own(m.number, m.place);
    }
    if m.behind != 0 {
        return Cause::Behind(m.behind - 1);
    }
    if tolerances.len() == 0 {
        return Cause::Sound;
    }
    heard(judge::judge(system, vector, tolerances, n))
}

// What the judge's word makes of a job.
fn heard(word: Result<Judged, Refusal>) -> Cause
    ensures { result ≡ heardOf word }
{
    match word {
        Ok(Judged::Accepted) => Cause::Sound,
        Ok(Judged::Rejected(row)) => Cause::Rejected(row),
        Err(k) => Cause::Unjudged(k),
    }
}

// The numbers of a cause.
pub fn told(c: Cause) -> Numbers
    ensures { result ≡ numbers_of c }
{
    match c {
        Cause::Sound => Numbers { cause: 0, place: 0 },
        Cause::Own(number, place) => Numbers {
            cause: number,
            place: place,
        },
        Cause::Behind(place) => Numbers {
            cause: BEHIND as u64,
            place: place,
        },
        Cause::Unjudged(k) => Numbers {
            cause: k.number() as u64,
            place: 0,
        },
        Cause::Rejected(row) => Numbers {
            cause: REJECTED as u64,
            place: row as u64,
        },
    }
}
