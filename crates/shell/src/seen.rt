// What is seen of the runs of a call, and the status that the shell is answered for it.
ghost use Rattle.std.specs.Prelude.{◌≡◌};

use engine::Outcome;
use judge::Judged;
use numbers::refusal::Refusal;
use sound::Soundings;

// What was seen so far.
#[derive(Clone, Copy, Debug, PartialEq, Eq)]
pub struct Seen {
    // an argument, a file or a whole call is at fault, or something could not be written
    pub fault: bool,
    // a run did not settle, was refused, has a diode behind, or was not accepted by its judge
    pub doubtful: bool,
}

impl Seen {
    ghost use Rattle.shell.specs.Seen.{sound_seen, fault_if, doubted_seen, both_seen, job_seen, judged_seen, spreads_seen, status_of};

    pub fn sound() -> Seen
        ensures { result ≡ sound_seen }
    {
        Seen::fault_if(false)
    }

    // A fault, if it is one.
    pub fn fault_if(fault: bool) -> Seen
        ensures { result ≡ fault_if fault }
    {
        Seen {
            fault,
            doubtful: false,
        }
    }

    // Doubt, if there is any.
    fn doubted(doubtful: bool) -> Seen
        ensures { result ≡ doubted_seen doubtful }
    {
        Seen {
            fault: false,
            doubtful,
        }
    }

    // Two things seen, one after the other.
    pub fn both(self, b: Seen) -> Seen
        ensures { result ≡ both_seen self b }
    {
        Seen {
            fault: self.fault | b.fault,
            doubtful: self.doubtful | b.doubtful,
        }
    }

    // A run by itself.
    pub fn of_job(outcome: Outcome) -> Seen
        ensures { result ≡ job_seen outcome }
    {
        match outcome {
            Outcome::Refused(..) => Seen::doubted(true),
            Outcome::Ended(e) => {
                let verdict = e.verdict.number();
                let dc = e.dc.number();
                Seen::doubted((verdict != 0) | (dc != 0) | (e.behind != 0))
            }
        }
    }

    // What the judge says of it.
    pub fn of_judge(j: Result<Judged, Refusal>) -> Seen
        ensures { result ≡ judged_seen j }
    {
        match j {
            Ok(Judged::Accepted) => Seen::doubted(false),
            Ok(Judged::Rejected(_)) => Seen::doubted(true),
            Err(_) => Seen::doubted(true),
        }
    }

    // A call of spreads with so many jobs.
    pub fn of_spreads(answer: Soundings, jobs: u64) -> Seen
        ensures { result ≡ spreads_seen answer jobs }
    {
        match answer {
            Soundings::Refused(_) => Seen::fault_if(true),
            Soundings::Done(d) => Seen::doubted(d.sound.settled != jobs),
        }
    }

    // The status.
    pub fn status(self, strict: bool) -> u8
        ensures { result ≡ status_of strict self }
    {
        if self.fault {
            2
        } else if strict & self.doubtful {
            1
        } else {
            0
        }
    }
}
