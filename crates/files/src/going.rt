// What a call carries from run to run: the pen, where faults are told, what was seen so far, the clock, and whether the file goes on. What was seen is added to and never taken away.
ghost use Rattle.std.specs.Prelude.{◌≡◌};

use super::clock::Clock;
use pen::Pen;
use shell::Seen;
use std::fmt::Display;
use std::io::Stderr;
use std::rt;

#[derive(Clone, Copy)]
pub struct Going {
    pub err: Stderr,
    pub pen: Pen,
    pub seen: Seen,
    pub clock: Clock,
    pub more: bool,
}

impl Going {
    ghost use Rattle.shell.specs.Seen.{sound_seen, fault_seen, both_seen};

    // A call that begins with this pen.
    pub fn new<R: rt::Clock>(rt: &R, err: Stderr, pen: Pen) -> Going
        ensures { result.seen ≡ sound_seen }
    {
        Going {
            err,
            pen,
            seen: Seen::sound(),
            clock: Clock::new(rt, err),
            more: true,
        }
    }

    // This was seen of a run.
    pub fn saw(&mut self, seen: Seen)
        ensures { self.new.seen ≡ both_seen self.old.seen seen }
    {
        self.seen = self.seen.both(seen);
    }

    // A fault was told: the file ends here.
    pub fn at_fault(&mut self)
        ensures { self.new.seen ≡ both_seen self.old.seen fault_seen }
    {
        self.saw(Seen::fault_if(true));
        self.more = false;
    }

    // Tells a fault of the file, which ends it.
    pub fn fault<D: Display + Drop>(&mut self, name: &[u8], sentence: D)
        ensures { self.new.seen ≡ both_seen self.old.seen fault_seen }
    {
        say::file_fault(self.err, &mut self.pen, name, sentence);
        self.at_fault();
    }

    // The next file begins, at this place among those named.
    pub fn at_file(&mut self, file: u64)
        ensures { self.new.seen ≡ self.old.seen }
    {
        self.pen.set_file(file);
        self.more = true;
    }

    // Job k of so many begins.
    pub fn at_job<R: rt::Clock>(&mut self, rt: &R, k: u64, jobs: u64)
        ensures { self.new.seen ≡ self.old.seen }
    {
        self.pen.set_job(k);
        self.clock.job_begins(rt, self.err, k, jobs);
    }
}
