// Whether it is time to say how far a file is: to a terminal, once more than a second has passed, and at most once a second.
use std::io::{IsTerminal, Stderr};
use std::rt;

#[derive(Clone, Copy)]
pub struct Clock {
    pub terminal: bool, // standard error is one
    pub begun: u64, // in seconds
    pub said: u64, // seconds from then to the last time it was said; 1 if it was not
    pub shown: bool, // it stands there now
}

impl Clock {
    pub fn new<R: rt::Clock>(rt: &R, err: Stderr) -> Clock {
        Clock {
            terminal: err.is_terminal(),
            begun: seconds(rt),
            said: 1,
            shown: false,
        }
    }

    // Says which job begins, if it is time. The clock counts whole seconds, so that two of them are more than one.
    pub fn job_begins<R: rt::Clock>(&mut self, rt: &R, err: Stderr, k: u64, jobs: u64) {
        let passed = seconds(rt).wrapping_sub(self.begun);
        self.shown = self.terminal & (self.said < passed);
        if self.shown {
            let _ = print!(err; "\rjob {k} of {jobs}");
            self.said = passed;
        }
    }

    // Takes it away again, so that what follows begins on a clean line.
    pub fn job_over(&self, err: Stderr) {
        if self.shown {
            let _ = print!(err; "\r\x1b[K");
        }
    }
}

// The seconds of the system's clock, and 0 where it has none.
fn seconds<R: rt::Clock>(rt: &R) -> u64 {
    rt.since_1970().map_or(0, |t| t.as_secs())
}
