// The options of a job or a call that are on or off: the sheet and the records name the same ones, in the order of their words in a file.
use pen::Pen;

// As they stand in the file: 0 is off, anything else on.
#[derive(Clone, Copy, Debug, Default, PartialEq, Eq)]
pub struct Switches {
    pub catchup: u64,
    pub pattern_first: u64,
}

impl Switches {
    // At the end of a job's heading, those that are on.
    pub fn of_a_job(self, p: &mut Pen) {
        if self.catchup != 0 {
            write!(p, ", catchup on");
        }
        if self.pattern_first != 0 {
            write!(p, ", pattern_first on");
        }
    }

    // At the end of a call's first line, whether passes wait for diodes that are behind; then the others that are on.
    pub fn of_a_call(self, p: &mut Pen) {
        let catchup = if self.catchup == 0 { "off" } else { "on" };
        write!(p, "; catchup {catchup}");
        if self.pattern_first != 0 {
            write!(p, "; pattern_first on");
        }
    }

    // The last fields of a record.
    pub fn fields(self, p: &mut Pen) {
        p.whole("catchup", self.catchup);
        p.whole("pattern_first", self.pattern_first);
    }
}
