// All arguments together: taken one after the other, and what is wrong with them. An argument at fault makes the whole call one, so that nothing runs on half of what was meant.
ghost use Rattle.std.specs.Prelude.{◌≡◌};

use super::word::Word;

// What was asked for so far.
#[derive(Clone, Copy, Debug, PartialEq, Eq)]
pub struct Asked {
    pub tsv: bool,
    pub json: bool,
    pub strict: bool,
    pub fd: Option<u8>, // the descriptor for the status
    pub files: u64, // how many are named
    pub spreads: bool, // the next file is one of spreads
    pub descriptor: bool, // the next argument is a descriptor
    pub fault: Option<Fault>,
}

// What is wrong with the arguments.
#[derive(Clone, Copy, Debug, PartialEq, Eq)]
pub enum Fault {
    // an option that there is not
    Option,
    // both forms for a machine
    Forms,
    // no digit from 3 to 9 where a descriptor is wanted
    Descriptor,
    // `spreads` without a file
    Spreads,
    // no file at all
    File,
}

impl Asked {
    ghost use Rattle.shell.specs.Asked.{nothing_asked, faulty, with_fault, described_of, spreads_of, form_of, named_of, after_of, fault_of};

    // No argument yet.
    pub fn nothing() -> Asked
        ensures { result ≡ nothing_asked }
    {
        Asked {
            tsv: false,
            json: false,
            strict: false,
            fd: None,
            files: 0,
            spreads: false,
            descriptor: false,
            fault: None,
        }
    }

    // One argument more: what it is, and the descriptor that it names if it is one.
    pub fn after(self, w: Word, digit: Option<u8>) -> Asked
        ensures { result ≡ after_of self w digit }
    {
        if self.is_faulty() {
            return self;
        }
        if self.descriptor {
            return self.described(digit);
        }
        match w {
            Word::Spreads => self.of_spreads(),
            Word::Strict => Asked {
                strict: true,
                ..self
            },
            Word::Tsv => self.in_form(true),
            Word::Json => self.in_form(false),
            Word::StatusFd => Asked {
                descriptor: true,
                ..self
            },
            Word::Unknown => self.with_fault(Fault::Option),
            Word::File => self.named(),
        }
    }

    // What is wrong, after the last argument.
    pub fn fault_of(&self) -> Option<Fault>
        ensures { result ≡ fault_of self.now }
    {
        if self.is_faulty() {
            self.fault
        } else if self.descriptor {
            Some(Fault::Descriptor)
        } else if self.spreads {
            Some(Fault::Spreads)
        } else if self.files == 0 {
            Some(Fault::File)
        } else {
            None
        }
    }

    // Whether something is wrong already.
    pub fn is_faulty(&self) -> bool
        ensures { result ≡ faulty self.now.fault }
    {
        self.fault.is_some()
    }

    fn with_fault(self, fault: Fault) -> Asked
        ensures { result ≡ with_fault fault self }
    {
        Asked {
            fault: Some(fault),
            ..self
        }
    }

    // The argument after `--status-fd`.
    fn described(self, digit: Option<u8>) -> Asked
        ensures { result ≡ described_of self digit }
    {
        match digit {
            None => self.with_fault(Fault::Descriptor),
            Some(_) => Asked {
                fd: digit,
                descriptor: false,
                ..self
            },
        }
    }

    // The word `spreads`, or, right after it, a file of that name.
    fn of_spreads(self) -> Asked
        ensures { result ≡ spreads_of self }
    {
        if self.spreads {
            return self.named();
        }
        Asked {
            spreads: true,
            ..self
        }
    }

    // A form for a machine, and there is one at most.
    fn in_form(self, tsv: bool) -> Asked
        ensures { result ≡ form_of self tsv }
    {
        let json = !tsv | self.json;
        let tsv = tsv | self.tsv;
        if tsv & json {
            return self.with_fault(Fault::Forms);
        }
        Asked { tsv, json, ..self }
    }

    // One file more.
    fn named(self) -> Asked
        ensures { result ≡ named_of self }
    {
        Asked {
            spreads: false,
            files: self.files.saturating_add(1),
            ..self
        }
    }
}
