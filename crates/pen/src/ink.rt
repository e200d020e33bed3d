// The pen: where the program writes and in which form, about which file and job, and whether something could not be written. What is lost once stays lost.
ghost use Rattle.std.specs.Prelude.{◌≡◌};

use std::fmt;
use std::fmt::{Display, Write};
use std::io::Stdout;

// A sheet for a person; the names of the fields of each kind of record; a record as a line of fields apart by tabs; a record as a JSON object.
#[derive(Clone, Copy, Debug, PartialEq, Eq)]
pub enum Form {
    Person,
    Names,
    Tsv,
    Json,
}

#[derive(Clone, Copy)]
pub struct Pen {
    pub out: Stdout,
    pub form: Form,
    pub file: u64, // the file's place among those named
    pub job: u64, // the job's place in its file
    pub lost: bool, // something could not be written
}

impl Pen {
    ghost use Rattle.pen.specs.Pens.{pen_of, in_form, at_file, at_job, noted_of, for_person, for_names, for_json};

    // A new pen: for a person unless a form for a machine is asked for.
    pub fn new(out: Stdout, tsv: bool, json: bool) -> Pen
        ensures { result ≡ pen_of out tsv json }
    {
        let form = if tsv {
            Form::Tsv
        } else if json {
            Form::Json
        } else {
            Form::Person
        };
        Pen {
            out,
            form,
            file: 0,
            job: 0,
            lost: false,
        }
    }

    // Goes on in another form.
    pub fn set_form(&mut self, form: Form)
        ensures { self.new ≡ in_form form self.old }
    {
        self.form = form;
    }

    // Goes on with the next file.
    pub fn set_file(&mut self, file: u64)
        ensures { self.new ≡ at_file file self.old }
    {
        self.file = file;
        self.job = 0;
    }

    // Goes on with a job of the file.
    pub fn set_job(&mut self, job: u64)
        ensures { self.new ≡ at_job job self.old }
    {
        self.job = job;
    }

    pub fn is_person(&self) -> bool
        ensures { result ≡ for_person self.now.form }
    {
        matches!(self.form, Form::Person)
    }

    pub fn is_names(&self) -> bool
        ensures { result ≡ for_names self.now.form }
    {
        matches!(self.form, Form::Names)
    }

    pub fn is_json(&self) -> bool
        ensures { result ≡ for_json self.now.form }
    {
        matches!(self.form, Form::Json)
    }

    // What `write!` calls. It has no error: what could not be written is noted.
    pub fn write_fmt<D: Display + Drop>(&mut self, text: D) {
        let _ = self.write(text);
    }

    // Writes bytes as they are.
    pub fn bytes(&mut self, s: &[u8]) {
        let written = self.out.write_all(s).is_ok();
        self.note(written);
    }

    // Notes whether a write took all.
    fn note(&mut self, written: bool)
        ensures { self.new ≡ noted_of written self.old }
    {
        self.lost |= !written;
    }
}

// A text of which a part is lost goes on behind it, so that this never answers an error.
impl Write for Pen {
    fn write_str(&mut self, s: &str) -> fmt::Result {
        self.bytes(s.as_bytes());
        Ok(())
    }
}
