// A record for a machine: its kind, then its fields, each by its name. One function a record serves the header line, the line and the JSON object, so that names and values cannot part.
ghost use Rattle.std.specs.Prelude.{◌≡◌, slice_index};
ghost use Rattle.num.specs.Lists.{«at»};
ghost use Rattle.pen.specs.Fields.{whole_quoted, plain_byte};

use super::ink::{Form, Pen};
use super::number::{Digits, bits, sign};
use decimal::Decimal;
use std::fmt;
use std::fmt::{Display, Formatter, Write};

impl Pen {
    // Begins a record of this kind; one always stands before it.
    pub fn begin(&mut self, kind: &str) {
        match self.form {
            Form::Json => write!(self, ",\n{{\"kind\":\"{kind}\""),
            Form::Names => write!(self, "#{kind}"),
            Form::Tsv | Form::Person => write!(self, "{kind}"),
        }
    }

    // Ends a record.
    pub fn end(&mut self) {
        if self.is_json() {
            write!(self, "}}");
        } else {
            write!(self, "\n");
        }
    }

    // A field: its name in the header, both in JSON, and elsewhere its value.
    fn field<N: Display + Drop, D: Display + Drop>(&mut self, name: N, value: D) {
        if self.is_names() {
            write!(self, "\t{name}");
        } else if self.is_json() {
            write!(self, ",\"{name}\":{value}");
        } else {
            write!(self, "\t{value}");
        }
    }

    // A quote in JSON, and nothing elsewhere.
    fn quote(&self) -> &'static str {
        if self.is_json() { "\"" } else { "" }
    }

    // The file, as a field.
    pub fn of_file(&mut self) {
        let file = self.file;
        self.whole("file", file);
    }

    // The file and the job, as fields.
    pub fn of_job(&mut self) {
        let job = self.job;
        self.of_file();
        self.whole("job", job);
    }

    // A whole number.
    pub fn whole(&mut self, name: &str, n: u64) {
        let q = if as_string(self.is_json(), n) {
            "\""
        } else {
            ""
        };
        self.field(name, format_args!("{q}{n}{q}"));
    }

    // Words that need no escape.
    pub fn label(&mut self, name: &str, words: &str) {
        let q = self.quote();
        self.field(name, format_args!("{q}{words}{q}"));
    }

    // A float: in decimal, and by its bits.
    pub fn float(&mut self, name: &str, x: f64) {
        let quote = self.quote();
        self.field(name, Spelled { x, quote });
        self.field(format_args!("{name}_bits"), Bits { x, quote });
    }

    // Floats of x, n of them from place `at` on: a list of decimals, and a list of bits.
    pub fn floats(&mut self, name: &str, x: &[f64], at: usize, n: usize) {
        let quote = self.quote();
        let float = |k: usize| float_in(x, at.wrapping_add(k));
        self.list(name, n, |k: usize| Spelled { x: float(k), quote });
        self.list(
            format_args!("{name}_bits"),
            n,
            |k: usize| Bits { x: float(k), quote },
        );
    }

    // A field that is a list of n items.
    fn list<N: Display + Drop, D: Display + Drop, F: Fn(usize) -> D>(
        &mut self,
        name: N,
        n: usize,
        item: F,
    )
        requires { F.IsAlwaysCallable item }
    {
        if self.is_names() {
            write!(self, "\t{name}");
        } else if self.is_json() {
            write!(self, ",\"{name}\":[");
            self.items(n, ",", item);
            write!(self, "]");
        } else {
            write!(self, "\t");
            self.items(n, " ", item);
        }
    }

    fn items<D: Display + Drop, F: Fn(usize) -> D>(&mut self, n: usize, between: &str, item: F)
        requires { F.IsAlwaysCallable item }
    {
        for k in 0..n {
            if 0 < k {
                write!(self, "{between}");
            }
            write!(self, "{}", item(k));
        }
    }

    // A file's name: bytes that every reader takes as they are, and all others by their number behind a percent sign.
    pub fn file_name(&mut self, name: &[u8]) {
        let q = self.quote();
        self.field("name", format_args!("{q}{}{q}", Escaped(name)));
    }
}

// A float for a machine: in decimal; what is no number in the spelling that every language reads, in quotes where the form has them.
#[derive(Clone, Copy)]
struct Spelled {
    x: f64,
    quote: &'static str,
}

impl Display for Spelled {
    fn fmt<W: Write>(&self, f: &mut Formatter<W>) -> fmt::Result {
        let q = self.quote;
        match decimal::decimal_of(self.x) {
            Decimal::Nan => write!(f, "{q}NaN{q}"),
            Decimal::Infinite { minus } => write!(f, "{q}{}Infinity{q}", sign(minus)),
            Decimal::Finite {
                minus,
                digits,
                place,
            } => {
                let digits = Digits { digits, place };
                write!(f, "{}{digits}", sign(minus))
            }
        }
    }
}

// The 64 bits of a float as 16 hexadecimal digits; a NaN's as 7ff8000000000000.
#[derive(Clone, Copy)]
struct Bits {
    x: f64,
    quote: &'static str,
}

impl Display for Bits {
    fn fmt<W: Write>(&self, f: &mut Formatter<W>) -> fmt::Result {
        let q = self.quote;
        write!(f, "{q}{:016x}{q}", bits(self.x))
    }
}

// Bytes that stand for themselves where they are plain.
#[derive(Clone, Copy)]
struct Escaped<'a>(&'a [u8]);

impl Display for Escaped<'_> {
    fn fmt<W: Write>(&self, f: &mut Formatter<W>) -> fmt::Result {
        for &c in self.0 {
            if plain(c) {
                f.write_char(c as char)?;
            } else {
                write!(f, "%{c:02x}")?;
            }
        }
        Ok(())
    }
}

// Whether a whole number is written as a string: programs read a number of JSON as a float, which does not hold all numbers above 2^53.
fn as_string(json: bool, n: u64) -> bool
    ensures { result ≡ whole_quoted json n }
{
    json & (9007199254740992 < n)
}

// Whether a byte of a name stands for itself: a visible one that is no quote, no percent sign and no backslash.
fn plain(c: u8) -> bool
    ensures { result ≡ plain_byte c }
{
    (b'!' <= c) & (c <= b'~') & (c != b'"') & (c != b'%') & (c != b'\\')
}

// x[i], and NaN past the end.
pub fn float_in(x: &[f64], i: usize) -> f64
    ensures { result ≡ «at» x.now i }
{
    x.get(i).copied().unwrap_or(f64::NAN)
}

// x[i], and 0 past the end.
pub fn word_in(x: &[u64], i: usize) -> u64
    ensures { result ≡ slice_index x.now i }
{
    x.get(i).copied().unwrap_or(0)
}
