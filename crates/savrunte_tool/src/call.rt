// A whole call: its arguments, its files and its status.
use files::Going;
use pen::Pen;
use shell::{Asked, Fault, Seen, Word};
use std::env::FillError;
use std::fmt::InlineText;
use std::io::{Stderr, Stdout};
use std::rt::{Clock, Env, Files};

// The bytes of the longest name that a file can have.
const LONGEST: usize = 4095;

// How many arguments there are, with the program's own name.
pub fn arg_count(rt: &impl Env) -> usize {
    for i in 0..usize::MAX {
        if let Err(FillError::NotPresent) = rt.arg(i, &mut []) {
            return i;
        }
    }
    usize::MAX
}

// What all n arguments ask for; the program's own name is the first.
pub fn all_asked(rt: &impl Env, err: Stderr, n: usize) -> Asked {
    let mut asked = Asked::nothing();
    for i in 1..n {
        asked = asked_by(rt, err, asked, i);
    }
    asked
}

// One argument more. The first that is at fault is told; one that is longer than any file's name counts as an option that there is not.
fn asked_by(rt: &impl Env, err: Stderr, asked: Asked, i: usize) -> Asked {
    let mut s = [0; reading::PATH];
    match rt.arg(i, &mut s) {
        Ok(n) if n <= LONGEST => {
            let next = asked.after(Word::of(&s[..n]), shell::digit(&s[..n]));
            if let Some(f) = next.fault
                && !asked.is_faulty()
            {
                tell(err, f, &s[..n]);
            }
            next
        }
        _ => {
            if !asked.is_faulty() {
                say::fault(err, b"an argument", "File name too long");
            }
            asked.after(Word::Unknown, None)
        }
    }
}

// Whether nothing is wrong with the arguments; if something is, it is told, and so is the status.
pub fn is_fine(err: Stderr, asked: Asked) -> bool {
    let Some(f) = asked.fault_of() else {
        return true;
    };
    if !asked.is_faulty() {
        tell(err, f, b"");
    }
    tell_status(asked, Seen::fault_if(true));
    false
}

// Tells a fault, the argument's name with it if it is an option.
fn tell(err: Stderr, f: Fault, name: &[u8]) {
    match f {
        Fault::Option => say::fault(err, name, "no such option; --help lists them"),
        Fault::Forms => say::fault(err, b"--tsv and --json", "one form at a time"),
        Fault::Descriptor => say::fault(err, b"--status-fd", "wants a digit from 3 to 9"),
        Fault::Spreads => say::fault(err, b"spreads", "wants a file"),
        Fault::File => {
            say::sentence(err, "no file is named; --help says how to call it");
        }
    }
}

// Runs every file that the n arguments name, and tells the status.
pub fn run<R: Env + Files + Clock>(rt: &R, out: Stdout, err: Stderr, asked: Asked, n: usize) {
    let mut pen = Pen::new(out, asked.tsv, asked.json);
    say::call_begun(&mut pen);
    let mut g = Going::new(rt, err, pen);
    run_files(rt, &mut g, 1 < asked.files, n);
    let seen = g.seen.both(Seen::fault_if(g.pen.lost));
    say::call_ended(&mut g.pen, seen.status(asked.strict));
    if g.pen.lost {
        say::sentence(err, "standard output could not be written");
    }
    tell_status(asked, seen.both(Seen::fault_if(g.pen.lost)));
}

// Writes the status to the descriptor that was asked for.
fn tell_status(asked: Asked, seen: Seen) {
    if let Some(fd) = asked.fd {
        io::print_decimal(fd as i32, seen.status(asked.strict) as u64);
        io::write_all(fd as i32, b"\n");
    }
}

// Runs each file where its argument stands.
fn run_files<R: Env + Files + Clock>(rt: &R, g: &mut Going, several: bool, n: usize) {
    let mut asked = Asked::nothing();
    for i in 1..n {
        let mut s = [0; reading::PATH];
        let n = rt.arg(i, &mut s).unwrap_or(0);
        let before = asked;
        asked = before.after(Word::of(&s[..n]), shell::digit(&s[..n]));
        if asked.files != before.files {
            g.at_file(before.files);
            say::file_begun(&mut g.pen, &s[..n], before.spreads, several);
            run_file(rt, g, &s[..n], before.spreads);
        }
    }
}

// Opens the file, runs what it holds, and closes it. One that cannot be opened is told, with the reason in the system's words.
fn run_file<R: Files + Clock>(rt: &R, g: &mut Going, name: &[u8], spreads: bool) {
    match reading::opened(rt, name) {
        Ok(mut file) if spreads => files::run_spreads(g, &mut file, name),
        Ok(mut file) => files::run_jobs(rt, g, &mut file, name),
        Err(e) => {
            let printed = InlineText::<128>::of(e);
            g.fault(name, reading::words(printed.as_str()));
        }
    }
}
