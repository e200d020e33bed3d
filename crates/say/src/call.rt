// What is written about a whole call: its beginning with the header lines, each file that is named, its end with the status, and its faults.
use super::job::{JobHead, Volts};
use super::spread::{Run, Spreads};
use super::{cause, job, spread};
use engine::Ending;
use numbers::verdict::Verdict;
use pen::{Form, Pen, Unknown};
use std::fmt::Display;
use std::io::Stderr;

// The beginning of a call. A first record stands here, so that every other one has one before it.
pub fn call_begun(p: &mut Pen) {
    match p.form {
        Form::Tsv => {
            names(p);
            write!(p, "format\t1\n");
        }
        Form::Json => write!(p, "[\n{{\"kind\":\"format\",\"version\":1}}"),
        Form::Person | Form::Names => {}
    }
}

// One header line for each kind of record: the very functions that write the records, with a pen that writes names alone.
fn names(p: &mut Pen) {
    let form = p.form;
    p.set_form(Form::Names);
    write!(p, "#format\tversion\n");
    file_record(p, b"", false);
    fault_record(p);
    job_names(p);
    spread_names(p);
    status_record(p, 0);
    p.set_form(form);
}

fn job_names(p: &mut Pen) {
    let e = Ending {
        verdict: Verdict::Settled,
        dc: Verdict::Settled,
        passes: 0,
        rows: 0,
        end: 0.0,
        behind: 0,
    };
    job::job_record(p, JobHead::default());
    job::refused_record(p, 0, 0);
    job::ended_record(p, e, false);
    job::behind_record(p, 0, Volts::default());
    job::unknown_record(p, Unknown::Node(0), 0.0);
    job::row_record(p, &[], 0, 0, 0);
    job::judged_record(p, "", 0, 0);
}

fn spread_names(p: &mut Pen) {
    spread::spreads_record(p, Spreads::default());
    spread::call_refused_record(p, 0);
    spread::count_record(p, 0, 0);
    spread::total_record(p, 0, 0);
    cause::sound_record(p, 0, 0);
    cause::cause_record(p, 0, 0);
    cause::not_sound_record(p, 0, 0, Volts::default(), 0);
    value_names(p);
    spread::not_settled_record(p, Run::default());
    spread::run_record(p, Run::default(), 0.0);
}

// The values over the sound runs, and over the settled ones.
fn value_names(p: &mut Pen) {
    cause::value_record(p, "sound_smallest", 0.0, "job", 0);
    cause::value_record(p, "sound_largest", 0.0, "job", 0);
    cause::value_record(p, "sound_mean", 0.0, "sound", 0);
    cause::value_record(p, "smallest", 0.0, "job", 0);
    cause::value_record(p, "largest", 0.0, "job", 0);
    cause::value_record(p, "mean", 0.0, "settled", 0);
}

// A file that is named; a person sees its name where there are several.
pub fn file_begun(p: &mut Pen, name: &[u8], spreads: bool, several: bool) {
    if !p.is_person() {
        file_record(p, name, spreads);
    } else if several {
        write!(p, "File ");
        p.bytes(name);
        write!(p, "\n");
    }
}

fn file_record(p: &mut Pen, name: &[u8], spreads: bool) {
    p.begin("file");
    p.of_file();
    p.label("holds", if spreads { "spreads" } else { "jobs" });
    p.file_name(name);
    p.end();
}

// The end of a call, with the status that the shell is answered.
pub fn call_ended(p: &mut Pen, status: u8) {
    match p.form {
        Form::Person | Form::Names => {}
        Form::Tsv => status_record(p, status),
        Form::Json => {
            status_record(p, status);
            write!(p, "\n]\n");
        }
    }
}

fn status_record(p: &mut Pen, status: u8) {
    p.begin("status");
    p.whole("status", status as u64);
    p.end();
}

// A fault of the file: its name and a sentence on standard error, and for a machine a record.
pub fn file_fault<D: Display + Drop>(err: Stderr, p: &mut Pen, name: &[u8], sentence: D) {
    fault(err, name, sentence);
    faulted(p);
}

// The record of a fault, for a machine.
pub fn faulted(p: &mut Pen) {
    if !p.is_person() {
        fault_record(p);
    }
}

fn fault_record(p: &mut Pen) {
    p.begin("fault");
    p.of_file();
    p.end();
}

// A fault on standard error: of what, and a sentence. Where standard error takes nothing, the status alone tells of it.
pub fn fault<D: Display + Drop>(err: Stderr, what: &[u8], sentence: D) {
    let _ = print!(err; "savrunte: ");
    let _ = err.write_all(what);
    let _ = print!(err; ": {sentence}\n");
}

// A fault on standard error that is of nothing by name.
pub fn sentence(err: Stderr, s: &str) {
    let _ = print!(err; "savrunte: {s}\n");
}
