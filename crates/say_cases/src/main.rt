// Writes every record that the program can write, in both forms for a machine and then for a person, with every spelling of a float, a whole number and a file's name; it is compared with stored output (docs/FORMATS.md).
// The gate sees one call of the program itself, in the form for a person: this is what it has of the others.
#![tactic(auto)]

ghost use Rattle.std.specs.Prelude.{◌≡◌, length};

use engine::Ending;
use judge::Judged;
use num::float_of;
use numbers::refusal::Refusal;
use numbers::verdict::Verdict;
use pen::Pen;
use say::{JobHead, Lists, Spreads, Switches, Values, Volts};
use tally::Report;

fn main(rt: HostRuntime) {
    for (tsv, json) in [(true, false), (false, true), (false, false)] {
        all(&mut Pen::new(rt.stdout(), tsv, json));
    }
}

// All that can be written with this pen.
fn all(p: &mut Pen) {
    say::call_begun(p);
    say::file_begun(p, b"front end.jobs", false, true);
    jobs(p);
    p.set_file(1);
    say::file_begun(p, b"spreads.jobs", true, true);
    spreads(p);
    p.set_file(u64::MAX);
    say::file_begun(p, b"\t !\"#%&[\\]~\xc3\xa9", true, true);
    say::faulted(p);
    say::call_ended(p, 2);
}

// A job that is refused, one of DC, and transients with rows and without.
fn jobs(p: &mut Pen) {
    heading(p, false, 9007199254740992, 9007199254740993, switches(0, 0));
    say::refused(p, 8, 41);
    vector(p);
    row_after_row(p);
    ended_alone(p);
}

fn heading(p: &mut Pen, transient: bool, nodes: u64, sources: u64, switches: Switches) {
    let head = JobHead {
        transient,
        nodes,
        sources,
        switches,
    };
    say::heading(p, head);
}

fn vector(p: &mut Pen) {
    p.set_job(1);
    heading(p, false, 2, 14, switches(1, 0));
    say::ended(p, ending(Verdict::Diverged, Verdict::Diverged, 0.0), false);
    say::behind(p, 2, volts(5.0, 0.625), false);
    say::vector(p, &floats(), 2, 14);
    say::judged(p, Ok(Judged::Rejected(3)));
}

fn row_after_row(p: &mut Pen) {
    p.set_job(2);
    let both = switches(u64::MAX, 9223372036854775808);
    heading(p, true, 2, 1, both);
    say::ended(
        p,
        ending(Verdict::Settled, Verdict::PassesUsed, 2.5e-6),
        true,
    );
    say::behind(p, 2, volts(f64::NAN, -0.0), true);
    say::rows(p, &floats(), 4, 3);
    say::judged(p, Err(Refusal::Tolerance));
}

// Rows of a time alone, and one that is not there.
fn ended_alone(p: &mut Pen) {
    p.set_job(3);
    heading(p, true, 2, 1, switches(0, 1));
    say::ended(p, ending(Verdict::SineRefused, Verdict::Settled, 1.0), true);
    say::rows(p, &floats(), 17, 0);
    say::judged(p, Ok(Judged::Accepted));
}

// The options that are on or off, by their words.
fn switches(catchup: u64, pattern_first: u64) -> Switches {
    Switches {
        catchup,
        pattern_first,
    }
}

fn volts(across: f64, limited: f64) -> Volts {
    Volts { across, limited }
}

fn ending(verdict: Verdict, dc: Verdict, end: f64) -> Ending {
    Ending {
        verdict,
        dc,
        passes: 1000000,
        rows: 4,
        end,
        behind: 3,
    }
}

// Calls that are refused; one of which no run settled, one of which some did and none is sound, and one with sound runs.
fn spreads(p: &mut Pen) {
    asked(p, 0, 11, 0, switches(0, 0));
    say::call_refused(p, 2);
    asked(p, 257, 15, 16, switches(1, u64::MAX));
    say::call_refused(p, 13);
    none_settled(p);
    none_sound(p);
    some_sound(p);
}

fn asked(p: &mut Pen, jobs: u64, unknown: u64, tolerances: u64, switches: Switches) {
    let spreads = Spreads {
        jobs,
        nodes: 12,
        sources: 4,
        unknown,
        tolerances,
        switches,
    };
    say::asked(p, spreads);
}

fn none_settled(p: &mut Pen) {
    asked(p, 8, 11, 0, switches(9223372036854775808, 0));
    say::not_sound_line(p, 0, 0);
    say::range(p, values(0, 0.0), values(0, 0.0));
    say::unsettled(p, lists(&causes()), 8, 0);
}

// Each cause of a settled run, told of one that has it.
fn none_sound(p: &mut Pen) {
    asked(p, 3, 11, 16, switches(0, 1));
    say::not_sound_line(p, 3, 0);
    say::not_sound(p, 0, 27, 2, volts(4.99998, 0.625));
    say::not_sound(p, 1, 28, 3, volts(1.0, 1.0));
    say::not_sound(p, 2, 11, 0, volts(1.0, 1.0));
    say::range(p, values(0, 0.0), values(3, 0.5));
}

// With numbers that no DC run has, and with counts and jobs that are not there.
fn some_sound(p: &mut Pen) {
    say::counts(p, &counts(), u64::MAX, false);
    say::counts(p, &[2], 2, true);
    say::not_sound_line(p, 2, 2);
    say::range(p, values(2, 0.5), values(3, 0.25));
    say::unsettled(p, lists(&[0]), 2, 2);
    say::runs(p, lists(&causes()), &floats(), 9, 3, 1);
}

// The same list for the causes, their places and the passes.
fn lists(words: &[u64]) -> Lists<'_> {
    Lists {
        causes: words,
        places: words,
        passes: words,
    }
}

fn values(settled: u64, mean: f64) -> Values {
    Values {
        report: report(settled),
        mean,
    }
}

// A report over so many runs.
fn report(settled: u64) -> Report {
    Report {
        settled,
        smallest: -0.0,
        largest: 1.0,
        smallest_at: 3,
        largest_at: 0,
    }
}

// Zeros, floats where the spelling changes, the smallest and the largest, and what is no number.
fn floats() -> [f64; 16]
    ensures { 16 ≡ length result }
{
    [
        0.0,
        -0.0,
        1.0,
        0.1,
        0.0001,
        0.00009999,
        123456.789,
        9007199254740994.0,
        9999999999999998.0,
        1e16,
        -1.5e300,
        float_of(1),
        float_of(0x7fef_ffff_ffff_ffff),
        float_of(0x7ff0_0000_0000_0000),
        float_of(0xfff0_0000_0000_0000),
        float_of(0x7ff8_0000_0000_0001),
    ]
}

// A sound run, a verdict, a refusal, the causes of settled runs, numbers that are none.
fn causes() -> [u64; 8]
    ensures { 8 ≡ length result }
{
    [0, 24, 7, 27, 11, 28, 29, 9007199254740993]
}

// Sound twice, once each: no verdict, a verdict of a transient, a refusal of the whole; and causes of settled runs.
fn counts() -> [u64; 29]
    ensures { 29 ≡ length result }
{
    let mut c = [0; 29];
    c[0] = 2;
    c[6] = 9007199254740993;
    c[11] = 3;
    c[13] = 1;
    c[14] = 1;
    c[23] = 1;
    c[27] = 4;
    c[28] = 5;
    c
}
