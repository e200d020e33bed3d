// The diodes: each is linearized at the last solved vector, from its own memory. One whose current is not finite ends the stamping.
ghost use Rattle.std.specs.Prelude.{◌≡◌, ◌-◌, length};
ghost use Rattle.numbers.specs.Limits.{most_records};
ghost use Rattle.loops.specs.Loop.{turns};
ghost use Rattle.sheet.specs.Check.{records_of};
ghost use Rattle.groups.specs.Diodes.{stamped_of, companion, biased, biased_at};
ghost use Rattle.groups.specs.Listed.{diode_in, places_of, diode_places, as_diode, listed_at, rest_at, listed_of};

use super::records::{across, number_at, put, record_in};
use models::diode::{Diode, Model};
use numbers::kind::Kind;
use numbers::refusal::Refusal;
use numbers::{limit, verdict};
use options::Options;
use sheet::Element;
use stamps::Ends;

// Writes the places of the diodes at the front of `places`, in rising order, leaves the bytes after them as they were, and answers how many they are.
// It walks the first 256 records, or as many as `places` has bytes if that is fewer.
// kept: a lent list with a count of what stands in it: no heap, and it is filled once for all passes.
pub fn list_diodes(sheet: &[u8], places: &mut [u8]) -> usize
    ensures { places_of result places.new ≡ diode_places sheet.now places.old }
{
    let count = sheet::records(sheet).min(limit::RECORDS).min(places.len());
    let mut found = 0;
    for i in 0..count {
        if diode_in(sheet, i) {
            places[found] = i as u8;
            found += 1;
        }
    }
    found
}

// Whether record i is a diode.
fn diode_in(sheet: &[u8], i: usize) -> bool
    ensures { result ≡ diode_in sheet.now i }
{
    record_in(sheet, i, Kind::Diode.number(), Kind::Diode.number()).is_ok()
}

// Stamps the records at `places`, each as a diode at the vector x, and then the diodes after the first 256 records, and answers 0 or the verdict that ended it.
pub fn stamp_diodes(
    o: Options,
    sheet: &[u8],
    places: &[u8],
    n: usize,
    x: &[f64],
    memory: &mut [f64],
    m: &mut [f64],
) -> u8
    ensures { stamped_of result m.new memory.new ≡ listed_of o sheet.now places.now n x.now m.old memory.old }
{
    let code = stamp_listed(o, sheet, places, n, x, memory, m);
    stamp_rest(code, o, sheet, n, x, memory, m)
}

// The listed records, each read as a diode.
fn stamp_listed(
    o: Options,
    sheet: &[u8],
    places: &[u8],
    n: usize,
    x: &[f64],
    memory: &mut [f64],
    m: &mut [f64],
) -> u8
    ensures { stamped_of result m.new memory.new ≡ turns (length places.now) (listed_at o sheet.now n x.now places.now) (stamped_of 0 m.old memory.old) }
{
    let mut code: u8 = 0;
    for j in 0..places.len() {
        code = as_diode(code, o, sheet, n, x, wide(places[j]), memory, m);
    }
    code
}

// A place, widened, so that a caller needs no fact about the list's bytes.
fn wide(place: u8) -> usize
    ensures { result ≡ place }
{
    place as usize
}

// The records after the first 256, which no checked sheet has, after the verdict `before`.
fn stamp_rest(
    before: u8,
    o: Options,
    sheet: &[u8],
    n: usize,
    x: &[f64],
    memory: &mut [f64],
    m: &mut [f64],
) -> u8
    ensures { stamped_of result m.new memory.new ≡ turns (records_of sheet.now - most_records) (rest_at o sheet.now n x.now) (stamped_of before m.old memory.old) }
{
    let count = sheet::records(sheet);
    let mut code = before;
    for i in limit::RECORDS..count {
        code = diode_at(code, o, sheet, n, x, i, memory, m);
    }
    code
}

// Record i, if it is a diode.
fn diode_at(
    code: u8,
    o: Options,
    sheet: &[u8],
    n: usize,
    x: &[f64],
    i: usize,
    memory: &mut [f64],
    m: &mut [f64],
) -> u8
    ensures { stamped_of result m.new memory.new ≡ biased_at o sheet.now n x.now i (stamped_of code m.old memory.old) }
{
    if diode_in(sheet, i) {
        return as_diode(code, o, sheet, n, x, i, memory, m);
    }
    code
}

// Record i read as a diode, unless there is a verdict already.
fn as_diode(
    code: u8,
    o: Options,
    sheet: &[u8],
    n: usize,
    x: &[f64],
    i: usize,
    memory: &mut [f64],
    m: &mut [f64],
) -> u8
    ensures { stamped_of result m.new memory.new ≡ as_diode o sheet.now n x.now i (stamped_of code m.old memory.old) }
{
    if code != 0 {
        return code;
    }
    diode_one(sheet::diode_at(sheet, i), o, n, x, i, memory, m)
}

// What an element writes as the diode of record i.
fn diode_one(
    e: Element,
    o: Options,
    n: usize,
    x: &[f64],
    i: usize,
    memory: &mut [f64],
    m: &mut [f64],
) -> u8
    ensures { stamped_of result m.new memory.new ≡ biased o n x.now i m.old memory.old e }
{
    let Element::D {
        p,
        n: q,
        i_sat,
        tdegc,
    } = e
    else {
        return 0;
    };
    let from = p.0 as usize;
    let to = q.0 as usize;
    let d = Diode::new(o, i_sat, tdegc, number_at(memory, i));
    let l = d.linearize_at(across(x, from, to));
    stamp_model(l, n, i, from, to, memory, m)
}

// A diode's model and its new memory.
fn stamp_model(
    l: Option<Model>,
    n: usize,
    i: usize,
    a: usize,
    b: usize,
    memory: &mut [f64],
    m: &mut [f64],
) -> u8
    ensures { stamped_of result m.new memory.new ≡ companion n i a b l m.old memory.old }
{
    let Some(l) = l else {
        return verdict::DIODE_CURRENT;
    };
    put(memory, i, l.memory);
    stamps::stamp_diode(m, n, Ends { a, b }, l.g, l.i);
    0
}
