// The elements that store energy, C and L. Through a step a capacitor goes by its voltage in the last accepted vector, and an inductor by its current when that vector was taken, which its
// record's float of the memory holds; at DC a capacitor is open and an inductor is a short.
ghost use Rattle.std.specs.Prelude.{◌≡◌, []};
ghost use Rattle.sheet.specs.Row.{row_of};
ghost use Rattle.stamps.specs.Write.{stamped};
ghost use Rattle.groups.specs.Records.{element_at, on_record};
ghost use Rattle.groups.specs.Storage.{capacitor_in, inductor_in, storage_writes, storage_of, current_in, with_current, taken_of};

use super::Pass;
use super::records::{across, number_at, put, record_of};
use numbers::kind::Kind;
use numbers::refusal::Refusal;
use sheet::{Element, NodeId, SourceId};
use stamps::Ends;

// Stamps C and L, in the order of the records; x is the last accepted vector.
pub fn stamp_storage(p: Pass, sheet: &[u8], x: &[f64], memory: &[f64], m: &mut [f64])
    ensures { m.new ≡ storage_of p x.now memory.now sheet.now m.old }
{
    let count = sheet::records(sheet);
    for i in 0..count {
        storage_at(p, sheet, i, x, memory, m);
    }
}

// Record i, decoded only where the pass stamps it as a storage element: an inductor, and in the transient a capacitor. Each is decoded as its own kind alone; the kinds before them, which most records have, are passed by at one test.
fn storage_at(p: Pass, sheet: &[u8], i: usize, x: &[f64], memory: &[f64], m: &mut [f64])
    ensures { m.new ≡ stamped p.order (on_record (storage_writes p x.now memory.now i) [] (element_at sheet.now i)) m.old }
{
    let k = sheet::kind_at(sheet, i);
    if k < Kind::Capacitor.number() {
        return;
    }
    if k == Kind::Inductor.number() {
        storage_one(
            sheet::element_as(sheet, i, Kind::Inductor),
            p,
            i,
            x,
            memory,
            m,
        );
        return;
    }
    if (k == Kind::Capacitor.number()) & p.transient {
        storage_one(
            sheet::element_as(sheet, i, Kind::Capacitor),
            p,
            i,
            x,
            memory,
            m,
        );
    }
}

// What record i writes as a storage element.
fn storage_one(
    d: Result<Element, Refusal>,
    p: Pass,
    i: usize,
    x: &[f64],
    memory: &[f64],
    m: &mut [f64],
)
    ensures { m.new ≡ stamped p.order (on_record (storage_writes p x.now memory.now i) [] d) m.old }
{
    let Ok(e) = d else {
        return;
    };
    match e {
        Element::C { a, b, value } => capacitor(p, a, b, value, x, m),
        Element::L {
            a,
            b,
            value,
            source,
        } => inductor(p, a, b, value, source, number_at(memory, i), m),
        _ => {}
    }
}

// A capacitor in a step; at DC it writes nothing.
fn capacitor(p: Pass, a: NodeId, b: NodeId, value: f64, x: &[f64], m: &mut [f64])
    ensures { m.new ≡ stamped p.order (capacitor_in p x.now a.0 b.0 value) m.old }
{
    if p.transient {
        let from = a.0 as usize;
        let to = b.0 as usize;
        let c = models::capacitor::linearize(value, across(x, from, to), p.step);
        stamps::stamp_capacitor(m, p.order, Ends { a: from, b: to }, c.g, c.i);
    }
}

// An inductor with the current i, in a step or at DC.
fn inductor(p: Pass, a: NodeId, b: NodeId, value: f64, source: SourceId, i: f64, m: &mut [f64])
    ensures { m.new ≡ stamped p.order (inductor_in p (row_of p.nodes source) a.0 b.0 value i) m.old }
{
    let s = sheet::row_of(p.nodes, source);
    let ends = Ends {
        a: a.0 as usize,
        b: b.0 as usize,
    };
    if p.transient {
        let g = models::inductor::conductance(value, p.step);
        stamps::stamp_inductor(m, p.order, s, ends, g, i);
        return;
    }
    stamps::stamp_voltage(m, p.order, s, ends, 0.0);
}

// Each inductor takes the current that it has with the vector v of the pass p, where that vector is taken; other records' floats stay.
pub fn take_currents(p: Pass, sheet: &[u8], v: &[f64], memory: &mut [f64])
    ensures { memory.new ≡ taken_of p sheet.now v.now memory.old }
{
    let count = sheet::records(sheet);
    for i in 0..count {
        let d = record_of(sheet, i, Kind::Inductor.number());
        take_one(d, p, i, v, memory);
    }
}

// What record i takes.
fn take_one(d: Result<Element, Option<Refusal>>, p: Pass, i: usize, v: &[f64], memory: &mut [f64])
    ensures { memory.new ≡ on_record (with_current p v.now i memory.old) memory.old d }
{
    let Ok(e) = d else {
        return;
    };
    let Element::L {
        a,
        b,
        value,
        source,
    } = e
    else {
        return;
    };
    let c = current_in(p, a, b, value, source, v, number_at(memory, i));
    put(memory, i, c);
}

// The current of an inductor with the vector v of the pass p, from the current `old` before the step.
fn current_in(
    p: Pass,
    a: NodeId,
    b: NodeId,
    value: f64,
    source: SourceId,
    v: &[f64],
    old: f64,
) -> f64
    ensures { result ≡ current_in p v.now a.0 b.0 value source old }
{
    if p.transient {
        return models::inductor::current(value, p.step, across(v, a.0 as usize, b.0 as usize), old);
    }
    number_at(v, sheet::row_of(p.nodes, source))
}
