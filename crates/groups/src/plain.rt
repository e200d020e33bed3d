// Two groups that need the sheet alone: the base (I, R, V) and the dependent sources (Vcvs, Vccs).
ghost use Rattle.std.specs.Prelude.{◌≡◌, []};
ghost use Rattle.stamps.specs.Write.{stamped};
ghost use Rattle.stamps.specs.Kinds.{vcvs_writes, vccs_writes};
ghost use Rattle.groups.specs.Records.{on_record};
ghost use Rattle.groups.specs.Plain.{base_writes, dependent_writes, based_on, dependent_of};

use super::records::record_in;
use numbers::kind::Kind;
use numbers::refusal::Refusal;
use sheet::{Element, NodeId};
use stamps::Ends;

// Stamps I, R and V, in the order of the records.
pub fn stamp_base(sheet: &[u8], nodes: usize, n: usize, m: &mut [f64])
    ensures { m.new ≡ based_on nodes n sheet.now m.old }
{
    let count = sheet::records(sheet);
    for i in 0..count {
        let d = record_in(sheet, i, Kind::Resistor.number(), Kind::Voltage.number());
        base_one(d, nodes, n, m);
    }
}

// Stamps Vcvs and Vccs, in the order of the records.
pub fn stamp_dependent(sheet: &[u8], nodes: usize, n: usize, m: &mut [f64])
    ensures { m.new ≡ dependent_of nodes n sheet.now m.old }
{
    let count = sheet::records(sheet);
    for i in 0..count {
        let d = record_in(sheet, i, Kind::Vcvs.number(), Kind::Vccs.number());
        dependent_one(d, nodes, n, m);
    }
}

// What a record writes into the base.
fn base_one(d: Result<Element, Option<Refusal>>, nodes: usize, n: usize, m: &mut [f64])
    ensures { m.new ≡ stamped n (on_record (base_writes nodes n) [] d) m.old }
{
    let Ok(e) = d else {
        return;
    };
    match e {
        Element::R { a, b, value } => {
            let ends = Ends {
                a: a.0 as usize,
                b: b.0 as usize,
            };
            stamps::stamp_resistor(m, n, ends, value);
        }
        Element::I { p, n: q, value } => {
            let ends = Ends {
                a: p.0 as usize,
                b: q.0 as usize,
            };
            stamps::stamp_current(m, n, ends, value);
        }
        Element::V {
            p,
            n: q,
            value,
            source,
        } => {
            let s = sheet::row_of(nodes, source);
            let ends = Ends {
                a: p.0 as usize,
                b: q.0 as usize,
            };
            stamps::stamp_voltage(m, n, s, ends, value);
        }
        _ => {}
    }
}

// What a record writes as a dependent source.
fn dependent_one(d: Result<Element, Option<Refusal>>, nodes: usize, n: usize, m: &mut [f64])
    ensures { m.new ≡ stamped n (on_record (dependent_writes nodes n) [] d) m.old }
{
    let Ok(e) = d else {
        return;
    };
    match e {
        Element::Vcvs {
            p,
            n: q,
            cp,
            cn: cq,
            k,
            source,
        } => vcvs(n, sheet::row_of(nodes, source), p, q, cp, cq, k, m),
        Element::Vccs {
            p,
            n: q,
            cp,
            cn: cq,
            k,
        } => vccs(n, p, q, cp, cq, k, m),
        _ => {}
    }
}

// A voltage of k times the voltage from cp to cq, with the source's row s.
fn vcvs(n: usize, s: usize, p: NodeId, q: NodeId, cp: NodeId, cq: NodeId, k: f64, m: &mut [f64])
    ensures { m.new ≡ stamped n (vcvs_writes s p.0 q.0 cp.0 cq.0 k) m.old }
{
    let ends = Ends {
        a: p.0 as usize,
        b: q.0 as usize,
    };
    let controls = Ends {
        a: cp.0 as usize,
        b: cq.0 as usize,
    };
    stamps::stamp_vcvs(m, n, s, ends, controls, k);
}

// A current of k times the voltage from cp to cq.
fn vccs(n: usize, p: NodeId, q: NodeId, cp: NodeId, cq: NodeId, k: f64, m: &mut [f64])
    ensures { m.new ≡ stamped n (vccs_writes p.0 q.0 cp.0 cq.0 k) m.old }
{
    let ends = Ends {
        a: p.0 as usize,
        b: q.0 as usize,
    };
    let controls = Ends {
        a: cp.0 as usize,
        b: cq.0 as usize,
    };
    stamps::stamp_vccs(m, n, ends, controls, k);
}
