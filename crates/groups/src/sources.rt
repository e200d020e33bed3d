// The independent sources: Isin, Vsin and Vpwl at the time of a pass. A sine that is refused ends the stamping.
ghost use Rattle.std.specs.Prelude.{◌≡◌};
ghost use Rattle.sheet.specs.Row.{row_of};
ghost use Rattle.stamps.specs.Kinds.{current_writes, voltage_writes};
ghost use Rattle.models.specs.Vpwl.{pattern_of, points_from};
ghost use Rattle.groups.specs.Sources.{driven_of, source_time, levelled, driven, driven_at, independent_of};
ghost use Rattle.groups.specs.Records.{on_record};

use super::Pass;
use super::records::record_in;
use models::sine::evaluate;
use models::vpwl;
use numbers::kind::Kind;
use numbers::refusal::Refusal;
use numbers::verdict;
use sheet::{Element, NodeId, SourceId};
use stamps::Ends;

// Stamps the sources at the pass's time, in the order of the records, and answers 0 or the verdict that ended it.
pub fn stamp_independent(w: Pass, sheet: &[u8], points: &[u8], m: &mut [f64]) -> u8
    ensures { driven_of result m.new ≡ independent_of w sheet.now points.now m.old }
{
    let count = sheet::records(sheet);
    let mut code: u8 = 0;
    for i in 0..count {
        code = source_at(code, w, sheet, points, i, m);
    }
    code
}

// Record i, unless there is a verdict already.
fn source_at(code: u8, w: Pass, sheet: &[u8], points: &[u8], i: usize, m: &mut [f64]) -> u8
    ensures { driven_of result m.new ≡ driven_at w sheet.now points.now i (driven_of code m.old) }
{
    if code != 0 {
        return code;
    }
    let d = record_in(sheet, i, Kind::Isin.number(), Kind::Vpwl.number());
    source_one(d, w, points, m)
}

// What a record writes as a source.
fn source_one(d: Result<Element, Option<Refusal>>, w: Pass, points: &[u8], m: &mut [f64]) -> u8
    ensures { driven_of result m.new ≡ on_record (driven w points.now m.old) (driven_of 0 m.old) d }
{
    let Ok(e) = d else {
        return 0;
    };
    match e {
        Element::Isin { p, n, vo, va, freq } => {
            current(evaluate(vo, va, freq, source_time(w)), w.order, p, n, m)
        }
        Element::Vsin {
            p,
            n,
            vo,
            va,
            freq,
            source,
        } => {
            let v = evaluate(vo, va, freq, source_time(w));
            voltage(v, w.nodes, w.order, source, p, n, m)
        }
        Element::Vpwl {
            p,
            n,
            t_delay,
            repeat,
            first,
            count,
            source,
        } => {
            let v = pattern(w, points, first, count, t_delay, repeat);
            voltage(Some(v), w.nodes, w.order, source, p, n, m)
        }
        _ => 0,
    }
}

// The time at which sources have their level.
fn source_time(w: Pass) -> f64
    ensures { result ≡ source_time w }
{
    if w.transient { w.time + w.step } else { 0.0 }
}

// The level of a pattern, which always has one.
fn pattern(w: Pass, points: &[u8], first: u16, count: u16, t_delay: f64, repeat: f64) -> f64
    ensures { result ≡ pattern_of w.pattern_first (points_from points.now first count) t_delay repeat (source_time w) }
{
    vpwl::level(
        w.pattern_first,
        points,
        first as usize,
        count as usize,
        t_delay,
        repeat,
        source_time(w),
    )
}

// A current at its level.
fn current(l: Option<f64>, n: usize, p: NodeId, q: NodeId, m: &mut [f64]) -> u8
    ensures { driven_of result m.new ≡ levelled n (current_writes n p.0 q.0) l m.old }
{
    let Some(x) = l else {
        return verdict::SINE_REFUSED;
    };
    let ends = Ends {
        a: p.0 as usize,
        b: q.0 as usize,
    };
    stamps::stamp_current(m, n, ends, x);
    0
}

// A voltage at its level.
fn voltage(
    l: Option<f64>,
    nodes: usize,
    n: usize,
    source: SourceId,
    p: NodeId,
    q: NodeId,
    m: &mut [f64],
) -> u8
    ensures { driven_of result m.new ≡ levelled n (voltage_writes n (row_of nodes source) p.0 q.0) l m.old }
{
    let Some(x) = l else {
        return verdict::SINE_REFUSED;
    };
    let s = sheet::row_of(nodes, source);
    let ends = Ends {
        a: p.0 as usize,
        b: q.0 as usize,
    };
    stamps::stamp_voltage(m, n, s, ends, x);
    0
}
