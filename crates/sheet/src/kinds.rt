// The eleven kinds, each read from the bytes of a record: its own numbers and no others.
// kept: a function for each, where some look alike: each fills the fields of its own variant by name, and a shared one would have to be told them.
ghost use Rattle.std.specs.Prelude.{◌≡◌};
ghost use Rattle.sheet.specs.Record.{node_at, source_at, resistor_of, current_of, voltage_of, diode_of, isin_of, vsin_of, vpwl_of, capacitor_of, vcvs_of, vccs_of, inductor_of};

use super::{Element, NodeId, SourceId};

// 1: ohms.
pub fn resistor(bytes: &[u8]) -> Element
    ensures { result ≡ resistor_of bytes.now }
{
    Element::R {
        a: node_at(bytes, 2),
        b: node_at(bytes, 4),
        value: num::f64_at(bytes, 16),
    }
}

// 2: amperes from the first node to the second.
pub fn current(bytes: &[u8]) -> Element
    ensures { result ≡ current_of bytes.now }
{
    Element::I {
        p: node_at(bytes, 2),
        n: node_at(bytes, 4),
        value: num::f64_at(bytes, 16),
    }
}

// 3: volts.
pub fn voltage(bytes: &[u8]) -> Element
    ensures { result ≡ voltage_of bytes.now }
{
    Element::V {
        p: node_at(bytes, 2),
        n: node_at(bytes, 4),
        value: num::f64_at(bytes, 16),
        source: source_at(bytes, 10),
    }
}

// 4: a diode.
pub fn diode(bytes: &[u8]) -> Element
    ensures { result ≡ diode_of bytes.now }
{
    Element::D {
        p: node_at(bytes, 2),
        n: node_at(bytes, 4),
        i_sat: num::f64_at(bytes, 16),
        tdegc: num::f64_at(bytes, 24),
    }
}

// 5: a sine of amperes.
pub fn isin(bytes: &[u8]) -> Element
    ensures { result ≡ isin_of bytes.now }
{
    Element::Isin {
        p: node_at(bytes, 2),
        n: node_at(bytes, 4),
        vo: num::f64_at(bytes, 16),
        va: num::f64_at(bytes, 24),
        freq: num::f64_at(bytes, 32),
    }
}

// 6: a sine of volts.
pub fn vsin(bytes: &[u8]) -> Element
    ensures { result ≡ vsin_of bytes.now }
{
    Element::Vsin {
        p: node_at(bytes, 2),
        n: node_at(bytes, 4),
        vo: num::f64_at(bytes, 16),
        va: num::f64_at(bytes, 24),
        freq: num::f64_at(bytes, 32),
        source: source_at(bytes, 10),
    }
}

// 7: a pattern of volts through its points.
pub fn vpwl(bytes: &[u8]) -> Element
    ensures { result ≡ vpwl_of bytes.now }
{
    Element::Vpwl {
        p: node_at(bytes, 2),
        n: node_at(bytes, 4),
        t_delay: num::f64_at(bytes, 16),
        repeat: num::f64_at(bytes, 24),
        first: num::u16_at(bytes, 12),
        count: num::u16_at(bytes, 14),
        source: source_at(bytes, 10),
    }
}

// 8: farads.
pub fn capacitor(bytes: &[u8]) -> Element
    ensures { result ≡ capacitor_of bytes.now }
{
    Element::C {
        a: node_at(bytes, 2),
        b: node_at(bytes, 4),
        value: num::f64_at(bytes, 16),
    }
}

// 9: volts by a voltage.
pub fn vcvs(bytes: &[u8]) -> Element
    ensures { result ≡ vcvs_of bytes.now }
{
    Element::Vcvs {
        p: node_at(bytes, 2),
        n: node_at(bytes, 4),
        cp: node_at(bytes, 6),
        cn: node_at(bytes, 8),
        k: num::f64_at(bytes, 16),
        source: source_at(bytes, 10),
    }
}

// 10: amperes by a voltage.
pub fn vccs(bytes: &[u8]) -> Element
    ensures { result ≡ vccs_of bytes.now }
{
    Element::Vccs {
        p: node_at(bytes, 2),
        n: node_at(bytes, 4),
        cp: node_at(bytes, 6),
        cn: node_at(bytes, 8),
        k: num::f64_at(bytes, 16),
    }
}

// 11: henries.
pub fn inductor(bytes: &[u8]) -> Element
    ensures { result ≡ inductor_of bytes.now }
{
    Element::L {
        a: node_at(bytes, 2),
        b: node_at(bytes, 4),
        value: num::f64_at(bytes, 16),
        source: source_at(bytes, 10),
    }
}

// The node whose number stands at `at`.
pub fn node_at(bytes: &[u8], at: usize) -> NodeId
    ensures { result ≡ node_at bytes.now at }
{
    NodeId(num::u16_at(bytes, at))
}

fn source_at(bytes: &[u8], at: usize) -> SourceId
    ensures { result ≡ source_at bytes.now at }
{
    SourceId(num::u16_at(bytes, at))
}
