// One record of a sheet: the element that its kind makes of it, and the bytes that its kind leaves unused.
// A byte past the record's end reads as 0.
ghost use Rattle.std.specs.Prelude.{◌≡◌, get_or, Ok};
ghost use Rattle.numbers.specs.Kinds.{number_of};
ghost use Rattle.sheet.specs.Record.{element_of, uses_of, rest_zero};

use super::{Element, kinds};
use numbers::kind::Kind;

// What a kind uses besides its two nodes.
#[derive(Clone, Copy, Debug, PartialEq, Eq, Hash)]
pub struct Uses {
    pub controls: bool,
    pub source: bool,
    pub points: bool,
    pub floats: usize,
}

// The byte at `at`.
pub fn byte_at(bytes: &[u8], at: usize) -> u8
    ensures { result ≡ get_or bytes.now at 0 }
{
    bytes.get(at).copied().unwrap_or(0)
}

// The element that a kind makes of a record's bytes.
#[tactic(auto, unfolding(crate::specs::Record::element_of))]
pub fn element_of(kind: Kind, bytes: &[u8]) -> Element
    ensures { Ok result ≡ element_of (number_of kind) bytes.now }
{
    match kind {
        Kind::Resistor => kinds::resistor(bytes),
        Kind::Current => kinds::current(bytes),
        Kind::Voltage => kinds::voltage(bytes),
        Kind::Diode => kinds::diode(bytes),
        Kind::Isin => kinds::isin(bytes),
        Kind::Vsin => kinds::vsin(bytes),
        Kind::Vpwl => kinds::vpwl(bytes),
        Kind::Capacitor => kinds::capacitor(bytes),
        Kind::Vcvs => kinds::vcvs(bytes),
        Kind::Vccs => kinds::vccs(bytes),
        Kind::Inductor => kinds::inductor(bytes),
    }
}

// What a kind uses.
#[tactic(auto, unfolding(crate::specs::Record::uses_of))]
pub fn uses_of(kind: Kind) -> Uses
    ensures { result ≡ uses_of (number_of kind) }
{
    match kind {
        Kind::Resistor | Kind::Current | Kind::Capacitor => used(false, false, false, 1),
        Kind::Voltage => used(false, true, false, 1),
        Kind::Diode => used(false, false, false, 2),
        Kind::Isin => used(false, false, false, 3),
        Kind::Vsin => used(false, true, false, 3),
        Kind::Vpwl => used(false, true, true, 2),
        Kind::Vcvs => used(true, true, false, 1),
        Kind::Vccs => used(true, false, false, 1),
        Kind::Inductor => used(false, true, false, 1),
    }
}

fn used(controls: bool, source: bool, points: bool, floats: usize) -> Uses
    ensures { result ≡ Rattle.sheet.specs.Record.used controls source points floats }
{
    Uses {
        controls,
        source,
        points,
        floats,
    }
}

// Whether byte 1 and the unused bytes are zero.
pub fn rest_zero(u: Uses, bytes: &[u8]) -> bool
    ensures { result ≡ rest_zero u bytes.now }
{
    let one = byte_at(bytes, 1) == 0;
    let controls = u.controls | (num::u32_at(bytes, 6) == 0);
    let source = u.source | (num::u16_at(bytes, 10) == 0);
    let points = u.points | (num::u32_at(bytes, 12) == 0);
    let second = (2 <= u.floats) | (num::u64_at(bytes, 24) == 0);
    let third = (3 <= u.floats) | (num::u64_at(bytes, 32) == 0);
    one & controls & source & points & second & third
}
