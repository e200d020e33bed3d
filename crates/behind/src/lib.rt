// Whether the diodes of a sheet have caught up. Convergence compares two vectors and does not ask whether the limiting has let go of a diode; this does. A diode is behind when the
// voltage across it in a vector is not within tolerance of the voltage that it was last limited to. Runs tell the first such record, and wait for it where the options say so. Every function is total.
#![tactic(auto)]

ghost use Rattle.std.specs.Prelude.{◌≡◌};
ghost use Rattle.behind.specs.Behind.{caught_up_of, diode_behind, behind_at, first_in, first_behind, behind_number};

use groups::records::{across, number_at, record_of};
use numbers::kind::Kind;
use options::Options;
use sheet::Element;

// The first record of a sheet whose diode is behind at this vector, with this memory, if there is one.
pub fn first_behind(o: Options, sheet: &[u8], vector: &[f64], memory: &[f64]) -> Option<usize>
    ensures { result ≡ first_behind o sheet.now vector.now memory.now }
{
    first_in(o.reltol, o.vntol, sheet, vector, memory)
}

// The same as a number: 0 for none, else 1 and the record's place.
pub fn behind_number(o: Options, sheet: &[u8], vector: &[f64], memory: &[f64]) -> u64
    ensures { result ≡ behind_number o sheet.now vector.now memory.now }
{
    match first_in(o.reltol, o.vntol, sheet, vector, memory) {
        None => 0,
        Some(i) => i as u64 + 1,
    }
}

// Whether a diode with the voltage v across it, last limited to y, has caught up.
pub fn caught_up(reltol: f64, vntol: f64, v: f64, y: f64) -> bool
    ensures { result ≡ caught_up_of reltol vntol v y }
{
    num::absolute(v - y) <= num::absolute(v) * reltol + vntol
}

// The first record at these two tolerances: every run asks for it, and two floats are handed on more cheaply than all options.
fn first_in(reltol: f64, vntol: f64, sheet: &[u8], vector: &[f64], memory: &[f64]) -> Option<usize>
    ensures { result ≡ first_in reltol vntol sheet.now vector.now memory.now }
{
    (0..sheet::records(sheet)).find(|&i| is_behind(reltol, vntol, sheet, i, vector, memory))
}

// Whether record i is a diode that is behind. One of another kind is passed by on its kind byte: most circuits have few diodes.
fn is_behind(
    reltol: f64,
    vntol: f64,
    sheet: &[u8],
    i: usize,
    vector: &[f64],
    memory: &[f64],
) -> bool
    ensures { result ≡ behind_at reltol vntol sheet.now vector.now memory.now i }
{
    sheet::kind_at(sheet, i) == Kind::Diode.number()
        && behind_at(reltol, vntol, sheet, i, vector, memory)
}

// Whether record i decodes to a diode that is behind.
fn behind_at(
    reltol: f64,
    vntol: f64,
    sheet: &[u8],
    i: usize,
    vector: &[f64],
    memory: &[f64],
) -> bool
    ensures { result ≡ behind_at reltol vntol sheet.now vector.now memory.now i }
{
    let Ok(e) = record_of(sheet, i, Kind::Diode.number()) else {
        return false;
    };
    diode_behind(reltol, vntol, e, vector, number_at(memory, i))
}

// Whether an element is a diode that is behind, last limited to y.
fn diode_behind(reltol: f64, vntol: f64, e: Element, vector: &[f64], y: f64) -> bool
    ensures { result ≡ diode_behind reltol vntol vector.now y e }
{
    let Element::D { p, n, .. } = e else {
        return false;
    };
    !caught_up(reltol, vntol, across(vector, p.0 as usize, n.0 as usize), y)
}
