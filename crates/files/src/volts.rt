// The two voltages by which a diode is behind: the one across it in a run's last vector, and the last one that it was limited to. They are read as the definition of "behind" reads them (specs/Laws/Volts.antt).
ghost use Rattle.std.specs.Prelude.{◌≡◌};
ghost use Rattle.files.specs.Volts.{across_in, across_at, volts_of};

use groups::records::{across, number_at, record_of};
use numbers::kind::Kind;
use say::Volts;
use sheet::Element;

// Those of the diode in record i.
pub fn volts_of(sheet: &[u8], i: usize, vector: &[f64], memory: &[f64]) -> Volts
    ensures { result ≡ volts_of sheet.now i vector.now memory.now }
{
    Volts {
        across: across_at(sheet, i, vector),
        limited: number_at(memory, i),
    }
}

// The voltage across record i, and 0 where it is no diode.
fn across_at(sheet: &[u8], i: usize, vector: &[f64]) -> f64
    ensures { result ≡ across_at sheet.now i vector.now }
{
    let Ok(e) = record_of(sheet, i, Kind::Diode.number()) else {
        return 0.0;
    };
    across_in(e, vector)
}

// The voltage across an element, and 0 where it is no diode.
fn across_in(e: Element, vector: &[f64]) -> f64
    ensures { result ≡ across_in vector.now e }
{
    let Element::D { p, n, .. } = e else {
        return 0.0;
    };
    across(vector, p.0 as usize, n.0 as usize)
}
