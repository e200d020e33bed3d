// The records of a sheet as a group sees them, and reads and writes of a vector that may be too short.
ghost use Rattle.std.specs.Prelude.{◌≡◌, get_or, set};
ghost use Rattle.std.specs.Float.{nan};
ghost use Rattle.sheet.specs.Record.{record_at, decode_as};
ghost use Rattle.groups.specs.Records.{record_in, across as acrossOf};

use numbers::kind::Kind;
use numbers::refusal::Refusal;
use sheet::Element;

// Record i, decoded only where its kind byte is among those from low to high. `Err(None)` is a record that is passed by, `Err(Some(r))` one that r refuses.
// kept: bytes and no `Kind`s: a bound may be any byte, also one that is no kind's.
pub fn record_in(sheet: &[u8], i: usize, low: u8, high: u8) -> Result<Element, Option<Refusal>>
    ensures { result ≡ record_in low high sheet.now i }
{
    let kind = sheet::kind_at(sheet, i);
    if kind < low || high < kind {
        return Err(None);
    }
    sheet::element_at(sheet, i).map_err(Some)
}

// Record i, decoded only where its kind byte is this one, and then as no other kind: a pass over one kind is not slowed by the rest.
pub fn record_of(sheet: &[u8], i: usize, kind: u8) -> Result<Element, Option<Refusal>>
    ensures { result ≡ record_in kind kind sheet.now i }
{
    if sheet::kind_at(sheet, i) == kind {
        element_as(sheet, i, kind).map_err(Some)
    } else {
        Err(None)
    }
}

// Record i decoded as if it began with this byte; where that is a constant, the compiler leaves out the other kinds.
fn element_as(sheet: &[u8], i: usize, kind: u8) -> Result<Element, Refusal>
    ensures { result ≡ decode_as kind (record_at sheet.now i) }
{
    sheet::element_as(sheet, i, Kind::try_from(kind)?)
}

// The voltage of node a above node b.
pub fn across(x: &[f64], a: usize, b: usize) -> f64
    ensures { result ≡ acrossOf x.now a b }
{
    number_at(x, a) - number_at(x, b)
}

// The number at i, or NaN past the end.
pub fn number_at(x: &[f64], i: usize) -> f64
    ensures { result ≡ get_or x.now i nan }
{
    if x.len() <= i {
        return 0.0 / 0.0;
    }
    x[i]
}

// The number at i becomes v; past the end there is nothing to change.
pub fn put(x: &mut [f64], i: usize, v: f64)
    ensures { x.new ≡ set x.old i v }
{
    if x.len() <= i {
        return;
    }
    x[i] = v;
}
