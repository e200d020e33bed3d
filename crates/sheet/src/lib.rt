// The element sheet: eleven kinds of record, the reader that turns a record into an element, and the check of a whole sheet.
// Every public function is total: a byte past the end of a sheet reads as 0, and a sheet of any length is checked as far as its whole records go.
#![tactic(auto)]

mod kinds;
mod range;
mod record;
mod sharing;

ghost use Rattle.std.specs.Prelude.{◌≡◌, ◌/◌, ◌≤◌, ◌<◌, length};
ghost use Rattle.numbers.specs.Kinds as kinds;
ghost use Rattle.sheet.specs.Record.{record_at, kind_at, diode_of, decode_of, decode_as};
ghost use Rattle.sheet.specs.Row.{row_of};
ghost use Rattle.sheet.specs.Sharing.{inductor_among};
ghost use Rattle.sheet.specs.Check.{check_of, record_fault, records_of, not_whole, bad_sheet, bad_points};

use numbers::kind::{INDUCTOR, Kind};
use numbers::limit;
use numbers::refusal::Refusal;

// A node's number; ground is 0.
#[derive(Clone, Copy, Debug, PartialEq, Eq, PartialOrd, Ord, Hash)]
pub struct NodeId(pub u16);

// A source's number, which is no node's.
#[derive(Clone, Copy, Debug, PartialEq, Eq, PartialOrd, Ord, Hash)]
pub struct SourceId(pub u16);

// What a record stands for; each kind carries its own numbers and no others.
#[derive(Clone, Copy, Debug, PartialEq)]
pub enum Element {
    R {
        a: NodeId,
        b: NodeId,
        value: f64,
    },
    I {
        p: NodeId,
        n: NodeId,
        value: f64,
    },
    V {
        p: NodeId,
        n: NodeId,
        value: f64,
        source: SourceId,
    },
    D {
        p: NodeId,
        n: NodeId,
        i_sat: f64,
        tdegc: f64,
    },
    Isin {
        p: NodeId,
        n: NodeId,
        vo: f64,
        va: f64,
        freq: f64,
    },
    Vsin {
        p: NodeId,
        n: NodeId,
        vo: f64,
        va: f64,
        freq: f64,
        source: SourceId,
    },
    Vpwl {
        p: NodeId,
        n: NodeId,
        t_delay: f64,
        repeat: f64,
        first: u16,
        count: u16,
        source: SourceId,
    },
    C {
        a: NodeId,
        b: NodeId,
        value: f64,
    },
    Vcvs {
        p: NodeId,
        n: NodeId,
        cp: NodeId,
        cn: NodeId,
        k: f64,
        source: SourceId,
    },
    Vccs {
        p: NodeId,
        n: NodeId,
        cp: NodeId,
        cn: NodeId,
        k: f64,
    },
    L {
        a: NodeId,
        b: NodeId,
        value: f64,
        source: SourceId,
    },
}

// Why a call or its sheet is refused, and the place of the record that is at fault; 0 where none is.
#[derive(Clone, Copy, Debug, PartialEq, Eq, Hash)]
pub struct Fault {
    pub refusal: Refusal,
    pub place: usize,
}

// The counts that an element's numbers are held against: of nodes, of sources, and of points given.
#[derive(Clone, Copy, Debug, PartialEq, Eq, Hash)]
pub struct Limits {
    pub nodes: usize,
    pub sources: usize,
    pub points: usize,
}

// The bytes of a record.
pub const RECORD: usize = 40;

// The bytes of a point: time, level.
pub const POINT: usize = 16;

// The element of a record's bytes, or refusal 6 or 7.
pub fn decode(bytes: &[u8]) -> Result<Element, Refusal>
    ensures { result ≡ decode_of bytes.now }
{
    decode_as(Kind::try_from(record::byte_at(bytes, 0))?, bytes)
}

// The element of a record's bytes, told their kind; where that is a constant, the compiler leaves out the other kinds.
#[tactic(auto, unfolding(crate::specs::Record::decode_as, crate::specs::Record::element_of))]
fn decode_as(kind: Kind, bytes: &[u8]) -> Result<Element, Refusal>
    ensures { result ≡ decode_as (kinds.number_of kind) bytes.now }
{
    if record::rest_zero(record::uses_of(kind), bytes) {
        Ok(record::element_of(kind, bytes))
    } else {
        Err(Refusal::Unused)
    }
}

// The bytes of record i; there are none past the sheet's end. A whole record is asked for first, by the count that a walk ends at: within a walk the compiler leaves the question out.
pub fn record_at(sheet: &[u8], i: usize) -> &[u8]
    ensures { result.now ≡ record_at sheet.now i }
{
    if i < sheet.len() / RECORD {
        let at = RECORD * i;
        return &sheet[at..at + RECORD];
    }
    end_at(sheet, i)
}

// The bytes from record i on where no whole record is left.
fn end_at(sheet: &[u8], i: usize) -> &[u8]
    requires { length sheet.now / 40 ≤ i }
    ensures { result.now ≡ record_at sheet.now i }
{
    if i == sheet.len() / RECORD {
        return &sheet[RECORD * i..];
    }
    &sheet[..0]
}

// The element of record i, or refusal 6 or 7; past the sheet's end it is 6.
pub fn element_at(sheet: &[u8], i: usize) -> Result<Element, Refusal>
    ensures { result ≡ decode_of (record_at sheet.now i) }
{
    decode(record_at(sheet, i))
}

// Record i decoded as of a kind, for a caller that knows its kind already.
pub fn element_as(sheet: &[u8], i: usize, kind: Kind) -> Result<Element, Refusal>
    ensures { result ≡ decode_as (kinds.number_of kind) (record_at sheet.now i) }
{
    decode_as(kind, record_at(sheet, i))
}

// Record i read as a diode, for a caller that has found that it is one: its unused bytes are not asked about again.
// It does not call `kinds::diode`: with one caller each, both are compiled into their callers, and a pass has no call more for its element.
pub fn diode_at(sheet: &[u8], i: usize) -> Element
    ensures { result ≡ diode_of (record_at sheet.now i) }
{
    let bytes = record_at(sheet, i);
    Element::D {
        p: kinds::node_at(bytes, 2),
        n: kinds::node_at(bytes, 4),
        i_sat: num::f64_at(bytes, 16),
        tdegc: num::f64_at(bytes, 24),
    }
}

// The kind byte of record i, which tells a pass whether it has to decode the record; past the sheet's end it is 0.
// kept: a byte and no `Kind`: a pass compares it once for each record, and most records are passed by on that.
pub fn kind_at(sheet: &[u8], i: usize) -> u8
    ensures { result ≡ kind_at sheet.now i }
{
    record::byte_at(record_at(sheet, i), 0)
}

// How many whole records the sheet has.
pub fn records(sheet: &[u8]) -> usize
    ensures { result ≡ records_of sheet.now }
{
    sheet.len() / RECORD
}

// Whether a record of the sheet has an inductor's kind. It looks at kind bytes alone and cuts no record out: a sheet without any is asked so, and else goes as if there were none.
// kept: a loop that asks every record. `any` over `kind_at` takes half as long again and more: it ends early, which is a jump at each record, and most sheets have none.
pub fn has_inductors(sheet: &[u8]) -> bool
    ensures { result ≡ inductor_among sheet.now (records_of sheet.now) }
{
    let count = records(sheet);
    let mut found = false;
    for i in 0..count {
        found |= sheet[RECORD * i] == INDUCTOR;
    }
    found
}

// The first faulty record, with its lowest refusal of 6 to 10, if there is one.
pub fn check_sheet(sheet: &[u8], l: Limits) -> Result<(), Fault>
    ensures { result ≡ check_of sheet.now l }
{
    let shared = sharing::first_shared(sheet);
    for i in 0..records(sheet) {
        record_fault(record_at(sheet, i), l, i != shared).map_err(|refusal| Fault {
            refusal,
            place: i,
        })?;
    }
    Ok(())
}

// The lowest refusal of a record's bytes, told whether its source number is its own.
fn record_fault(bytes: &[u8], l: Limits, own: bool) -> Result<(), Refusal>
    ensures { result ≡ record_fault l own (decode_of bytes.now) }
{
    range::element_fault(l, own, decode(bytes)?)
}

// The row of a source: node count plus source number. Here alone the two kinds of number meet.
pub fn row_of(nodes: usize, s: SourceId) -> usize
    ensures { result ≡ row_of nodes s }
{
    if nodes < 65536 {
        nodes + s.0 as usize
    } else {
        0
    }
}

// Whether a sheet of so many bytes is refused by 2.
#[tactic(auto, unfolding(crate::specs::Check::bad_sheet))]
pub fn bad_sheet(len: usize) -> bool
    ensures { result ≡ bad_sheet len }
{
    not_whole(RECORD, limit::RECORDS, len)
}

// Whether points of so many bytes are refused by 3.
#[tactic(auto, unfolding(crate::specs::Check::bad_points))]
pub fn bad_points(len: usize) -> bool
    ensures { result ≡ bad_points len }
{
    not_whole(POINT, limit::POINTS, len)
}

// Whether bytes are not whole pieces of a size, or more than the most of them.
fn not_whole(size: usize, most: usize, len: usize) -> bool
    requires { 0 < size }
    ensures { result ≡ not_whole size most len }
{
    (len % size != 0) | (most < len / size)
}
