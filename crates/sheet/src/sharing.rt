// Refusal 9 between two records: an inductor has its source number to itself.
ghost use Rattle.std.specs.Prelude.{◌≡◌};
ghost use Rattle.sheet.specs.Check.{records_of};
ghost use Rattle.sheet.specs.Sharing as sharing;
ghost use Rattle.sheet.specs.Sharing.{FirstShared};

use super::{record, record_at};
use numbers::kind::Kind;

// The first record that shares its source number with an earlier one, one of the two an inductor; as many as there are records where none does. The check ends there at the latest.
pub fn first_shared(sheet: &[u8]) -> usize
    ensures { FirstShared sheet.now (records_of sheet.now) result }
{
    let count = super::records(sheet);
    if !super::has_inductors(sheet) {
        return count;
    }
    first_from(sheet, count)
}

// The same of the first `count` records, one after the other.
fn first_from(sheet: &[u8], count: usize) -> usize
    ensures { FirstShared sheet.now count result }
{
    (0..count).find(|&i| !alone(sheet, i)).unwrap_or(count)
}

// Whether record i shares its source number with no earlier record; a record without a source number is held against none.
fn alone(sheet: &[u8], i: usize) -> bool
    ensures { result ≡ sharing.alone sheet.now i }
{
    let own = record_at(sheet, i);
    !has_source(own) || !(0..i).any(|k| shares(record_at(sheet, k), own))
}

// Whether two records share a source number and one of them is an inductor.
fn shares(r: &[u8], q: &[u8]) -> bool
    ensures { result ≡ sharing.shares r.now q.now }
{
    let inductor = is_inductor(r) | is_inductor(q);
    let sources = has_source(r) & has_source(q);
    inductor & sources & (num::u16_at(r, 10) == num::u16_at(q, 10))
}

// Whether a record's kind is the inductor's.
fn is_inductor(bytes: &[u8]) -> bool
    ensures { result ≡ sharing.is_inductor bytes.now }
{
    record::byte_at(bytes, 0) == Kind::Inductor.number()
}

// Whether a record's kind has a source number.
fn has_source(bytes: &[u8]) -> bool
    ensures { result ≡ sharing.has_source bytes.now }
{
    Kind::try_from(record::byte_at(bytes, 0)).is_ok_and(|k| record::uses_of(k).source)
}
