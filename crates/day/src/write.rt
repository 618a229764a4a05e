//! Writing the records.
ghost use Rattle.std.specs.Prelude.{◌≡◌, ◌≤◌, ◌++◌, length, drop};
ghost use Rattle.day.specs.Records.{record_at, record_count, records_by};

use crate::{MEMBERS, Record};
use member_day::Due;
use quantities::Paise;

/// The record of a place, zeros where nobody is enrolled.
fn record_at(dues: &[Due], lines: &[Paise], place: usize) -> Record
    requires { length lines.now ≡ length dues.now }
    ensures answer { result ≡ record_at dues.now lines.now place }
{
    match (dues.get(place), lines.get(place)) {
        (Some(due), Some(line)) => Record {
            base: due.base,
            surcharge: due.surcharge,
            line: *line,
        },
        _ => Record::default(),
    }
}

/// Writes the records of a day; those beyond stay.
pub(crate) fn write_records(dues: &[Due], lines: &[Paise], reserve: Paise, into: &mut [Record])
    requires same { length lines.now ≡ length dues.now }
    requires room { record_count ≤ length into.old }
    ensures after { into.new ≡ records_by dues.now lines.now reserve ++ drop record_count into.old }
{
    for (place, record) in into[0..MEMBERS].iter_mut().enumerate() {
        *record = record_at(dues, lines, place);
    }
    into[MEMBERS] = Record {
        line: reserve,
        ..Record::default()
    };
}
