//! Closing a day.
ghost use Rattle.std.specs.Prelude.{◌≡◌, ◌≤◌, true, ◌++◌, length, take, drop, is_ok, if◌then◌else◌, Ok, Err};
ghost use Rattle.day.specs.Dues.{all_entered, charges_of};
ghost use Rattle.day.specs.Laws.{Settled};
ghost use Rattle.day.specs.Members.{most_members};
ghost use Rattle.day.specs.Records.{closing, day_records, record_count};
ghost use Rattle.day.specs.declared.unclosed.Unclosed.TheVariants.{Missing, Short, TooMuch};
ghost use Rattle.sharing.specs.Shares.{too_much};

use crate::dues::write_dues;
use crate::write::write_records;
use crate::{DayEntries, MEMBERS, RECORDS, Record, Unclosed};
use member_day::Due;
use parting::PartingRule;
use quantities::Paise;
use sharing::{Charge, share_out};
use tariff::Tariff;

/// What a day without room is refused with: a missing entry comes first.
fn without_room<T: Tariff>(tariff: &T, entries: &DayEntries) -> Unclosed
    ensures answer { result ≡ (if all_entered entries.now.grid.now entries.now.members.now then Short else Missing) }
{
    if entries.all_entered(tariff) {
        Unclosed::Short
    } else {
        Unclosed::Missing
    }
}

/// Closes a day that has room for its members and its records.
fn close_with_room<T: Tariff, R: PartingRule>(
    tariff: &T,
    rule: &R,
    entries: &DayEntries,
    records: &mut [Record],
) -> Result<(), Unclosed>
    requires few { length entries.now.members.now ≤ most_members }
    requires room { record_count ≤ length records.old }
    ensures answer { result ≡ (if all_entered entries.now.grid.now entries.now.members.now then (if too_much (charges_of (T.Tariff.meaning tariff.now) entries.now.grid.now entries.now.members.now) then Err TooMuch else Ok tt) else Err Missing) }
    ensures records { records.new ≡ (if is_ok result then day_records (T.Tariff.meaning tariff.now) (R.PartingRule.shares rule.now) entries.now.grid.now entries.now.members.now ++ drop record_count records.old else records.old) }
{
    // Three tables of one length, since `share_out` takes a slice of charges and one of lines.
    let count = entries.members.len();
    let mut dues = [Due::default(); MEMBERS];
    let dues = &mut dues[0..count];
    let mut charges = [Charge::default(); MEMBERS];
    let charges = &mut charges[0..count];
    let mut lines = [Paise::NOTHING; MEMBERS];
    let lines = &mut lines[0..count];
    write_dues(tariff, entries, dues, charges)?;
    let reserve = share_out(rule, charges, lines)?;
    write_records(dues, lines, reserve, records);
    Ok(())
}

/// Closes a day: fills its records, or refuses and alters none. A regional amount of any size is an
/// entry; one above the limit makes its side too much.
pub fn close_day<T: Tariff, R: PartingRule>(
    tariff: &T,
    rule: &R,
    entries: &DayEntries,
    records: &mut [Record],
) -> Result<(), Unclosed>
    ensures answer { result ≡ closing (T.Tariff.meaning tariff.now) entries.now.grid.now entries.now.members.now (length records.old) }
    ensures records { records.new ≡ (if is_ok result then day_records (T.Tariff.meaning tariff.now) (R.PartingRule.shares rule.now) entries.now.grid.now entries.now.members.now ++ drop record_count records.old else records.old) }
    ensures law { is_ok result ≡ true → Settled entries.now.members.now (take record_count records.new) }
{
    if !entries.all_given() {
        return Err(Unclosed::Missing);
    }
    if records.len() < RECORDS || MEMBERS < entries.members.len() {
        return Err(without_room(tariff, entries));
    }
    close_with_room(tariff, rule, entries, records)
}
