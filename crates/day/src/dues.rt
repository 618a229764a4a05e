//! What each member's day comes to.
ghost use Rattle.day.specs.Dues.{all_entered, amount_due, charge_on, charges_of, due_of};
ghost use Rattle.day.specs.declared.unclosed.Unclosed.TheVariants.{Missing};
ghost use Rattle.std.specs.Prelude.{◌≡◌, true, map, length, ◌+ℤ◌, is_ok, if◌then◌else◌, Ok, Err, FitsSigned};
ghost use Rattle.std.specs.Option.{option_map};
ghost use Rattle.std.specs.Int.{w64};

use crate::{DayEntries, Member, Unclosed};
use member_day::Due;
use quantities::Paise;
use sharing::Charge;
use tariff::Tariff;

/// A regional amount is the base.
pub(crate) fn regional_due(amount: Option<Paise>) -> Option<Due>
    ensures answer { result ≡ option_map amount_due amount }
{
    amount.map(|base| Due {
        base,
        surcharge: Paise::NOTHING,
    })
}

/// The day's charge of a due.
fn charge(member: &Member, due: Due) -> Charge
    requires { FitsSigned w64 (due.base.paise +ℤ due.surcharge.paise) }
    ensures answer { result ≡ charge_on member.now due }
{
    Charge {
        fixed: member.kind.is_regional(),
        sum: due.base + due.surcharge,
    }
}

/// Writes the dues and the charges of the members, as far as their entries are there.
pub(crate) fn write_dues<T: Tariff>(
    tariff: &T,
    entries: &DayEntries,
    dues: &mut [Due],
    charges: &mut [Charge],
) -> Result<(), Unclosed>
    requires room { (length dues.old ≡ length entries.now.members.now) × (length charges.old ≡ length entries.now.members.now) }
    ensures answer { result ≡ (if all_entered entries.now.grid.now entries.now.members.now then Ok tt else Err Missing) }
    ensures dues { is_ok result ≡ true → dues.new ≡ map (due_of (T.Tariff.meaning tariff.now) entries.now.grid.now) entries.now.members.now }
    ensures charges { is_ok result ≡ true → charges.new ≡ charges_of (T.Tariff.meaning tariff.now) entries.now.grid.now entries.now.members.now }
{
    // By place, since a proof knows nothing of what is written through a `zip` with `iter_mut`.
    for (place, member) in entries.members.iter().enumerate() {
        let due = entries.due(tariff, member).ok_or(Unclosed::Missing)?;
        dues[place] = due;
        charges[place] = charge(member, due);
    }
    Ok(())
}
