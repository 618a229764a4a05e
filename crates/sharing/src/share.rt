//! Sharing out a day.
ghost use Rattle.std.specs.Prelude.{◌≡◌, true, length, is_ok, if◌then◌else◌};
ghost use Rattle.sharing.specs.Laws.{Fair};
ghost use Rattle.sharing.specs.Shares.{lines_of, reserve, sharing};

use crate::both_sides::BothSides;
use crate::charge::{Charge, Unshared};
use crate::lines::{write_charges, write_shared};
use parting::{MOST_WEIGHTS, PartingRule};
use quantities::{Paise, Side};

/// Writes the members' lines of a day within the limits, and answers the reserve's.
fn share<R: PartingRule>(rule: &R, both: &BothSides, lines: &mut [Paise]) -> Paise
    requires { length lines.old ≡ length both.now.charges.now }
    ensures answer { result ≡ reserve both.now.charges.now }
    ensures lines { lines.new ≡ lines_of (R.PartingRule.shares rule.now) both.now.charges.now }
{
    if both.by_average() {
        write_shared(rule, both, lines);
        Paise::NOTHING
    } else {
        write_charges(both.charges, lines);
        let p = both.total(Side::Payable);
        let r = both.total(Side::Receivable);
        Paise::on(Side::Payable, r) - Paise::on(Side::Payable, p)
    }
}

/// Shares a day out: writes the members' lines and answers the reserve's, or refuses and writes none.
pub fn share_out<R: PartingRule>(
    rule: &R,
    charges: &[Charge],
    lines: &mut [Paise],
) -> Result<Paise, Unshared>
    ensures answer { result ≡ sharing charges.now (length lines.old) }
    ensures lines { lines.new ≡ (if is_ok result then lines_of (R.PartingRule.shares rule.now) charges.now else lines.old) }
    ensures fair { is_ok result ≡ true → Fair charges.now lines.new (reserve charges.now) }
{
    if MOST_WEIGHTS < charges.len() || lines.len() != charges.len() {
        return Err(Unshared::NoRoom);
    }
    let both = BothSides::of(charges)?;
    Ok(share(rule, &both, lines))
}
