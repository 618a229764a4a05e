//! The charges of a day with the sums of both sides.
ghost use Rattle.std.specs.Prelude.{◌≡◌, ◌≤◌, true, length, MatchResult};
ghost use Rattle.parting.specs.Rule.{most_weights};
ghost use Rattle.quantities.specs.declared.side.Side.TheVariants.{Payable, Receivable};
ghost use Rattle.sharing.specs.Sides.{Summed, average_of, by_average, total};
ghost use Rattle.sharing.specs.Shares.{too_much};
ghost use Rattle.sharing.specs.declared.charge.Unshared.TheVariants.{TooMuch};

use crate::charge::{Charge, Unshared};
use crate::sides::{Sums, side_sums};
use quantities::Side;

/// As few charges as a rule parts by, and the sums of both sides, which are within the limit.
#[derive(Clone, Copy)]
pub(crate) struct BothSides<'a> {
    pub(crate) charges: &'a [Charge],
    payable: Sums,
    receivable: Sums,
    pub ghost few: { length charges.now ≤ most_weights },
    pub ghost payable_summed: { Summed Payable charges.now payable },
    pub ghost receivable_summed: { Summed Receivable charges.now receivable },
}

impl<'a> BothSides<'a> {
    pub(crate) fn of(charges: &'a [Charge]) -> Result<BothSides<'a>, Unshared>
        requires { length charges.now ≤ most_weights }
        ensures answer { MatchResult result (λ both. both.charges.now ≡ charges.now) (λ e. (e ≡ TooMuch) × (too_much charges.now ≡ true)) }
    {
        Ok(BothSides {
            charges,
            payable: side_sums(Side::Payable, charges)?,
            receivable: side_sums(Side::Receivable, charges)?,
        })
    }

    pub(crate) fn sums(&self, side: Side) -> Sums
        ensures answer { Summed side self.now.charges.now result }
    {
        match side {
            Side::Payable => self.payable,
            Side::Receivable => self.receivable,
        }
    }

    /// The sum of all charges of a side.
    pub(crate) fn total(&self, side: Side) -> u64
        ensures answer { result ≡ total side self.now.charges.now }
    {
        let sums = self.sums(side);
        sums.fixed + sums.adjustable
    }

    /// Half of both sides together, rounded down.
    pub(crate) fn average(&self) -> u64
        ensures answer { result ≡ average_of self.now.charges.now }
    {
        (self.total(Side::Payable) + self.total(Side::Receivable)) / 2
    }

    /// Whether the day is shared by the average: both sides can come to it.
    pub(crate) fn by_average(&self) -> bool
        ensures answer { result ≡ by_average self.now.charges.now }
    {
        let average = self.average();
        self.payable.reaches(average) && self.receivable.reaches(average)
    }
}
