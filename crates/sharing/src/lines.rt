//! The lines of a day: from the shares of both sides, or the charges as they are.
ghost use Rattle.std.specs.Prelude.{◌≡◌, ℕ, ◌<◌, ◌≤◌, true, map, length, sum, slice_index_or};
ghost use Rattle.quantities.specs.Limits.{most_money};
ghost use Rattle.quantities.specs.declared.side.Side.TheVariants.{Payable, Receivable};
ghost use Rattle.sharing.specs.Shares.{line_of, lines_by, shares_on};
ghost use Rattle.sharing.specs.Sides.{average_of, by_average, fixed_part, no_charge, weights};

use crate::both_sides::BothSides;
use crate::charge::Charge;
use parting::{MOST_WEIGHTS, PartingRule};
use quantities::{Paise, Side};

/// Writes what `f` gives for each place and its charge.
fn write_each<X: Drop, F: Fn(usize, Charge) -> X>(charges: &[Charge], into: &mut [X], f: F)
    requires room { length into.old ≡ length charges.now }
    requires callable { (k : ℕ) → k < length charges.now → F.pre f k (slice_index_or charges.now k no_charge) }
    ensures room { length into.new ≡ length charges.now }
    ensures after { (k : ℕ) (d : X) → k < length charges.now → F.post f k (slice_index_or charges.now k no_charge) (slice_index_or into.new k d) }
{
    // By place, since a proof knows nothing of what is written through a `zip` with `iter_mut`.
    for (place, charge) in charges.iter().enumerate() {
        into[place] = f(place, *charge);
    }
}

// Each that writes into a slice asks that it is as long as the charges: a slice that was lent has no invariant to say so.

/// Writes the weights of a side.
fn write_weights(side: Side, charges: &[Charge], into: &mut [u64])
    requires room { length into.old ≡ length charges.now }
    ensures after { into.new ≡ weights side charges.now }
{
    write_each(charges, into, |_, charge| charge.on(side).adjustable);
}

/// Writes the charges as lines.
pub(crate) fn write_charges(charges: &[Charge], lines: &mut [Paise])
    requires room { length lines.old ≡ length charges.now }
    ensures after { lines.new ≡ map (λ c. c.sum) charges.now }
{
    write_each(charges, lines, |_, charge| charge.sum);
}

/// Writes the shares of one side; the rule is not asked where nothing is adjustable.
fn part_side<R: PartingRule>(rule: &R, both: &BothSides, side: Side, into: &mut [u64])
    requires room { length into.old ≡ length both.now.charges.now }
    requires reached { fixed_part side both.now.charges.now ≤ average_of both.now.charges.now }
    ensures after { into.new ≡ shares_on (R.PartingRule.shares rule.now) side both.now.charges.now }
    ensures bound { sum into.new ≤ most_money }
{
    let sums = both.sums(side);
    let average = both.average();
    let mut weights = [0; MOST_WEIGHTS];
    let weights = &mut weights[0..both.charges.len()];
    write_weights(side, both.charges, weights);
    if sums.adjustable == 0 {
        into.copy_from_slice(weights);
    } else {
        rule.part(average - sums.fixed, weights, into);
    }
}

/// A fixed charge, or the share with the sign of the charge.
fn line(charge: Charge, payable: u64, receivable: u64) -> Paise
    requires { (payable ≤ most_money) × (receivable ≤ most_money) }
    ensures answer { result ≡ line_of charge payable receivable }
{
    let sum = charge.sum.count();
    if charge.fixed {
        charge.sum
    } else if sum > 0 {
        Paise::on(Side::Payable, payable)
    } else if sum < 0 {
        Paise::on(Side::Receivable, receivable)
    } else {
        Paise::NOTHING
    }
}

/// Writes the lines from the shares of both sides.
fn write_lines(charges: &[Charge], payable: &[u64], receivable: &[u64], lines: &mut [Paise])
    requires room { (length payable.now ≡ length charges.now) × ((length receivable.now ≡ length charges.now) × (length lines.old ≡ length charges.now)) }
    requires small { (sum payable.now ≤ most_money) × (sum receivable.now ≤ most_money) }
    ensures after { lines.new ≡ lines_by charges.now payable.now receivable.now }
{
    // The shares lie in two tables, since a rule writes a slice of numbers.
    write_each(charges, lines, |place, charge| {
        line(charge, payable[place], receivable[place])
    });
}

/// Parts both sides and writes the lines from the shares.
pub(crate) fn write_shared<R: PartingRule>(rule: &R, both: &BothSides, lines: &mut [Paise])
    requires room { length lines.old ≡ length both.now.charges.now }
    requires reached { by_average both.now.charges.now ≡ true }
    ensures after { lines.new ≡ lines_by both.now.charges.now (shares_on (R.PartingRule.shares rule.now) Payable both.now.charges.now) (shares_on (R.PartingRule.shares rule.now) Receivable both.now.charges.now) }
{
    let count = both.charges.len();
    let mut payables = [0; MOST_WEIGHTS];
    let pays = &mut payables[0..count];
    part_side(rule, both, Side::Payable, pays);
    let mut receivables = [0; MOST_WEIGHTS];
    let gets = &mut receivables[0..count];
    part_side(rule, both, Side::Receivable, gets);
    write_lines(both.charges, pays, gets, lines);
}
