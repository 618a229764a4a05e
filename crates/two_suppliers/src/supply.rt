//! The same calls given to pools of different types, with what the law says of them.
ghost use Rattle.house.specs.Pile.{house_charge};
ghost use Rattle.journal.specs.Law.{Lawful, Noted, Same};
ghost use Rattle.other_piles.specs.Pile.{unusual_charge};
ghost use Rattle.parting.specs.LargestRemainder.{largest_remainder};
ghost use Rattle.parting.specs.Running.{running};
ghost use Rattle.two_suppliers.specs.Second.{second_charge};
ghost use Rattle.std.specs.Prelude.{reverse, take};

use crate::second::{Asking, SecondPile, second_pile};
use house::{House, house};
use journal::{Call, Entry, Supplier, run, run_two};
use other_piles::{Unusual, unusual};
use parting::{LargestRemainder, Running};
use pool::Pool;

/// The house pile with largest remainder, and the second supplier's types: days that are alike have equal records.
pub fn both(calls: &[Call], first: &mut [Entry], second: &mut [Entry]) -> (usize, usize)
    ensures noted { (Noted calls.now first.old first.new result.0) × (Noted calls.now second.old second.new result.1) }
    ensures law { (Lawful house_charge largest_remainder (reverse (take result.0 first.new))) × (Lawful second_charge largest_remainder (reverse (take result.1 second.new))) }
    ensures same { Same (reverse (take result.0 first.new)) (reverse (take result.1 second.new)) }
{
    let one = Supplier {
        tariff: house(),
        rule: LargestRemainder,
        calls,
    };
    let other = Supplier {
        tariff: second_pile(),
        rule: Asking {
            rule: LargestRemainder,
        },
        calls,
    };
    let (one, other) = run_two(one, first, other, second);
    (one.1, other.1)
}

/// A pile in another order over a tariff from outside, with the running rule.
pub fn another_order(calls: &[Call], journal: &mut [Entry]) -> usize
    ensures noted { Noted calls.now journal.old journal.new result }
    ensures law { Lawful unusual_charge running (reverse (take result journal.new)) }
{
    let supplier = Supplier {
        tariff: unusual(),
        rule: Running,
        calls,
    };
    let (_, count) = run(supplier, journal);
    count
}
