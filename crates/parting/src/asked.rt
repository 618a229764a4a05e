//! Parting of what comes from outside: a rule is asked only where it may be.
ghost use Rattle.std.specs.Prelude.{◌≡◌, ℕ, ◌-◌, ◌^◌, min, ◌&&◌, codes, is_ok, length, if◌then◌else◌, sum, ◌==◌, Some};
ghost use Rattle.parting.specs.Rule.{may_ask};

use super::rule::{MOST_AMOUNT, MOST_TOTAL, MOST_WEIGHTS, PartingRule};
use std::error::Error;
use std::fmt;

/// The sum or the weights are not what a rule may be asked for, or there is another count of places for shares.
#[derive(Clone, Copy, Debug)]
pub struct NotAsked;

impl fmt::Display for NotAsked {
    ghost output = { λ _. Some (codes "a rule was asked what it may not be") };

    fn fmt<W: fmt::Write>(&self, f: &mut fmt::Formatter<W>) -> fmt::Result {
        f.write_str("a rule was asked what it may not be")
    }
}

impl Error for NotAsked {}

/// The total of the weights, held at the largest number of 64 bits.
fn total_of(weights: &[u64]) -> u64
    ensures answer { result ≡ min (sum weights.now) (2 ^ 64 - 1) }
{
    // A loop, since with `fold` the running rule took 236 ns for 16 weights in place of 191.
    let mut total = 0u64;
    for weight in weights {
        total = total.saturating_add(*weight);
    }
    total
}

/// Whether a rule may be asked for this sum and these weights.
fn may_ask(amount: u64, weights: &[u64]) -> bool
    ensures answer { result ≡ may_ask amount weights.now }
{
    amount <= MOST_AMOUNT
        && weights.len() <= MOST_WEIGHTS
        && (1..=MOST_TOTAL).contains(&total_of(weights))
}

/// Parts where the rule may be asked and there is a place for each share, and writes nothing where not.
pub fn part_if_asked<R: PartingRule>(
    rule: &R,
    amount: u64,
    weights: &[u64],
    into: &mut [u64],
) -> Result<(), NotAsked>
    ensures answer { is_ok result ≡ (may_ask amount weights.now && length into.old == length weights.now) }
    ensures after { into.new ≡ (if is_ok result then R.PartingRule.shares rule.now amount weights.now else into.old) }
{
    if !may_ask(amount, weights) || into.len() != weights.len() {
        return Err(NotAsked);
    }
    rule.part(amount, weights, into);
    Ok(())
}
