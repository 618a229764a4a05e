//! What a parting rule is.
ghost use Rattle.std.specs.Prelude.{◌≡◌, ℕ, ◌*◌, ◌/◌, ◌^◌, ◌<◌, List, length};
ghost use Rattle.parting.specs.Rule.{Asked, Parted};

/// The largest sum, in paise.
pub(crate) const MOST_AMOUNT: u64 = 3_000_000_000;

/// The largest total of the weights.
pub(crate) const MOST_TOTAL: u64 = 3_000_000_000;

/// The most weights that a rule is asked to part by.
pub const MOST_WEIGHTS: usize = 16;

/// A way to part a sum of whole paise by weights.
///
/// `shares` says what each member gets, for every sum and all weights. Whatever the rule, the shares are whole,
/// add to the sum, and are each less than one paisa from weight × sum / total.
pub trait PartingRule {
    ghost shares: { Self → ℕ → List ℕ → List ℕ };

    /// Writes the share of each weight to its place in `into`. A rule never refuses what it may be asked.
    // No struct of the sum and the weights: each caller has them apart, and each rule takes them apart again.
    fn part(&self, amount: u64, weights: &[u64], into: &mut [u64])
        requires asked { Asked amount weights.now }
        requires room { length into.old ≡ length weights.now }
        ensures after { into.new ≡ shares self.now amount weights.now };

    ghost fair: { (rule : Self) (amount : ℕ) (weights : List ℕ) → Asked amount weights → Parted amount weights (shares rule amount weights) };
}

// The whole paise of the exact share weight × amount / total.
pub(crate) fn whole_paise(weight: u64, amount: u64, total: u64) -> u64
    requires weighs { 0 < total }
    requires fits { weight * amount < 2 ^ 64 }
    ensures answer { result ≡ weight * amount / total }
{
    let exact = weight * amount;
    exact / total
}
