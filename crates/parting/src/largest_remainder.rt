//! The largest remainder rule.
ghost use Rattle.std.specs.Prelude.{◌≡◌, ℕ, ◌+◌, ◌<◌, ◌≤◌, count_by, length, if◌then◌else◌, nat_le, nat_lt, slice_index};
ghost use Rattle.parting.specs.LargestRemainder.{floor_at, largest_remainder, left_over, rank_among, rest_at};
ghost use Rattle.parting.specs.Places.{by_place};
ghost use Rattle.parting.specs.Rule.{Asked, most_amount, most_total, most_weights};
ghost use Rattle.parting.specs.LargestLaw.{largest_fair};

use super::rule::{MOST_WEIGHTS, PartingRule, whole_paise};

/// All exact shares are rounded down, and the paise left over go to the largest remainders.
#[derive(Clone, Copy)]
pub struct LargestRemainder;

// Writes each share rounded down and its remainder, and answers the paise left over.
// A remainder is below the total, so 32 bits hold it, and these are compared faster than 64.
fn round_down(amount: u64, weights: &[u64], into: &mut [u64], rests: &mut [u32]) -> u64
    requires asked { Asked amount weights.now }
    requires into_room { length into.old ≡ length weights.now }
    requires rests_room { length rests.old ≡ length weights.now }
    ensures answer { result ≡ left_over amount weights.now }
    ensures into_after { into.new ≡ by_place weights.now (floor_at amount weights.now) }
    ensures rests_after { rests.new ≡ by_place weights.now (rest_at amount weights.now) }
{
    let total: u64 = weights.iter().sum();
    let mut left = amount;
    for (place, weight) in weights.iter().enumerate() {
        // By place, as in `hand_out`. Both numbers before `into` is written, so that one division gives both.
        let floor = whole_paise(*weight, amount, total);
        let rest = *weight * amount % total;
        into[place] = floor;
        rests[place] = rest as u32;
        left -= floor;
    }
    left
}

// How many remainders come to at least so much.
fn at_least(rests: &[u32], least: u32) -> u32
    requires few { length rests.now ≤ most_weights }
    ensures answer { result ≡ count_by (nat_le least) rests.now }
{
    // A loop, since `filter` and `count` were slower.
    let mut count = 0;
    for rest in rests {
        count += u32::from(least <= *rest);
    }
    count
}

// How many members come before the one at a place: at lower places those with as large a remainder, at higher ones those
// with a larger.
#[tactic(auto, using(crate::proofs::HandingOut::ahead_is))]
fn ahead(rests: &[u32], place: usize) -> u32
    requires few { length rests.now ≤ most_weights }
    requires within { place < length rests.now }
    requires small { slice_index rests.now place < most_total }
    ensures answer { result ≡ rank_among (λ k. slice_index rests.now k) (length rests.now) place }
{
    let own = rests[place];
    at_least(&rests[..place], own) + at_least(&rests[place + 1..], own + 1)
}

// Gives one paisa more to each with fewer members ahead than there are paise left over.
fn hand_out(left: u64, rests: &[u32], into: &mut [u64])
    requires few { length rests.now ≤ most_weights }
    requires room { length rests.now ≡ length into.old }
    requires rests { (k : ℕ) → k < length rests.now → slice_index rests.now k < most_total }
    requires small { (k : ℕ) → k < length into.old → slice_index into.old k ≤ most_amount }
    ensures after { into.new ≡ by_place into.old (λ k. slice_index into.old k + (if nat_lt (rank_among (λ i. slice_index rests.now i) (length rests.now) k) left then 1 else 0)) }
{
    // By place, since a proof knows nothing of what is written through a `zip` with `iter_mut`.
    for (place, share) in into.iter_mut().enumerate() {
        let odd = u64::from(ahead(rests, place)) < left;
        *share += u64::from(odd);
    }
}

impl PartingRule for LargestRemainder {
    ghost shares = { λ _ amount weights. largest_remainder amount weights };

    ghost fair = { λ rule amount weights asked. largest_fair amount weights asked };

    fn part(&self, amount: u64, weights: &[u64], into: &mut [u64]) {
        let mut rests = [0; MOST_WEIGHTS];
        let rests = &mut rests[0..weights.len()];
        let left = round_down(amount, weights, into, rests);
        hand_out(left, rests, into);
    }
}
