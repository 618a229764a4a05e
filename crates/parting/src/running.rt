//! The running rule.
ghost use Rattle.parting.specs.Running.{running};
ghost use Rattle.parting.specs.RunningLaw.{running_fair};

use super::rule::{PartingRule, whole_paise};

/// Exact running totals are rounded down, and each share is the step from the total before.
#[derive(Clone, Copy)]
pub struct Running;

impl PartingRule for Running {
    ghost shares = { λ _ amount weights. running amount weights };

    ghost fair = { λ rule amount weights asked. running_fair amount weights asked };

    fn part(&self, amount: u64, weights: &[u64], into: &mut [u64]) {
        let total: u64 = weights.iter().sum();
        let mut seen = 0;
        let mut given = 0;
        for (place, weight) in weights.iter().enumerate() {
            seen += *weight;
            let reached = whole_paise(seen, amount, total);
            // By place, as in `round_down`: a copy of the weights to write over would make the libraries for C need `memmove`.
            into[place] = reached - given;
            given = reached;
        }
    }
}
