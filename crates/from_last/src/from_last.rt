//! The running rule from the last member on.
ghost use Rattle.from_last.specs.FromLast.{from_last};
ghost use Rattle.from_last.specs.FromLastLaw.{from_last_fair};

use parting::PartingRule;

/// Exact running totals from the last member on are rounded down, and each share is the step from the total after.
#[derive(Clone, Copy)]
pub struct FromLast;

impl PartingRule for FromLast {
    ghost shares = { λ _ amount weights. from_last amount weights };

    ghost fair = { λ rule amount weights asked. from_last_fair amount weights asked };

    fn part(&self, amount: u64, weights: &[u64], into: &mut [u64]) {
        let total: u64 = weights.iter().sum();
        let mut seen = 0;
        let mut given = 0;
        // By place, from the last on: the steps of `specs/FromLastLaw.antt` are those of this loop.
        for i in (0..weights.len()).rev() {
            seen += weights[i];
            // As `whole_paise` of parting, which is not published since it has a `requires`.
            let reached = seen * amount / total;
            into[i] = reached - given;
            given = reached;
        }
    }
}
