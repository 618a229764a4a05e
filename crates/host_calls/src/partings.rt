//! Sums parted by each rule.
ghost use Rattle.std.specs.Prelude.{◌≡◌, ℕ, ◌&&◌, length, if◌then◌else◌, ◌==◌};
ghost use Rattle.parting.specs.LargestRemainder.{largest_remainder};
ghost use Rattle.parting.specs.Rule.{may_ask};
ghost use Rattle.parting.specs.Running.{running};

use parting::{LargestRemainder, Running, part_if_asked};

// Two calls, since the C interface has no rule as a parameter.

/// Parts by largest remainder, where that may be asked and there is a place for each share.
#[unsafe(no_mangle)]
pub extern "C" fn niszorgy_host_largest_remainder(
    amount: u64,
    weights: &[u64],
    into: &mut [u64],
) -> bool
    ensures answer { result ≡ (may_ask amount weights.now && length into.old == length weights.now) }
    ensures after { into.new ≡ (if result then largest_remainder amount weights.now else into.old) }
{
    part_if_asked(&LargestRemainder, amount, weights, into).is_ok()
}

/// Parts by running totals, where that may be asked and there is a place for each share.
#[unsafe(no_mangle)]
pub extern "C" fn niszorgy_host_running(amount: u64, weights: &[u64], into: &mut [u64]) -> bool
    ensures answer { result ≡ (may_ask amount weights.now && length into.old == length weights.now) }
    ensures after { into.new ≡ (if result then running amount weights.now else into.old) }
{
    part_if_asked(&Running, amount, weights, into).is_ok()
}
