//! Prints sums parted by both rules.
ghost use Rattle.std.specs.Prelude.{ℕ, ◌≤◌, length};

use crate::seeded::Generator;
use parting::{
    LargestRemainder, MOST_WEIGHTS, PartingRule, Running, part_if_asked,
    payables_by_largest_remainder, ten_by_largest_remainder, ten_by_running,
};

/// The numbers, each with a space before it.
fn print_all(rt: &impl Print, numbers: &[u64]) -> anyhow::Result<()> {
    for number in numbers {
        print!(rt; " {number}")?;
    }
    Ok(())
}

fn print_sum(
    rt: &impl Print,
    amount: u64,
    weights: &[u64],
    largest: &[u64],
    running: &[u64],
) -> anyhow::Result<()> {
    print!(rt; "{amount} by")?;
    print_all(rt, weights)?;
    print!(rt; ": largest remainder")?;
    print_all(rt, largest)?;
    print!(rt; ", running")?;
    print_all(rt, running)?;
    println!(rt; "")?;
    Ok(())
}

/// Parts a sum by both rules and prints it.
fn part_and_print(rt: &impl Print, amount: u64, weights: &[u64]) -> anyhow::Result<()>
    requires { length weights.now ≤ 16 }
{
    // Fixed buffers, since no memory is taken from the heap.
    let count = weights.len();
    let mut first = [0; MOST_WEIGHTS];
    let largest = &mut first[..count];
    let mut second = [0; MOST_WEIGHTS];
    let running = &mut second[..count];
    part_if_asked(&LargestRemainder, amount, weights, largest)?;
    part_if_asked(&Running, amount, weights, running)?;
    print_sum(rt, amount, weights, largest, running)
}

/// The sums worked by hand, whose shares by largest remainder and by running are proved.
pub fn by_hand(rt: &impl Print) -> anyhow::Result<()> {
    println!(rt; "Sums by hand")?;
    print_sum(
        rt,
        10,
        &[1, 1, 1],
        &ten_by_largest_remainder(),
        &ten_by_running(),
    )?;
    let weights = [2_850, 1_900, 3_500, 1_500];
    let mut running = [0; 4];
    part_if_asked(&Running, 10_500, &weights, &mut running)?;
    print_sum(
        rt,
        10_500,
        &weights,
        &payables_by_largest_remainder(),
        &running,
    )
}

/// A sum and its weights drawn from the generator.
fn from_draws(rt: &impl Print, draws: &mut Generator) -> anyhow::Result<()> {
    let count = 1 + draws.below(MOST_WEIGHTS as u64) as usize;
    let bound = [2, 100, 1_000_000, 187_500_001][draws.below(4) as usize];
    let mut buffer = [0; MOST_WEIGHTS];
    let weights = &mut buffer[..count];
    draws.fill(weights, bound);
    let amount = draws.below(3_000_000_001);
    part_and_print(rt, amount, weights)
}

pub fn from_seed(rt: &impl Print) -> anyhow::Result<()> {
    println!(rt; "A thousand sums from a seed")?;
    let mut draws = Generator::new(1);
    for _ in 0..1_000 {
        from_draws(rt, &mut draws)?;
    }
    Ok(())
}
