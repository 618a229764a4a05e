//! Works the examples out, and prints each with what came and what should come.
#![tactic(auto)]

mod by_hand;
mod seeded;
mod sums;

use by_hand::{PRICE, bands_at, limit_at, rate_at, seller_at};
use facts::{BlockFacts, FactsNumbers, FactsRefusal};
use member_day::worked_runs;
use other_piles::unusual_charge;
use std::fmt::Display;

fn main(rt: HostRuntime) -> anyhow::Result<()> {
    run(&rt)
}

fn run(rt: &impl Print) -> anyhow::Result<()> {
    let rates = [(4_984, 8_000), (4_999, 4_266), (5_004, 800), (5_005, 0)];
    print_each(
        rt,
        "Rates of the vector at price 4000",
        "frequency",
        rate_at,
        &rates,
    )?;
    let limits = [
        (10_000, 1_250),
        (10_001, 1_200),
        (62_499, 7_499),
        (62_500, 7_500),
    ];
    print_each(rt, "Volume limits", "scheduled", limit_at, &limits)?;
    let bands = [(150, 0), (151, 50), (400, 22_500)];
    print_each(rt, "Bands at 1000 available", "deviation", bands_at, &bands)?;
    sellers(rt)?;
    another_pile(rt)?;
    runs(rt)?;
    sums::by_hand(rt)?;
    sums::from_seed(rt)
}

/// Prints under a title what a function makes of each number, beside what was worked by hand.
fn print_each<T, F>(
    rt: &impl Print,
    title: &str,
    of: &str,
    worked: F,
    examples: &[(i64, i64)],
) -> anyhow::Result<()>
where
    T: Display + Drop,
    F: Fn(i64) -> Result<T, FactsRefusal>,
    requires { F.IsAlwaysCallable worked }
{
    println!(rt; "{title}")?;
    for (number, by_hand) in examples {
        let came = worked(*number)?;
        println!(rt; "{of} {number}: came {came}, by hand {by_hand}")?;
    }
    Ok(())
}

fn sellers(rt: &impl Print) -> anyhow::Result<()> {
    println!(rt; "House pile, a seller at price 4000")?;
    for (scheduled, metered, hz100, by_hand) in [
        (20_000, 17_000, 4_980, 1_230_216),
        (1_000, 3_000, 5_000, -500_000),
    ] {
        let came = seller_at(scheduled, metered, hz100)?;
        println!(rt;
            "scheduled {scheduled}, metered {metered}, frequency {hz100}: came {came}, by hand {by_hand}"
        )?;
    }
    Ok(())
}

fn another_pile(rt: &impl Print) -> anyhow::Result<()> {
    println!(rt; "Another pile at price 4000")?;
    for (kind, scheduled, metered, available, hz100) in [
        (1, 1_000, 4_000, 0, 4_990),
        (2, 20_000, 17_000, 0, 4_980),
        (2, 1_000, 3_000, 0, 5_000),
        (3, 1_000, 400, 1_000, 5_010),
        (3, 1_000, 1_600, 1_000, 5_010),
    ] {
        let facts = BlockFacts::try_from(FactsNumbers {
            kind,
            scheduled,
            metered,
            available,
            hz100,
            price: PRICE,
        })?;
        let came = unusual_charge(&facts);
        println!(rt;
            "kind {kind}, scheduled {scheduled}, metered {metered}, available {available}, frequency {hz100}: came {came}"
        )?;
    }
    Ok(())
}

fn runs(rt: &impl Print) -> anyhow::Result<()> {
    println!(rt; "A seventh of each run")?;
    let examples = [
        ("one of 6", 0),
        ("one of 7", 1),
        ("one of 13", 1),
        ("one of 14", 2),
        ("one of 96", 13),
        ("3 over, 1 level, 4 over", 0),
        ("7 over, 4 under, 4 over, 1 level, 7 under", 2),
        ("40 level, 7 under, 14 over, 35 level", 3),
    ];
    for ((blocks, by_hand), came) in examples.iter().zip(worked_runs().iter()) {
        println!(rt; "{blocks}: came {came}, by hand {by_hand}")?;
    }
    Ok(())
}
