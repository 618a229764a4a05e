//! Prints days shared out by hand, each line with what came and what should come.
#![tactic(auto)]

use quantities::Paise;
use sharing::{Unshared, one_paisa, seven_members};

const SEVEN: [i64; 7] = [3_069, 2_046, 3_769, 1_616, -4_318, -3_182, -3_000];

fn main(rt: HostRuntime) -> anyhow::Result<()> {
    run(&rt)
}

fn run(rt: &impl Print) -> anyhow::Result<()> {
    println!(rt; "Lines of a day by largest remainder")?;
    let (came, reserve) = seven_members();
    for (line, by_hand) in came.iter().zip(SEVEN.iter()) {
        println!(rt; "one of seven: came {line}, by hand {by_hand}")?;
    }
    say_reserve(rt, reserve)?;
    let (line, reserve) = one_paisa();
    println!(rt; "one paisa payable alone: came {line}, by hand 0")?;
    say_reserve(rt, reserve)
}

// No `Display`, since neither `Result` nor `Paise` is a type of this crate.
fn say_reserve(rt: &impl Print, reserve: Result<Paise, Unshared>) -> anyhow::Result<()> {
    match reserve {
        Ok(line) => println!(rt; "the reserve: came {line}, by hand 0")?,
        Err(_) => println!(rt; "not shared out")?,
    }
    Ok(())
}
