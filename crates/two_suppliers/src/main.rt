//! Two suppliers settle the same calls: pools of other types that answer alike. A third pool, with a pile in another
//! order and the running rule, settles them too. Prints what was compared.
#![tactic(auto)]

mod calls;
mod compare;
mod second;
mod supply;

use calls::all_calls;
use compare::{agreement_of, blank, tally_of};
use supply::{another_order, both};

fn main(rt: HostRuntime) -> anyhow::Result<()> {
    run(&rt)
}

fn run(rt: &HostRuntime) -> anyhow::Result<()> {
    let calls = all_calls(rt.alloc())?;
    let blank = blank();
    let mut first = vec![in rt.alloc(); blank; calls.len()]?;
    let mut second = vec![in rt.alloc(); blank; calls.len()]?;
    let mut third = vec![in rt.alloc(); blank; calls.len()]?;
    let (count, other) = both(&calls, &mut first, &mut second);
    println!(rt; "calls given to each of two pools: {count} and {other}")?;
    println!(rt; "first pool: {}", tally_of(&first))?;
    println!(rt; "second pool: {}", tally_of(&second))?;
    println!(rt; "{}", agreement_of(&first, &second))?;
    let count = another_order(&calls, &mut third);
    println!(rt; "calls given to a pile in another order with running: {count}")?;
    println!(rt; "third pool: {}", tally_of(&third))?;
    Ok(())
}
