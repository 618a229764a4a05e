//! Reads a full sheet of readings again and again. Prints what was read, and on standard error the time of the fastest
//! reading.
#![tactic(auto)]

mod full;
mod total;

use anyhow::anyhow;
use full::full_readings;
use std::env;
use std::time::Instant;
use total::{Total, read_total};

/// How often the sheet is read where no argument says it.
const FEW: u32 = 20;

fn main(rt: HostRuntime) -> anyhow::Result<()> {
    run(&rt)
}

fn run(rt: &HostRuntime) -> anyhow::Result<()> {
    let times = asked(rt)?;
    let text = full_readings(rt.alloc())?;
    let bytes = text.as_bytes();
    // With `map_err` here and below the compiler places the loop of the digits worse: 75.5 µs for a reading, and 51.7 so.
    let Ok(total) = read_total(bytes) else {
        return Err(anyhow!("the sheet has a fault"));
    };
    print_total(rt, bytes.len(), total, times)?;
    let least = fastest(rt, bytes, times)?;
    eprintln!(rt; "nanoseconds of the fastest reading,{least}")?;
    Ok(())
}

/// The nanoseconds of the fastest of some readings.
fn fastest(rt: &HostRuntime, bytes: &[u8], times: u32) -> anyhow::Result<u128> {
    let mut least = u128::MAX;
    for _ in 0..times {
        let start = Instant::now(rt)?;
        if read_total(bytes).is_err() {
            return Err(anyhow!("the sheet has a fault"));
        }
        least = least.min(start.elapsed(rt)?.as_nanos());
    }
    Ok(least)
}

/// How often the sheet is to be read: as the first argument says, or few times.
fn asked(rt: &HostRuntime) -> anyhow::Result<u32> {
    let mut words = env::args(rt)?;
    let _program = words.next();
    // A match of two cases: `map`, `transpose` and `map_or` would say the same in three steps.
    match words.next() {
        Some(word) => Ok(word.parse::<u32>()?.max(1)),
        None => Ok(FEW),
    }
}

fn print_total(rt: &impl Print, bytes: usize, total: Total, times: u32) -> anyhow::Result<()> {
    let Total { rows, sum } = total;
    println!(rt; "bytes,{bytes}")?;
    println!(rt; "rows,{rows}")?;
    println!(rt; "sum,{sum}")?;
    println!(rt; "readings,{times}")?;
    Ok(())
}
