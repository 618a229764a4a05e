//! Tests the three sheets of the folder where it is run, and prints the first fault, or how many rows each has.
#![tactic(auto)]

use sheet_files::{Counts, Sheets, print_stop, test_sheets};
use std::io;

fn main(rt: HostRuntime) -> anyhow::Result<()> {
    run(&rt)
}

fn run(rt: &HostRuntime) -> anyhow::Result<()> {
    let sheets = Sheets::read(rt)?;
    match test_sheets(&sheets.members, &sheets.grid, &sheets.readings) {
        Ok(counts) => print_counts(rt, counts)?,
        Err(fault) => print_stop(rt, &fault)?,
    }
    Ok(())
}

fn print_counts(rt: &impl Print, counts: Counts) -> io::Result<()> {
    let Counts {
        members,
        grid,
        readings,
    } = counts;
    println!(rt; "members,{members}")?;
    println!(rt; "grid,{grid}")?;
    println!(rt; "readings,{readings}")
}
