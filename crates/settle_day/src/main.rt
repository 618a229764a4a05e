//! Settles the day of the three sheets in the folder where it is run, in memory, and prints its lines, or the first
//! fault or refusal with its place.
#![tactic(auto)]

mod duties;
mod settled;
mod stop;

use day::Record;
use pool::RESERVE;
use settled::{Settled, settle};
use sheet_files::{Sheets, print_stop};
use std::io;

fn main(rt: HostRuntime) -> anyhow::Result<()> {
    run(&rt)
}

fn run(rt: &HostRuntime) -> anyhow::Result<()> {
    match settle(&Sheets::read(rt)?) {
        Ok(settled) => print_lines(rt, &settled)?,
        Err(stop) => print_stop(rt, &stop)?,
    }
    Ok(())
}

fn print_record(rt: &impl Print, account: usize, record: &Record) -> io::Result<()> {
    let Record {
        base,
        surcharge,
        line,
    } = record;
    println!(rt; "{account},{base},{surcharge},{line}")
}

fn print_lines(rt: &impl Print, settled: &Settled) -> io::Result<()> {
    println!(rt; "account,base,surcharge,line")?;
    for (account, record) in settled.records.iter().enumerate() {
        if account < settled.members || account == RESERVE {
            print_record(rt, account, record)?;
        }
    }
    Ok(())
}
