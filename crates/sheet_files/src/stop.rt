//! What ends the work on sheets, as it is printed.
use std::{fmt, io};

/// Prints a fault or a refusal below the names of its numbers.
pub fn print_stop<S: fmt::Display>(rt: &impl Print, stop: &S) -> io::Result<()> {
    println!(rt; "sheet,line,cell,number")?;
    println!(rt; "{stop}")
}
