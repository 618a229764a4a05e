//! The bytes of the sheets' files.
use std::io::{ErrorKind, Read};
use std::{fs, io};

/// One byte more than a sheet may have, so that a longer one is told.
const MOST_READ: u64 = 65_537;

/// The bytes of the three sheets of a folder.
#[derive(Drop)]
pub struct Sheets {
    pub members: Vec<u8>,
    pub grid: Vec<u8>,
    pub readings: Vec<u8>,
}

impl Sheets {
    /// The sheets of the folder where the program is run.
    pub fn read(rt: &HostRuntime) -> io::Result<Sheets> {
        Ok(Sheets {
            members: sheet_bytes(rt, "members.csv")?,
            grid: sheet_bytes(rt, "grid.csv")?,
            readings: sheet_bytes(rt, "readings.csv")?,
        })
    }
}

/// The bytes of a file, none where it is missing. No more are read than tell that it is too long.
fn sheet_bytes(rt: &HostRuntime, name: &str) -> io::Result<Vec<u8>> {
    let mut bytes = Vec::new(rt.alloc());
    // A match and no `?`: a missing file is no error here, and every other is.
    match fs::open(rt, name) {
        Ok(file) => {
            file.take(MOST_READ).read_to_end(&mut bytes)?;
            Ok(bytes)
        }
        Err(error) if error.kind() == ErrorKind::NotFound => Ok(bytes),
        Err(error) => Err(error),
    }
}
