//! The number of each fault, 21 to 26, and where it is.
ghost use Rattle.sheet_kinds.specs.Faults.{cause_number, row_number, fault_number, row_spot, fault_spot, fault_line};
ghost use Rattle.std.specs.Prelude.{◌≡◌, Some};

use crate::fault::{CellCause, RowFault, SheetFault, Spot};
use std::fmt;

impl Spot {
    /// The place of a fault of a whole line.
    fn of_line(sheet: u8, line: usize) -> Spot
        ensures answer { result ≡ record { sheet = sheet; line = line; cell = 0 } }
    {
        Spot {
            sheet,
            line,
            cell: 0,
        }
    }

    /// The place of a fault of a whole sheet.
    fn of_sheet(sheet: u8) -> Spot
        ensures answer { result ≡ record { sheet = sheet; line = 0; cell = 0 } }
    {
        Spot::of_line(sheet, 0)
    }
}

impl CellCause {
    pub fn number(self) -> u8
        ensures answer { result ≡ cause_number self }
    {
        self as u8
    }
}

// Of the faults that hold values `as` gives no number, so that a match does.
impl RowFault {
    pub fn number(self) -> u8
        ensures answer { result ≡ row_number self }
    {
        match self {
            RowFault::Count { .. } => 24,
            RowFault::Cell(fault) => fault.cause.number(),
        }
    }

    pub fn spot(self) -> Spot
        ensures answer { result ≡ row_spot self }
    {
        match self {
            RowFault::Count { sheet, line } => Spot::of_line(sheet, line),
            RowFault::Cell(fault) => fault.spot,
        }
    }
}

impl SheetFault {
    pub fn number(self) -> u8
        ensures answer { result ≡ fault_number self }
    {
        match self {
            SheetFault::Long(_) => 21,
            SheetFault::Unended(_) => 22,
            SheetFault::Names(_) => 23,
            SheetFault::Row(fault) => fault.number(),
        }
    }

    pub fn spot(self) -> Spot
        ensures answer { result ≡ fault_spot self }
    {
        match self {
            SheetFault::Long(sheet) | SheetFault::Unended(sheet) => Spot::of_sheet(sheet),
            SheetFault::Names(sheet) => Spot::of_line(sheet, 1),
            SheetFault::Row(fault) => fault.spot(),
        }
    }
}

impl fmt::Display for SheetFault {
    ghost output = { λ fault. Some (fault_line fault) };

    fn fmt<W: fmt::Write>(&self, f: &mut fmt::Formatter<W>) -> fmt::Result {
        let Spot { sheet, line, cell } = self.spot();
        let number = self.number();
        write!(f, "{sheet},{line},{cell},{number}")
    }
}
