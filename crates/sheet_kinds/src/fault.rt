//! A cell's fault inside a row's inside a sheet's, each passed up whole.
ghost use Rattle.sheet_kinds.specs.declared.fault.RowFault.TheVariants.{Cell};
ghost use Rattle.sheet_kinds.specs.declared.fault.SheetFault.TheVariants.{Row};
ghost use Rattle.std.specs.Prelude.{◌≡◌};

/// Where a fault is: the sheet's number, and the line and the cell, counted from 1. A fault of a whole sheet or line has 0
/// there. The sheet is a number and no enum, since a kind of sheet may be added outside this crate.
#[derive(Clone, Copy)]
pub struct Spot {
    pub sheet: u8,
    pub line: usize,
    pub cell: usize,
}

/// What is wrong with a cell, by the fault's number.
#[derive(Clone, Copy)]
pub enum CellCause {
    Empty = 25,
    NotNumber = 26,
}

#[derive(Clone, Copy)]
pub struct CellFault {
    pub spot: Spot,
    pub cause: CellCause,
}

/// What is wrong with a line of values.
#[derive(Clone, Copy)]
pub enum RowFault {
    /// The line of this sheet has another count of cells than there are names.
    Count { sheet: u8, line: usize },
    Cell(CellFault),
}

/// What is wrong with the sheet of this number.
#[derive(Clone, Copy)]
pub enum SheetFault {
    /// It has too many bytes.
    Long(u8),
    /// Its last byte is no line feed, or there is none.
    Unended(u8),
    /// Its names are not those of the kind, once each.
    Names(u8),
    Row(RowFault),
}

impl From<CellFault> for RowFault {
    ghost from_gives = { λ e r. r ≡ Cell e };

    fn from(e: CellFault) -> RowFault {
        RowFault::Cell(e)
    }
}

impl From<RowFault> for SheetFault {
    ghost from_gives = { λ e r. r ≡ Row e };

    fn from(e: RowFault) -> SheetFault {
        SheetFault::Row(e)
    }
}
