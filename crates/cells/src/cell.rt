//! A cell as it is handed out: a number, empty, or other bytes.
ghost use Rattle.cells.specs.Shown.{shown, bytes_of};
ghost use Rattle.std.specs.Prelude.{◌≡◌};

/// The bytes of a cell, lent by the sheet, and where they stand in it.
#[derive(Clone, Copy)]
pub struct CellBytes<'a> {
    pub bytes: &'a [u8],
    pub start: usize,
}

#[derive(Clone, Copy)]
pub enum Cell<'a> {
    /// 1 to 10 digits, with no leading zero but in 0 itself, and their value.
    Number(CellBytes<'a>, u64),
    /// No bytes.
    Empty(CellBytes<'a>),
    /// All the rest.
    Other(CellBytes<'a>),
}

impl<'a> Cell<'a> {
    /// The bytes of the cell and their place, whatever they mean.
    fn place(self) -> CellBytes<'a>
        ensures answer { result ≡ bytes_of self.entry }
    {
        match self {
            Cell::Number(at, _) | Cell::Empty(at) | Cell::Other(at) => at,
        }
    }

    /// The bytes of the cell.
    pub fn bytes(self) -> &'a [u8]
        ensures answer { result.now ≡ (shown self.entry).bytes }
    {
        self.place().bytes
    }

    /// How many bytes the cell has.
    pub fn len(self) -> usize
        ensures answer { result ≡ (shown self.entry).len }
    {
        self.place().bytes.len()
    }
}
