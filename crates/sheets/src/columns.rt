//! Which column of the table each column of a sheet is.
ghost use Rattle.sheet_kinds.specs.declared.kind.TheConstants.{MOST_NAMES};
ghost use Rattle.std.specs.Prelude.{ℕ, ◌<◌, ◌≤◌, slice_index};

use sheet_kinds::MOST_NAMES;

/// For each column of the sheet, from the left, the place of its name in the table. There is no heap: the places stand in an
/// array, and are copied with it.
#[derive(Clone, Copy)]
pub struct Columns {
    pub(crate) at: [usize; MOST_NAMES],
    pub(crate) len: usize,
    ghost few: { len ≤ MOST_NAMES },
    ghost inside: { (i : ℕ) → i < len → slice_index at i < len },
}

impl Columns {
    ghost use Rattle.std.specs.Prelude.{◌≡◌};
    ghost use Rattle.sheets.specs.Listed.{column_list};

    /// The places, from the left.
    pub(crate) fn places(&self) -> &[usize]
        ensures answer { result.now ≡ column_list self.now }
    {
        &self.at[..self.len]
    }
}
