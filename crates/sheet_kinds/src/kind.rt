//! What a kind of sheet is: its names, which of its cells may be empty, and its row.
ghost use Rattle.std.specs.Prelude.{◌≡◌, ℕ, ◌≤◌, Bool, true, List, map, length, slice_index};
ghost use Rattle.sheet_kinds.specs.Tables.{Table, apart, plain_names};
ghost use Rattle.sheet_kinds.specs.declared.kind.TheConstants.{MOST_NAMES};

/// The most names that a kind has.
pub const MOST_NAMES: usize = 8;

pub trait SheetKind {
    type Row: Drop;

    /// The sheet's number, its names, and which of its columns may be empty.
    ghost table: { Table };

    /// The row that has these values, by the place of their names in the table.
    ghost row_of: { (ℕ → ℕ) → Self.Row };

    /// The sheet's number in a fault.
    fn sheet(&self) -> u8
        ensures answer { result ≡ table.number };

    fn names(&self) -> &[&[u8]]
        ensures answer { map (λ x. x.now) result.now ≡ table.names }
        ensures few { length result.now ≤ MOST_NAMES };

    /// May a cell of this column be empty? It then means 0.
    fn may_be_empty(&self, column: usize) -> bool
        ensures answer { result ≡ table.optional column };

    /// The row of these values, by the place of their names in the table.
    fn row(&self, values: &[u64; MOST_NAMES]) -> Self::Row
        ensures answer { result ≡ row_of (λ k. slice_index values.now k) };

    /// No name stands twice.
    ghost names_apart: { apart table.names ≡ true };

    /// Every byte of a name stands from 0 to z in the code, and so is no comma and no line feed.
    ghost plain: { plain_names table.names ≡ true };
}
