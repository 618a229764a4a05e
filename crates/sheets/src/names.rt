//! Which columns a line of names gives.
ghost use Rattle.std.specs.Prelude.{◌≡◌, ℕ, ◌≤◌, map, length, drop, position, ◌==◌};
ghost use Rattle.std.specs.List.{list_any};
ghost use Rattle.cells.specs.Cells.{lines, texts};
ghost use Rattle.cells.specs.Left.{cells_left, others};
ghost use Rattle.sheets.specs.Columns.{columns_of};
ghost use Rattle.sheets.specs.Listed.{column_list};
ghost use Rattle.std.specs.Option.{option_map};
ghost use Rattle.std.specs.Str.{bytes_eq};

use crate::columns::Columns;
use cells::LineCells;
use sheet_kinds::{MOST_NAMES, SheetKind};

/// The place of a name in the table.
pub(crate) fn index_of(names: &[&[u8]], name: &[u8]) -> Option<usize>
    ensures answer { result ≡ position (λ n. bytes_eq n name.now) (map (λ x. x.now) names.now) }
{
    names.iter().position(|n| *n == name)
}

/// Is this column among those that are taken?
pub(crate) fn is_taken(taken: &[usize], k: usize) -> bool
    ensures answer { result ≡ list_any (λ y. y == k) taken.now }
{
    taken.contains(&k)
}

/// The columns of a line of names, where they are those of the kind, once each.
pub(crate) fn columns_of<K: SheetKind>(kind: &K, mut cells: LineCells) -> Option<Columns>
    ensures answer { option_map column_list result ≡ columns_of K.SheetKind.table.names (texts (cells_left cells.entry)) }
{
    let names = kind.names();
    let len = names.len();
    let mut at = [0; MOST_NAMES];
    // The place is needed: the columns before it are those that are taken.
    for i in 0..len {
        let cell = cells.next_cell()?;
        let k = index_of(names, cell.bytes())?;
        if is_taken(&at[..i], k) {
            return None;
        }
        at[i] = k;
    }
    if cells.has_cell() {
        return None;
    }
    Some(Columns { at, len })
}

/// Where the line after the one at `start` starts.
pub(crate) fn line_after(bytes: &[u8], start: usize) -> usize
    ensures answer { lines (drop result bytes.now) ≡ others (lines (drop start bytes.now)) }
    ensures few { length (lines (drop result bytes.now)) ≤ length bytes.now }
{
    LineCells::new(bytes, start).next_line()
}
