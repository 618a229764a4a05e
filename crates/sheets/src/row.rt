//! One line's cells, as the values of a row.
ghost use Rattle.std.specs.Prelude.{◌≡◌, ℕ};
ghost use Rattle.cells.specs.Cells.{texts};
ghost use Rattle.cells.specs.Left.{cells_left, SameSheet};
ghost use Rattle.sheets.specs.Listed.{column_list};
ghost use Rattle.sheets.specs.Rows.{read_row, map_ok, by_place};

use crate::columns::Columns;
use crate::values::{RowValues, value_of};
use cells::LineCells;
use sheet_kinds::{MOST_NAMES, RowFault, SheetKind, Spot};

/// The row of the cells that are left of the line `number`, where they are as many as the columns and each has a value.
pub(crate) fn read_row<K: SheetKind>(
    kind: &K,
    columns: &Columns,
    cells: &mut LineCells,
    number: usize,
) -> Result<K::Row, RowFault>
    ensures answer { result ≡ map_ok (λ v. K.SheetKind.row_of (by_place v)) (read_row K.SheetKind.table number (column_list columns.now) (texts (cells_left cells.old))) }
    ensures same { SameSheet cells.old cells.new }
{
    let sheet = kind.sheet();
    let miscounted = RowFault::Count {
        sheet,
        line: number,
    };
    let mut values = RowValues {
        at: [0; MOST_NAMES],
        first: Ok(()),
    };
    for (i, column) in columns.places().iter().enumerate() {
        let cell = cells.next_cell().ok_or(miscounted)?;
        let spot = Spot {
            sheet,
            line: number,
            cell: i + 1,
        };
        values.put(*column, value_of(cell, kind.may_be_empty(*column), spot));
    }
    if cells.has_cell() {
        return Err(miscounted);
    }
    values.first?;
    Ok(kind.row(&values.at))
}
