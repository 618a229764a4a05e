//! The sheet of the grid.
ghost use Rattle.std.specs.Prelude.{ℕ};
ghost use Rattle.sheet_kinds.specs.Tables.{grid};
ghost use Rattle.std.proofs.Common.{rules};

use crate::kind::{MOST_NAMES, SheetKind};

/// What a line of the grid says.
#[derive(Clone, Copy)]
pub struct GridNumbers {
    pub block: u64,
    pub hz100: u64,
    pub price: u64,
}

#[derive(Clone, Copy)]
pub struct Grid;

impl SheetKind for Grid {
    type Row = GridNumbers;

    ghost table = { grid };

    ghost row_of = { λ v. record { block = v 0; hz100 = v 1; price = v 2 } };

    ghost names_apart = { Prim.search rules };

    ghost plain = { Prim.search rules };

    fn sheet(&self) -> u8 {
        2
    }

    fn names(&self) -> &[&[u8]] {
        &[b"block", b"hz100", b"price"]
    }

    fn may_be_empty(&self, column: usize) -> bool {
        false
    }

    fn row(&self, values: &[u64; MOST_NAMES]) -> GridNumbers {
        let [block, hz100, price, ..] = *values;
        GridNumbers {
            block,
            hz100,
            price,
        }
    }
}
