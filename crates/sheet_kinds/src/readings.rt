//! The sheet of readings.
ghost use Rattle.std.specs.Prelude.{ℕ};
ghost use Rattle.sheet_kinds.specs.Tables.{readings};
ghost use Rattle.std.proofs.Common.{rules};

use crate::kind::{MOST_NAMES, SheetKind};

/// What a line of readings says.
#[derive(Clone, Copy)]
pub struct ReadingNumbers {
    pub member: u64,
    pub block: u64,
    pub scheduled: u64,
    pub metered: u64,
    pub available: u64,
}

#[derive(Clone, Copy)]
pub struct Readings;

impl SheetKind for Readings {
    type Row = ReadingNumbers;

    ghost table = { readings };

    ghost row_of = { λ v. record { member = v 0; block = v 1; scheduled = v 2; metered = v 3; available = v 4 } };

    ghost names_apart = { Prim.search rules };

    ghost plain = { Prim.search rules };

    fn sheet(&self) -> u8 {
        3
    }

    fn names(&self) -> &[&[u8]] {
        &[b"member", b"block", b"scheduled", b"metered", b"available"]
    }

    fn may_be_empty(&self, column: usize) -> bool {
        column >= 4
    }

    fn row(&self, values: &[u64; MOST_NAMES]) -> ReadingNumbers {
        let [member, block, scheduled, metered, available, ..] = *values;
        ReadingNumbers {
            member,
            block,
            scheduled,
            metered,
            available,
        }
    }
}
