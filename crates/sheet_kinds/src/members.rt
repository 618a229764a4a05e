//! The sheet of members.
ghost use Rattle.std.specs.Prelude.{ℕ};
ghost use Rattle.sheet_kinds.specs.Tables.{members};
ghost use Rattle.std.proofs.Common.{rules};

use crate::kind::{MOST_NAMES, SheetKind};

/// What a line of members says.
#[derive(Clone, Copy)]
pub struct MemberRow {
    pub kind: u64,
    pub pays: u64,
    pub gets: u64,
}

#[derive(Clone, Copy)]
pub struct Members;

impl SheetKind for Members {
    type Row = MemberRow;

    ghost table = { members };

    ghost row_of = { λ v. record { kind = v 0; pays = v 1; gets = v 2 } };

    ghost names_apart = { Prim.search rules };

    ghost plain = { Prim.search rules };

    fn sheet(&self) -> u8 {
        1
    }

    fn names(&self) -> &[&[u8]] {
        &[b"kind", b"pays", b"gets"]
    }

    fn may_be_empty(&self, column: usize) -> bool {
        column >= 1
    }

    fn row(&self, values: &[u64; MOST_NAMES]) -> MemberRow {
        let [kind, pays, gets, ..] = *values;
        MemberRow { kind, pays, gets }
    }
}
