//! A sheet's three states: its names not yet accepted, accepted, and ended.
ghost use Rattle.std.specs.Prelude.{ℕ, ◌+◌, ◌≤◌, length, drop};
ghost use Rattle.cells.specs.Cells.{lines};

use crate::columns::Columns;

/// A sheet whose bytes were tested. Its names start at `at`.
#[derive(Drop)]
pub struct UnnamedSheet<'a> {
    pub(crate) bytes: &'a [u8],
    pub(crate) at: usize,
}

/// A sheet whose names are accepted. Its next line starts at `at` and is line `line`.
#[derive(Drop)]
pub struct NamedSheet<'a> {
    pub(crate) bytes: &'a [u8],
    pub(crate) at: usize,
    pub(crate) line: usize,
    pub(crate) columns: Columns,
    ghost begun: { 2 ≤ line },
    ghost counted: { line + length (lines (drop at bytes.now)) ≤ length bytes.now + 2 },
}

/// A sheet from which no more lines are taken.
#[derive(Drop)]
pub struct EndedSheet {
    pub(crate) rows: usize,
}
