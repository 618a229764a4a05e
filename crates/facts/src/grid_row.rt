//! The grid's row of one block. Each that exists lies within its limits.
ghost use Rattle.std.specs.Prelude.{ℕ, ◌≤◌};
ghost use Rattle.quantities.specs.Limits.{least_hz100, most_hz100};

use quantities::Rate;

#[derive(Clone, Copy)]
pub struct GridRow {
    /// Frequency, in hundredths of a hertz.
    pub(crate) hz100: u32,
    pub(crate) price: Rate,
    ghost fits: { (least_hz100 ≤ hz100) × (hz100 ≤ most_hz100) },
}
