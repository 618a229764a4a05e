//! The rows of a day that tables keep, as plain numbers, one for each block.

/// The blocks of a day.
pub const BLOCKS: usize = 96;

/// A member's reading of one block, in kWh.
#[derive(Clone, Copy)]
pub struct ReadingEntry {
    pub scheduled: u32,
    pub metered: u32,
    pub available: u32,
}

/// The grid's row of one block: hundredths of a hertz, and tenths of a paisa per kWh.
#[derive(Clone, Copy)]
pub struct GridEntry {
    pub hz100: u32,
    pub price: u32,
}
