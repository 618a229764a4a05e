//! All that a tariff may go by: the facts of one block.
ghost use Rattle.facts.specs.Facts.{plain, with_metered, deviation};
ghost use Rattle.facts.specs.Numbers.{AreFactsOf};
ghost use Rattle.std.specs.Prelude.{◌≡◌};

use crate::{FactsRefusal, GridRow, Kind, Reading};
use quantities::{Kwh, Rate};

#[derive(Clone, Copy)]
pub struct BlockFacts {
    reading: Reading,
    grid: GridRow,
}

/// The numbers of a block as they are given. The frequency is in hundredths of a hertz, the price in
/// tenths of a paisa per kWh.
#[derive(Clone, Copy, Default)]
pub struct FactsNumbers {
    pub kind: i64,
    pub scheduled: i64,
    pub metered: i64,
    pub available: i64,
    pub hz100: i64,
    pub price: i64,
}

impl TryFrom<FactsNumbers> for BlockFacts {
    type Error = FactsRefusal;

    ghost try_from_gives = { AreFactsOf };

    /// The kind is tested first, then every limit.
    fn try_from(numbers: FactsNumbers) -> Result<BlockFacts, FactsRefusal>
        ensures answer { AreFactsOf numbers result }
    {
        let FactsNumbers {
            kind,
            scheduled,
            metered,
            available,
            hz100,
            price,
        } = numbers;
        let kind = Kind::try_from(kind)?;
        let reading = Reading::new(kind, scheduled, metered, available);
        let rows = reading.zip(GridRow::new(hz100, price));
        let (reading, grid) = rows.ok_or(FactsRefusal::OutsideLimit)?;
        Ok(BlockFacts::new(reading, grid))
    }
}

impl BlockFacts {
    pub fn new(reading: Reading, grid: GridRow) -> BlockFacts
        ensures answer { (result.reading ≡ reading) × (result.grid ≡ grid) }
    {
        BlockFacts { reading, grid }
    }

    pub fn kind(&self) -> Kind
        ensures answer { result ≡ (plain self.now).kind }
    {
        self.reading.kind
    }

    pub fn scheduled(&self) -> Kwh
        ensures answer { result.kwh ≡ (plain self.now).scheduled }
    {
        self.reading.scheduled
    }

    pub fn metered(&self) -> Kwh
        ensures answer { result.kwh ≡ (plain self.now).metered }
    {
        self.reading.metered
    }

    pub fn available(&self) -> Kwh
        ensures answer { result.kwh ≡ (plain self.now).available }
    {
        self.reading.available
    }

    /// Frequency, in hundredths of a hertz.
    pub fn hz100(&self) -> u32
        ensures answer { result ≡ (plain self.now).hz100 }
    {
        self.grid.hz100
    }

    pub fn price(&self) -> Rate
        ensures answer { result.tenths ≡ (plain self.now).price }
    {
        self.grid.price
    }

    /// The magnitude of the deviation: metered less scheduled energy.
    pub fn deviation(&self) -> Kwh
        ensures answer { result.kwh ≡ deviation (plain self.now) }
    {
        self.metered().gap(self.scheduled())
    }

    /// The same facts, but for the metered energy.
    pub fn with_metered(&self, metered: Kwh) -> BlockFacts
        ensures answer { plain result ≡ with_metered (plain self.now) metered.kwh }
    {
        let mut changed = *self;
        changed.reading.metered = metered;
        changed
    }
}
