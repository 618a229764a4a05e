//! A reading and a grid row from the plain numbers of a row.
ghost use Rattle.facts.specs.Refusals.{reading_fits, grid_fits};
ghost use Rattle.facts.specs.Rows.{ReadingOf, GridRowOf};
ghost use Rattle.std.specs.Prelude.{◌≡◌, false, MatchOption};

use crate::{GridRow, Kind, Reading};
use quantities::{Kwh, LEAST_HZ100, MOST_HZ100, Rate, limited};

// Plain numbers and no struct of three: a call of the pool gives them so, and a row of the tables has another type.
impl Reading {
    /// The reading of these numbers of kWh, none where one of them is outside its limits.
    pub fn new(kind: Kind, scheduled: i64, metered: i64, available: i64) -> Option<Reading>
        ensures answer { MatchOption result (reading_fits kind scheduled metered available ≡ false) (ReadingOf kind scheduled metered available) }
    {
        let scheduled = Kwh::new(scheduled)?;
        let metered = Kwh::new(metered)?;
        let available = Kwh::new(available)?;
        if !kind.available().contains(&available) {
            return None;
        }
        Some(Reading {
            kind,
            scheduled,
            metered,
            available,
        })
    }
}

impl GridRow {
    /// The grid row of a frequency in hundredths of a hertz and a price in tenths of a paisa per kWh,
    /// none where one of them is outside its limits.
    pub fn new(hz100: i64, price: i64) -> Option<GridRow>
        ensures answer { MatchOption result (grid_fits hz100 price ≡ false) (GridRowOf hz100 price) }
    {
        let hz100 = limited(hz100, LEAST_HZ100, MOST_HZ100)?;
        let price = Rate::new(price)?;
        Some(GridRow { hz100, price })
    }
}
