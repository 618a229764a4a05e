//! The deviation by bands of the available energy.
ghost use Rattle.tariff.specs.Bands.{bands_charge};
ghost use Rattle.std.proofs.Common.{rules};

use crate::Tariff;
use facts::BlockFacts;
use quantities::{Paise, Rate};

#[derive(Clone, Copy)]
pub struct Bands;

impl Tariff for Bands {
    ghost meaning = { λ _ f. bands_charge f };

    ghost bounded = { Prim.search rules };

    ghost level = { Prim.search rules };

    fn charge(&self, facts: &BlockFacts) -> Paise {
        let available = facts.available();
        let deviation = facts.deviation().percent(100);
        let band = |low, high| {
            deviation
                .at_most(available.percent(high))
                .less(available.percent(low))
        };
        let beyond = deviation.less(available.percent(35));
        Paise::in_bands([
            (Rate::of::<500>(), band(15, 25)),
            (Rate::of::<1_000>(), band(25, 35)),
            (Rate::of::<1_500>(), beyond),
        ])
    }
}
