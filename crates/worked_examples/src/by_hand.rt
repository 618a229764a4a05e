//! What the code answers to the examples worked by hand; those proved stand in the contracts.
ghost use Rattle.facts.specs.Refusals.{facts_from};
ghost use Rattle.std.specs.Prelude.{◌≡◌, false, pos, is_ok, MatchResult};
ghost use Rattle.worked_examples.specs.ByHand.{RatesByHand, LimitsByHand, BandsByHand, HouseByHand};

use facts::{BlockFacts, FactsNumbers, FactsRefusal};
use house::house_charge;
use quantities::{Kwh, Paise, Rate};
use tariff::{Bands, charge_by, vector_rate, volume_limit};

/// The price of the examples, in tenths of a paisa per kWh.
pub const PRICE: i64 = 4_000;

// Four functions that differ in what they ask, since the contract of each is another table of examples.

/// The vector's rate at this frequency and a price of 4,000.
pub fn rate_at(hz100: i64) -> Result<Rate, FactsRefusal>
    ensures answer { MatchResult result (λ x. RatesByHand hz100 x.tenths) (λ _. is_ok (facts_from (pos 1) (pos 0) (pos 0) (pos 0) hz100 (pos 4000)) ≡ false) }
{
    let facts = BlockFacts::try_from(FactsNumbers {
        kind: 1,
        hz100,
        price: PRICE,
        ..FactsNumbers::default()
    })?;
    Ok(vector_rate(&facts))
}

/// The volume limit at this scheduled energy.
#[tactic(auto, unfolding(tariff::specs::Volume::volume_limit))]
pub fn limit_at(scheduled: i64) -> Result<Kwh, FactsRefusal>
    ensures answer { MatchResult result (λ x. LimitsByHand scheduled x.kwh) (λ _. is_ok (facts_from (pos 1) scheduled (pos 0) (pos 0) (pos 5000) (pos 0)) ≡ false) }
{
    let facts = BlockFacts::try_from(FactsNumbers {
        kind: 1,
        scheduled,
        hz100: 5_000,
        ..FactsNumbers::default()
    })?;
    Ok(volume_limit(&facts))
}

/// The charge by bands of this deviation, with 1,000 kWh available.
pub fn bands_at(deviation: i64) -> Result<Paise, FactsRefusal>
    ensures answer { MatchResult result (λ x. BandsByHand deviation x.paise) (λ _. is_ok (facts_from (pos 3) (pos 0) deviation (pos 1000) (pos 5000) (pos 0)) ≡ false) }
{
    let facts = BlockFacts::try_from(FactsNumbers {
        kind: 3,
        metered: deviation,
        available: 1_000,
        hz100: 5_000,
        ..FactsNumbers::default()
    })?;
    Ok(charge_by(&Bands, &facts))
}

/// The house pile's charge of a seller at a price of 4,000.
pub fn seller_at(scheduled: i64, metered: i64, hz100: i64) -> Result<Paise, FactsRefusal>
    ensures answer { MatchResult result (λ x. HouseByHand scheduled metered hz100 x.paise) (λ _. is_ok (facts_from (pos 2) scheduled metered (pos 0) hz100 (pos 4000)) ≡ false) }
{
    let facts = BlockFacts::try_from(FactsNumbers {
        kind: 2,
        scheduled,
        metered,
        available: 0,
        hz100,
        price: PRICE,
    })?;
    Ok(house_charge(&facts))
}
