//! The calls for C.
#![tactic(auto)]

ghost use Rattle.capi.specs.HouseAnswer.{house_answer};
ghost use Rattle.facts.specs.Refusals.{facts_from};
ghost use Rattle.std.specs.Prelude.{◌≡◌};

use facts::{BlockFacts, FactsNumbers};
use house::house_charge;

/// A refusal's number is answered above this. No charge lies there.
const REFUSED: i64 = 1_000_000_000;

/// The house pile's charge for one block in paise: 1,000,000,003 for a kind outside 1 to 3, else
/// 1,000,000,004 for facts outside their limits, else the charge. The frequency is in hundredths of
/// a hertz, the price in tenths of a paisa per kWh.
#[unsafe(no_mangle)]
pub extern "C" fn niszorgy_house_charge(
    kind: i64,
    scheduled: i64,
    metered: i64,
    available: i64,
    frequency: i64,
    price: i64,
) -> i64
    ensures answer { result ≡ house_answer (facts_from kind scheduled metered available frequency price) }
{
    let numbers = FactsNumbers {
        kind,
        scheduled,
        metered,
        available,
        hz100: frequency,
        price,
    };
    BlockFacts::try_from(numbers).map_or_else(
        |refusal| REFUSED + refusal.number(),
        |facts| house_charge(&facts).count(),
    )
}
