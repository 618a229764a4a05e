//! The limits of the quantities, and the test of a number of a call against two of them.
ghost use Rattle.std.specs.Prelude.{◌≡◌, ℕ, true, false, pos, MatchOption};
ghost use Rattle.quantities.specs.Limits.{within};

/// Energy of one block, in kWh.
pub const MOST_KWH: u32 = 100_000;

/// Frequency, in hundredths of a hertz.
pub const LEAST_HZ100: u32 = 4_800;

pub const MOST_HZ100: u32 = 5_200;

/// Price and every rate, in tenths of a paisa per kWh.
pub const MOST_RATE: u32 = 8_000;

/// The charge of one block either way, in paise.
pub const MOST_CHARGE: i64 = 100_000_000;

/// A payment, a regional amount either way, and each side of a day, in paise.
pub const MOST_MONEY: u64 = 3_000_000_000;

/// The number itself, where it lies between two limits.
pub fn limited(number: i64, least: u32, most: u32) -> Option<u32>
    ensures answer { MatchOption result (within least most number ≡ false) (λ n. (within least most number ≡ true) × (number ≡ pos n)) }
{
    u32::try_from(number)
        .ok()
        .filter(|n| (least..=most).contains(n))
}
