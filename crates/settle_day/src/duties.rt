//! The call that is made of a row of each sheet.
ghost use Rattle.std.specs.Prelude.{◌≡◌, ◌-◌, ◌^◌, min, pos};

use day::MemberKind;
use house::House;
use parting::LargestRemainder;
use pool::{Pool, Refusal};
use sheet_kinds::{GridNumbers, MemberRow, ReadingNumbers};

pub type HousePool = Pool<House, LargestRemainder>;

/// A number of a sheet, which has ten digits at most, as a number of a call.
fn number(value: u64) -> i64
    ensures answer { result ≡ pos (min value (2 ^ 63 - 1)) }
{
    i64::try_from(value).unwrap_or(i64::MAX)
}

pub fn enrol(pool: &mut HousePool, row: MemberRow) -> Result<(), Refusal> {
    pool.enrol(number(row.kind)).map(|_| ())
}

/// The amount of a member of kind 4, and of any whose row has one.
pub fn amount(pool: &mut HousePool, member: i64, row: MemberRow) -> Result<(), Refusal> {
    let kind = MemberKind::try_from(number(row.kind));
    if matches!(kind, Ok(MemberKind::Regional)) || row.pays != 0 || row.gets != 0 {
        let paise = number(row.pays).wrapping_sub(number(row.gets));
        pool.amount(member, paise)
    } else {
        Ok(())
    }
}

pub fn grid_row(pool: &mut HousePool, row: GridNumbers) -> Result<(), Refusal> {
    pool.grid_row(number(row.block), number(row.hz100), number(row.price))
}

pub fn reading(pool: &mut HousePool, row: ReadingNumbers) -> Result<(), Refusal> {
    pool.reading(
        number(row.member),
        number(row.block),
        number(row.scheduled),
        number(row.metered),
        number(row.available),
    )
}
