//! The day that the three sheets stand for, settled in memory.
use crate::duties::{HousePool, amount, enrol, grid_row, reading};
use crate::stop::Stop;
use day::{RECORDS, Record};
use house::house;
use parting::LargestRemainder;
use pool::{Pool, Refusal};
use sheet_files::{Sheets, test_sheets};
use sheet_kinds::{Grid, Members, Readings, SheetKind};
use sheets::NamedSheet;

/// More lines than a sheet can have.
const LINES: usize = 65_537;

/// Gives each row of a sheet, with its place among them, its call, up to the first refusal, and answers how many there are.
fn pass<K: SheetKind, F: Fn(&mut HousePool, i64, K::Row) -> Result<(), Refusal>>(
    kind: &K,
    bytes: &[u8],
    pool: &mut HousePool,
    call: F,
) -> Result<usize, Stop>
    requires { F.IsAlwaysCallable call }
{
    let mut sheet = NamedSheet::open(kind, bytes)?;
    // Not `while let`: the bound shows that the loop ends, and the place is a number of the call.
    for place in 0..LINES {
        let Some(row) = sheet.next_row(kind)? else {
            return Ok(place);
        };
        call(pool, place as i64, row).map_err(|refusal| Stop::Refused {
            sheet: kind.sheet(),
            line: place + 2,
            refusal,
        })?;
    }
    Ok(LINES)
}

/// The records of the day, and how many members it has.
#[derive(Drop)]
pub struct Settled {
    pub members: usize,
    pub records: [Record; RECORDS],
}

/// Settles the day of three sheets, which are tested whole before the first call.
pub fn settle(sheets: &Sheets) -> Result<Settled, Stop> {
    test_sheets(&sheets.members, &sheets.grid, &sheets.readings)?;
    let mut pool = Pool::new(house(), LargestRemainder);
    let members = pass(&Members, &sheets.members, &mut pool, |pool, _, row| {
        enrol(pool, row)
    })?;
    pool.open(1).map_err(Stop::Unclosed)?;
    pass(&Members, &sheets.members, &mut pool, amount)?;
    pass(&Grid, &sheets.grid, &mut pool, |pool, _, row| {
        grid_row(pool, row)
    })?;
    pass(&Readings, &sheets.readings, &mut pool, |pool, _, row| {
        reading(pool, row)
    })?;
    let mut records = [Record::default(); RECORDS];
    pool.close(&mut records).map_err(Stop::Unclosed)?;
    Ok(Settled { members, records })
}
