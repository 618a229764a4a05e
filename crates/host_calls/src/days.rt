//! One full day closed many times, to be timed.
use day::{DayEntries, MEMBERS, Member, MemberKind, RECORDS, Record, close_day};
use facts::Kind;
use house::{House, house};
use member_day::{BLOCKS, GridEntry, ReadingEntry};
use parting::LargestRemainder;

/// What is answered for a day that is not closed: the C interface answers a number.
const NOT_CLOSED: i64 = i64::MIN;

/// A row's number, none where it is below 0 or does not fit.
fn number(given: i64) -> Option<u32> {
    u32::try_from(given).ok()
}

// Functions and no `TryFrom`, since neither the row nor the entry is a type of this crate.
fn grid_entry(row: [i64; 2]) -> Option<GridEntry> {
    let [hz100, price] = row;
    Some(GridEntry {
        hz100: number(hz100)?,
        price: number(price)?,
    })
}

fn reading_entry(row: [i64; 3]) -> Option<ReadingEntry> {
    let [scheduled, metered, available] = row;
    Some(ReadingEntry {
        scheduled: number(scheduled)?,
        metered: number(metered)?,
        available: number(available)?,
    })
}

/// The rows of the grid, as many as were given.
fn grid_of(numbers: &[i64]) -> [Option<GridEntry>; BLOCKS] {
    let mut grid = [None; BLOCKS];
    let (rows, _) = numbers.as_chunks::<2>();
    for (entry, row) in grid.iter_mut().zip(rows) {
        *entry = grid_entry(*row);
    }
    grid
}

/// The member of a kind, with as many readings as were given.
fn member_of(kind: MemberKind, rows: &[[i64; 3]]) -> Member {
    let mut readings = [None; BLOCKS];
    for (reading, row) in readings.iter_mut().zip(rows) {
        *reading = reading_entry(*row);
    }
    Member {
        kind,
        amount: None,
        readings,
    }
}

/// A member of each place, a buyer without readings where no kind was given.
fn members_of(kinds: &[i64], numbers: &[i64]) -> [Member; MEMBERS] {
    let (rows, _) = numbers.as_chunks::<3>();
    let mut rest = rows;
    let mut members = [member_of(MemberKind::Metered(Kind::Buyer), &[]); MEMBERS];
    for (member, kind) in members.iter_mut().zip(kinds) {
        let (own, after) = rest.split_at(BLOCKS.min(rest.len()));
        rest = after;
        if let Ok(kind) = MemberKind::try_from(*kind) {
            *member = member_of(kind, own);
        }
    }
    members
}

/// The lines, each times its place from 1 on: alone they add to zero.
fn weighed(records: &[Record]) -> i64 {
    records
        .iter()
        .zip(1i64..)
        .fold(0i64, |sum, (record, place)| {
            sum.wrapping_add(place.wrapping_mul(record.line.count()))
        })
}

/// What the lines come to, none where the day cannot be closed.
fn close_once(tariff: &House, entries: &DayEntries) -> Option<i64> {
    let mut records = [Record::default(); RECORDS];
    close_day(tariff, &LargestRemainder, entries, &mut records).ok()?;
    Some(weighed(&records))
}

/// Closes the day so many times, and adds up what its lines come to.
fn close_again(entries: &DayEntries, times: u32) -> Option<i64> {
    let tariff = house();
    let mut sum = 0i64;
    for _ in 0..times {
        sum = sum.wrapping_add(close_once(&tariff, entries)?);
    }
    Some(sum)
}

/// Enters a day of 16 members by their kinds, two numbers for each block's grid row and three for each reading,
/// member after member, and closes it so many times. Answers the sum of all lines, each times its place from 1
/// on, kept to 64 bits, or the least number where the day cannot be closed.
///
/// What is proved here is that this is safe, whatever the numbers. That the day is closed as it should is the
/// contract of `close_day`; how the numbers are entered is not stated.
#[unsafe(no_mangle)]
pub extern "C" fn niszorgy_host_close_days(
    kinds: &[i64],
    grid: &[i64],
    readings: &[i64],
    times: u32,
) -> i64 {
    let entries = DayEntries {
        grid: &grid_of(grid),
        members: &members_of(kinds, readings),
    };
    close_again(&entries, times).unwrap_or(NOT_CLOSED)
}
