//! The calls that both suppliers are given: five days of five members, with refused calls among them.
use journal::Call;
use std::alloc::{AllocError, Global};

const BLOCKS: i64 = 96;

const DAYS: i64 = 5;
/// Buyer, seller, solar or wind, regional amount, buyer; then one that no kind has.
const KINDS: [i64; 6] = [1, 2, 3, 4, 1, 5];
/// The members with readings.
const METERED: [i64; 4] = [0, 1, 2, 4];

pub fn all_calls(heap: Global) -> Result<Vec<Call>, AllocError> {
    let mut calls = Vec::new(heap);
    for kind in KINDS {
        calls.push(Call::Enrol { kind })?;
    }
    for day in 1..=DAYS {
        enter_day(&mut calls, day)?;
        end_day(&mut calls, day)?;
        pay(&mut calls, day)?;
    }
    Ok(calls)
}

/// The grid's row of a block, over every step of the vector.
fn grid_row(day: i64, block: i64) -> Call {
    let step = (block.wrapping_mul(7).wrapping_add(day)).rem_euclid(30);
    Call::GridRow {
        block,
        hz100: 4_980i64.wrapping_add(step),
        price: 3_000i64.wrapping_add(block.wrapping_mul(11)),
    }
}

/// A member's reading of a block: seven blocks above the schedule, then some below or on it.
fn reading(day: i64, member: i64, block: i64) -> Call {
    let scheduled = 9_000i64.wrapping_add(member.wrapping_mul(400));
    let turn = block
        .wrapping_add(member.wrapping_mul(3))
        .wrapping_add(day)
        .rem_euclid(12);
    let off = if turn < 7 {
        turn.wrapping_mul(250)
    } else {
        turn.wrapping_sub(8).wrapping_mul(-300)
    };
    let available = if member == 2 { 9_000 } else { 0 };
    Call::Reading {
        member,
        block,
        scheduled,
        metered: scheduled.wrapping_add(off),
        available,
    }
}

fn enter_day(calls: &mut Vec<Call>, day: i64) -> Result<(), AllocError> {
    calls.push(Call::Open { day })?;
    for block in 0..BLOCKS {
        calls.push(grid_row(day, block))?;
        for member in METERED {
            calls.push(reading(day, member, block))?;
        }
    }
    // A reading for a regional amount, and one out of the day.
    calls.push(reading(day, 3, 0))?;
    calls.push(reading(day, 0, BLOCKS))?;
    calls.push(Call::Close { room: 17 })?;
    calls.push(Call::Amount {
        member: 3,
        paise: day.wrapping_mul(-125_000),
    })?;
    Ok(())
}

/// The third day is dropped; the others are closed, after a close that lends too little.
fn end_day(calls: &mut Vec<Call>, day: i64) -> Result<(), AllocError> {
    if day == 3 {
        calls.push(Call::DropDay)?;
    } else {
        calls.push(Call::Close { room: 16 })?;
        calls.push(Call::Close { room: 20 })?;
    }
    calls.push(Call::Open { day: 1 })?;
    Ok(())
}

fn pay(calls: &mut Vec<Call>, day: i64) -> Result<(), AllocError> {
    for account in 0..17 {
        calls.push(Call::Account { account })?;
        calls.push(Call::PayIn {
            account,
            paise: day.wrapping_mul(1_000),
        })?;
        calls.push(Call::PayOut {
            account,
            paise: day.wrapping_mul(700),
        })?;
    }
    calls.push(Call::Cash)?;
    Ok(())
}
