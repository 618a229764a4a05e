//! Calls on a pool, given and answered as plain numbers.
ghost use Rattle.host_calls.specs.Called.{Performed, answer_numbers, coded_call, lending, record_numbers};
ghost use Rattle.host_calls.specs.Filled.{put_numbers, put_rows, SamePlace, so_far};
ghost use Rattle.std.specs.Prelude.{◌≡◌};

use crate::room::{Room, held};
use day::Record;
use house::house;
use journal::{Answer, Call, Reply, begin, perform};
use parting::{LargestRemainder, PartingRule};
use pool::Pool;
use tariff::Tariff;

/// The numbers of a call: its code, and five that it may need.
const NUMBERS: usize = 6;

/// So many records are lent, none where the number is below 0.
fn lent(room: i64) -> usize
    ensures answer { result ≡ lending room }
{
    usize::try_from(room).unwrap_or(0)
}

/// The call of these numbers, none where no call has the code: the C interface gives calls as plain numbers.
fn call_of(code: i64, a: i64, b: i64, c: i64, d: i64, e: i64) -> Option<Call>
    ensures answer { result ≡ coded_call code a b c d e }
{
    match code {
        1 => Some(Call::Enrol { kind: a }),
        2 => Some(Call::Open { day: a }),
        3 => Some(Call::GridRow {
            block: a,
            hz100: b,
            price: c,
        }),
        4 => Some(Call::Reading {
            member: a,
            block: b,
            scheduled: c,
            metered: d,
            available: e,
        }),
        5 => Some(Call::Amount {
            member: a,
            paise: b,
        }),
        6 => Some(Call::Close { room: lent(a) }),
        7 => Some(Call::DropDay),
        8 => Some(Call::PayIn {
            account: a,
            paise: b,
        }),
        9 => Some(Call::PayOut {
            account: a,
            paise: b,
        }),
        10 => Some(Call::Account { account: a }),
        11 => Some(Call::Cash),
        _ => None,
    }
}

/// Writes an answer: 0 for done, 1 and a member's number, 2 and a sum, 3 and a refusal's number.
fn put_answer(room: &mut Room<i64>, answer: Answer)
    ensures after { put_numbers (so_far room.old) (answer_numbers answer) ≡ so_far room.new }
    ensures same { SamePlace room.old room.new }
{
    let (sort, number) = match answer {
        Ok(Reply::Done) => (0, 0),
        Ok(Reply::Enrolled(member)) => (1, held(member)),
        Ok(Reply::Sum(sum)) => (2, sum.count()),
        Err(refusal) => (3, refusal.number()),
    };
    room.put(sort);
    room.put(number);
}

/// Writes base, surcharge and line.
fn put_record(room: &mut Room<i64>, of: &Record)
    ensures after { put_numbers (so_far room.old) (record_numbers of.now) ≡ so_far room.new }
    ensures same { SamePlace room.old room.new }
{
    room.put(of.base.count());
    room.put(of.surcharge.count());
    room.put(of.line.count());
}

/// Writes the records, each as base, surcharge and line.
fn put_records(room: &mut Room<i64>, records: &[Record])
    ensures after { put_rows record_numbers (so_far room.old) records.now ≡ so_far room.new }
    ensures same { SamePlace room.old room.new }
{
    for record in records {
        put_record(room, record);
    }
}

/// Performs a call, and writes its answer, and the records of the day that it closed.
fn put_performed<T: Tariff, R: PartingRule>(pool: &mut Pool<T, R>, call: Call, room: &mut Room<i64>)
    ensures performed { Performed (T.Tariff.meaning pool.old.tariff) (R.PartingRule.shares pool.old.rule) call pool.old.book pool.new.book (so_far room.old) (so_far room.new) }
    ensures same { SamePlace room.old room.new }
    ensures tariff { pool.new.tariff ≡ pool.old.tariff }
    ensures rule { pool.new.rule ≡ pool.old.rule }
{
    let entry = perform(pool, call);
    put_answer(room, entry.answer);
    if entry.closes_day() {
        put_records(room, &entry.records);
    }
}

/// Performs the calls on a new pool of the house pile and largest remainder, each given by six numbers: its
/// code and five that it may need. Writes for each call two numbers, and after those of a close that was
/// accepted base, surcharge and line of its 17 records, as far as there is room. Says how many it wrote. Numbers
/// whose code no call has are passed over.
///
/// Of each call it is proved which one its numbers mean, that it is performed and noted by the rules, and what is
/// written of it. Of the whole list only that it is safe, whatever the numbers and the room: that each call gets its
/// turn, in order and on one pool, is not stated.
#[unsafe(no_mangle)]
pub extern "C" fn niszorgy_host_calls(calls: &[i64], into: &mut [i64]) -> i64 {
    let mut pool = begin(house(), LargestRemainder);
    let mut room = Room::new(into);
    let (whole, _) = calls.as_chunks::<NUMBERS>();
    for [code, a, b, c, d, e] in whole {
        if let Some(call) = call_of(*code, *a, *b, *c, *d, *e) {
            put_performed(&mut pool, call, &mut room);
        }
    }
    held(room.at)
}
