//! One call performed on a pool, and noted.
ghost use Rattle.std.specs.Prelude.{◌≡◌, [], ◌∷◌, length};
ghost use Rattle.day.specs.Records.{record_count};
ghost use Rattle.journal.specs.Answers.{done};
ghost use Rattle.journal.specs.Law.{Carries};
ghost use Rattle.journal.specs.Steps.{outcome};
ghost use Rattle.pool.specs.Calls.{closing_of};

use crate::{Answer, Call, Entry, Reply};
use day::{RECORDS, Record};
use parting::PartingRule;
use pool::{Pool, Refusal};
use tariff::Tariff;

fn done(res: Result<(), Refusal>) -> Answer
    ensures answer { result ≡ done res }
{
    res.map(|()| Reply::Done)
}

/// A close that lends so many records; seventeen are enough.
fn close<T: Tariff, R: PartingRule>(
    pool: &mut Pool<T, R>,
    room: usize,
    records: &mut [Record; RECORDS],
) -> Answer
    ensures answer { result ≡ done (closing_of (T.Tariff.meaning pool.old.tariff) pool.old.book room) }
    ensures after { pool.new.book ≡ (outcome (T.Tariff.meaning pool.old.tariff) (R.PartingRule.shares pool.old.rule) pool.old.book (Call.Close room)).book }
    ensures records { records.new ≡ (outcome (T.Tariff.meaning pool.old.tariff) (R.PartingRule.shares pool.old.rule) pool.old.book (Call.Close room)).records records.old }
    ensures tariff { pool.new.tariff ≡ pool.old.tariff }
    ensures rule { pool.new.rule ≡ pool.old.rule }
{
    let lent = room.min(RECORDS);
    done(pool.close(&mut records[0..lent]))
}

/// One match over all calls: they are values, since a journal holds them.
fn answer_to<T: Tariff, R: PartingRule>(
    pool: &mut Pool<T, R>,
    call: Call,
    records: &mut [Record; RECORDS],
) -> Answer
    ensures answer { result ≡ (outcome (T.Tariff.meaning pool.old.tariff) (R.PartingRule.shares pool.old.rule) pool.old.book call).answer }
    ensures after { pool.new.book ≡ (outcome (T.Tariff.meaning pool.old.tariff) (R.PartingRule.shares pool.old.rule) pool.old.book call).book }
    ensures records { records.new ≡ (outcome (T.Tariff.meaning pool.old.tariff) (R.PartingRule.shares pool.old.rule) pool.old.book call).records records.old }
    ensures tariff { pool.new.tariff ≡ pool.old.tariff }
    ensures rule { pool.new.rule ≡ pool.old.rule }
{
    match call {
        Call::Enrol { kind } => pool.enrol(kind).map(Reply::Enrolled),
        Call::Open { day } => done(pool.open(day)),
        Call::GridRow {
            block,
            hz100,
            price,
        } => done(pool.grid_row(block, hz100, price)),
        Call::Reading {
            member,
            block,
            scheduled,
            metered,
            available,
        } => done(pool.reading(member, block, scheduled, metered, available)),
        Call::Amount { member, paise } => done(pool.amount(member, paise)),
        Call::Close { room } => close(pool, room, records),
        Call::DropDay => done(pool.discard()),
        Call::PayIn { account, paise } => done(pool.pay_in(account, paise)),
        Call::PayOut { account, paise } => done(pool.pay_out(account, paise)),
        Call::Account { account } => pool.account(account).map(Reply::Sum),
        Call::Cash => Ok(Reply::Sum(pool.cash())),
    }
}

/// Performs a call, and notes it with its answer, the records of a closed day, the accounts and the cash.
pub fn perform<T: Tariff, R: PartingRule>(pool: &mut Pool<T, R>, call: Call) -> Entry
    ensures call { result.call ≡ call }
    ensures stands { Carries (T.Tariff.meaning pool.old.tariff) (R.PartingRule.shares pool.old.rule) pool.old.book (result ∷ []) pool.new.book }
    ensures tariff { pool.new.tariff ≡ pool.old.tariff }
    ensures rule { pool.new.rule ≡ pool.old.rule }
{
    let mut records = [Record::default(); RECORDS];
    let answer = answer_to(pool, call, &mut records);
    Entry {
        call,
        answer,
        records,
        accounts: pool.accounts(),
        cash: pool.cash(),
    }
}
