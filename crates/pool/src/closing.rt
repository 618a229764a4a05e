//! The records of the open day, and what an unclosed day is refused with.
ghost use Rattle.day.specs.Records.{record_count};
ghost use Rattle.pool.specs.Calls.{closed_with, closing_of, records_of, settling};
ghost use Rattle.pool.specs.Rules.{refusal_of};
ghost use Rattle.pool.specs.Sound.{Postable};
ghost use Rattle.std.specs.Prelude.{◌≡◌, true, ◌++◌, length, take, drop, is_ok, if◌then◌else◌};

use crate::pool::Pool;
use crate::refusal::Refusal;
use day::{DayEntries, RECORDS, Record, Unclosed, close_day};
use parting::PartingRule;
use tariff::Tariff;

impl From<Unclosed> for Refusal {
    ghost from_gives = { λ unclosed refusal. refusal ≡ refusal_of unclosed };

    fn from(unclosed: Unclosed) -> Refusal {
        match unclosed {
            Unclosed::Missing => Refusal::EntryMissing,
            Unclosed::Short => Refusal::TooFewRecords,
            Unclosed::TooMuch => Refusal::SideTooLarge,
        }
    }
}

impl<T: Tariff, R: PartingRule> Pool<T, R> {
    /// Fills the records of the day that the book holds.
    fn settle(&self, records: &mut [Record]) -> Result<(), Refusal>
        ensures answer { result ≡ settling (T.Tariff.meaning self.now.tariff) self.now.book (length records.old) }
        ensures records { records.new ≡ (if is_ok result then records_of (T.Tariff.meaning self.now.tariff) (R.PartingRule.shares self.now.rule) self.now.book ++ drop record_count records.old else records.old) }
        ensures lines { is_ok result ≡ true → Postable (take record_count records.new) }
    {
        let entries = DayEntries {
            grid: &self.book.grid,
            members: &self.book.members[0..self.book.count],
        };
        close_day(&self.tariff, &self.rule, &entries, records)?;
        Ok(())
    }

    /// Closes the open day: fills the first seventeen records, and adds each line to its account.
    pub fn close(&mut self, records: &mut [Record]) -> Result<(), Refusal>
        ensures answer { result ≡ closing_of (T.Tariff.meaning self.old.tariff) self.old.book (length records.old) }
        ensures records { records.new ≡ (if is_ok result then records_of (T.Tariff.meaning self.old.tariff) (R.PartingRule.shares self.old.rule) self.old.book ++ drop record_count records.old else records.old) }
        ensures after { self.new.book ≡ (if is_ok result then closed_with self.old.book (records_of (T.Tariff.meaning self.old.tariff) (R.PartingRule.shares self.old.rule) self.old.book) else self.old.book) }
        ensures tariff { self.new.tariff ≡ self.old.tariff }
        ensures rule { self.new.rule ≡ self.old.rule }
    {
        self.must_be_open()?;
        self.settle(records)?;
        self.book.accounts.post(&records[0..RECORDS]);
        self.book.opened = false;
        Ok(())
    }
}
