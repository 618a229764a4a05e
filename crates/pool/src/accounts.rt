//! The table of accounts: one account is changed through it.
ghost use Rattle.std.specs.Prelude.{◌≡◌, ℕ, ◌<◌, ◌≤◌, length, replicate, pos, ◌+ℤ◌, neg_ℤ, FitsSigned};
ghost use Rattle.day.specs.Records.{record_count};
ghost use Rattle.pool.specs.Standing.{added, line_at, owing, posted, sum_at};
ghost use Rattle.std.specs.Int.{w64};

use crate::limits::ACCOUNTS;
use day::Record;
use quantities::Paise;

/// What an account owes to the pool; what is due to it is negative.
#[derive(Clone, Copy, PartialEq, Default)]
pub struct Account {
    pub sum: Paise,
}

/// An account for each member, in their order, and the reserve's after them.
#[derive(Clone, Copy, PartialEq)]
pub struct Accounts {
    pub table: [Account; ACCOUNTS],
}

/// The place of an account in the table.
#[derive(Clone, Copy)]
pub(crate) struct AccountPlace {
    pub(crate) place: usize,
    ghost within: { place < record_count },
}

impl Accounts {
    pub(crate) fn new() -> Accounts
        ensures answer { result.table ≡ replicate record_count (owing (pos 0)) }
    {
        Accounts {
            table: [Account::default(); ACCOUNTS],
        }
    }

    pub(crate) fn sum(&self, account: AccountPlace) -> Paise
        ensures answer { result.paise ≡ sum_at self.now.table account.place }
    {
        self.table[account.place].sum
    }

    /// One account owes so much more.
    pub(crate) fn raise(&mut self, account: AccountPlace, sum: Paise)
        requires fits { FitsSigned w64 (sum_at self.old.table account.place +ℤ sum.paise) }
        ensures after { self.new.table ≡ added self.old.table account.place sum.paise }
    {
        let account = &mut self.table[account.place];
        account.sum = account.sum + sum;
    }

    /// One account owes so much less; a call of its own, since money has no negation.
    pub(crate) fn lower(&mut self, account: AccountPlace, sum: Paise)
        requires fits { FitsSigned w64 (sum_at self.old.table account.place +ℤ neg_ℤ sum.paise) }
        ensures after { self.new.table ≡ added self.old.table account.place (neg_ℤ sum.paise) }
    {
        let account = &mut self.table[account.place];
        account.sum = account.sum - sum;
    }

    /// Adds each line to its account.
    pub(crate) fn post(&mut self, records: &[Record])
        requires as_many { length records.now ≡ record_count }
        requires fits { (k : ℕ) → k < record_count → FitsSigned w64 (sum_at self.old.table k +ℤ line_at records.now k) }
        ensures after { self.new.table ≡ posted self.old.table records.now }
    {
        // By place, since a proof knows nothing of what is written through a `zip` with `iter_mut`.
        for (place, record) in records.iter().enumerate() {
            self.raise(AccountPlace { place }, record.line);
        }
    }
}
