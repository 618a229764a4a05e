//! Payments.
ghost use Rattle.std.specs.Prelude.{◌≡◌, true, false, not, is_ok, if◌then◌else◌, Err, Result, MatchResult, unsigned_abs};
ghost use Rattle.pool.specs.Calls.{paid_in, paid_out, paying_in, paying_out};
ghost use Rattle.pool.specs.Rules.{has_account, unless};
ghost use Rattle.pool.specs.declared.refusal.Refusal.{Refusal};
ghost use Rattle.quantities.specs.Limits.{most_money, within};

use crate::accounts::AccountPlace;
use crate::entries::place_below;
use crate::limits::RESERVE;
use crate::pool::Pool;
use crate::refusal::Refusal;
use quantities::Paise;

impl<T, R> Pool<T, R> {
    /// The place of a member's account, or of the reserve's, by its number.
    pub(crate) fn account_named(&self, number: i64) -> Result<AccountPlace, Refusal>
        ensures answer { MatchResult result (λ k. (has_account self.now.book.count number ≡ true) × (k.place ≡ unsigned_abs number)) (λ e. (has_account self.now.book.count number ≡ false) × (e ≡ Refusal.NotEnrolled)) }
    {
        let reserve = (number == RESERVE as i64).then_some(RESERVE);
        let place = place_below(number, self.book.count)
            .or(reserve)
            .ok_or(Refusal::NotEnrolled)?;
        Ok(AccountPlace { place })
    }

    /// The account and the sum of a payment.
    fn payment(&self, account: i64, paise: i64) -> Result<(AccountPlace, Paise), Refusal>
        ensures answer { MatchResult result (λ x. (has_account self.now.book.count account ≡ true) × (x.0.place ≡ unsigned_abs account) × (within 1 most_money paise ≡ true) × (x.1.paise ≡ paise)) (λ e. (next : Result (Unit {0}) Refusal) → unless (not (has_account self.now.book.count account)) Refusal.NotEnrolled (unless (not (within 1 most_money paise)) Refusal.OutsideLimit next) ≡ Err e) }
    {
        let place = self.account_named(account)?;
        let sum = Paise::payment(paise).ok_or(Refusal::OutsideLimit)?;
        Ok((place, sum))
    }

    /// Takes a payment in from an account that owes as much.
    pub fn pay_in(&mut self, account: i64, paise: i64) -> Result<(), Refusal>
        ensures answer { result ≡ paying_in self.old.book account paise }
        ensures after { self.new.book ≡ (if is_ok result then paid_in self.old.book account paise else self.old.book) }
        ensures tariff { self.new.tariff ≡ self.old.tariff }
        ensures rule { self.new.rule ≡ self.old.rule }
    {
        let (debtor, payment) = self.payment(account, paise)?;
        if self.book.accounts.sum(debtor) < payment {
            return Err(Refusal::MoreThanDue);
        }
        self.book.accounts.lower(debtor, payment);
        self.book.cash = self.book.cash + payment;
        Ok(())
    }

    /// Pays out to an account to which as much is due, from the cash.
    pub fn pay_out(&mut self, account: i64, paise: i64) -> Result<(), Refusal>
        ensures answer { result ≡ paying_out self.old.book account paise }
        ensures after { self.new.book ≡ (if is_ok result then paid_out self.old.book account paise else self.old.book) }
        ensures tariff { self.new.tariff ≡ self.old.tariff }
        ensures rule { self.new.rule ≡ self.old.rule }
    {
        let (creditor, payment) = self.payment(account, paise)?;
        let due = Paise::NOTHING - self.book.accounts.sum(creditor);
        if due < payment {
            return Err(Refusal::MoreThanDue);
        }
        if self.book.cash < payment {
            return Err(Refusal::MoreThanCash);
        }
        self.book.accounts.raise(creditor, payment);
        self.book.cash = self.book.cash - payment;
        Ok(())
    }
}
