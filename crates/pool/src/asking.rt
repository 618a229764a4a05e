//! Queries.
ghost use Rattle.pool.specs.Calls.{asking};
ghost use Rattle.std.specs.Prelude.{◌≡◌};

use crate::accounts::Accounts;
use crate::pool::Pool;
use crate::refusal::Refusal;
use quantities::Paise;

impl<T, R> Pool<T, R> {
    /// What an account owes; what is due to it is negative.
    pub fn account(&self, account: i64) -> Result<Paise, Refusal>
        ensures answer { result ≡ asking self.now.book account }
    {
        let place = self.account_named(account)?;
        Ok(self.book.accounts.sum(place))
    }

    pub fn cash(&self) -> Paise
        ensures answer { result ≡ self.now.book.cash }
    {
        self.book.cash
    }

    /// All accounts, the reserve's last.
    pub fn accounts(&self) -> Accounts
        ensures answer { result ≡ self.now.book.accounts }
    {
        self.book.accounts
    }
}
