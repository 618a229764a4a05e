//! The two sides of the pool's money.

#[derive(Clone, Copy, PartialEq, Eq)]
pub enum Side {
    /// Owed to the pool: a positive sum.
    Payable,
    /// Owed by the pool: a negative sum.
    Receivable,
}
