//! A pool: a tariff, a parting rule, and a book that is sound.
ghost use Rattle.pool.specs.Sound.{Sound};

use crate::book::Book;

#[derive(Drop)]
pub struct Pool<T, R> {
    pub(crate) tariff: T,
    pub(crate) rule: R,
    pub(crate) book: Book,
    ghost sound: { Sound book },
}
