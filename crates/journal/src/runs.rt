//! Lists of calls performed on a pool and noted in a journal, and the law that every such run keeps.
ghost use Rattle.std.specs.Prelude.{◌≡◌, List, [], ◌++◌, reverse, take};
ghost use Rattle.day.specs.Alike.{AlikeRules, AlikeTariffs};
ghost use Rattle.journal.specs.Law.{Carries, Lawful, Noted, Same, Stands};
ghost use Rattle.journal.specs.declared.entry.Entry.{Entry};

use crate::performing::perform;
use crate::{Call, Entry};
use parting::PartingRule;
use pool::Pool;
use tariff::Tariff;

/// What a supplier brings: a tariff, a parting rule, and the calls for its pool.
pub struct Supplier<'a, T, R> {
    pub tariff: T,
    pub rule: R,
    pub calls: &'a [Call],
}

/// A new pool, which stands after no call.
pub fn begin<T: Tariff, R: PartingRule>(tariff: T, rule: R) -> Pool<T, R>
    ensures stands { Stands (T.Tariff.meaning tariff) (R.PartingRule.shares rule) [] result.book }
    ensures tariff { result.tariff ≡ tariff }
    ensures rule { result.rule ≡ rule }
{
    Pool::new(tariff, rule)
}

/// Goes on with a pool: performs the calls, as many as the journal has room for, each in its turn, and says how
/// many. Whatever journal the pool stood after, it then stands after the new entries and that one, and the law
/// holds of both together.
pub fn resume<T: Tariff, R: PartingRule>(
    pool: &mut Pool<T, R>,
    calls: &[Call],
    journal: &mut [Entry],
) -> usize
    ensures noted { Noted calls.now journal.old journal.new result }
    ensures stands { Carries (T.Tariff.meaning pool.old.tariff) (R.PartingRule.shares pool.old.rule) pool.old.book (reverse (take result journal.new)) pool.new.book }
    ensures law { (J : List Entry) → Stands (T.Tariff.meaning pool.old.tariff) (R.PartingRule.shares pool.old.rule) J pool.old.book → Lawful (T.Tariff.meaning pool.old.tariff) (R.PartingRule.shares pool.old.rule) (reverse (take result journal.new) ++ J) }
    ensures tariff { pool.new.tariff ≡ pool.old.tariff }
    ensures rule { pool.new.rule ≡ pool.old.rule }
{
    let count = calls.len().min(journal.len());
    let taken = &calls[0..count];
    // By place, since a proof knows nothing of what is written through a `zip` with `iter_mut`.
    for (place, call) in taken.iter().enumerate() {
        journal[place] = perform(pool, *call);
    }
    count
}

/// Makes a supplier's pool, performs its calls on it, as many as the journal has room for, and says how many.
pub fn run<T: Tariff, R: PartingRule>(
    supplier: Supplier<T, R>,
    journal: &mut [Entry],
) -> (Pool<T, R>, usize)
    ensures noted { Noted supplier.entry.calls.now journal.old journal.new result.1 }
    ensures stands { Stands (T.Tariff.meaning supplier.entry.tariff) (R.PartingRule.shares supplier.entry.rule) (reverse (take result.1 journal.new)) result.0.book }
    ensures law { Lawful (T.Tariff.meaning supplier.entry.tariff) (R.PartingRule.shares supplier.entry.rule) (reverse (take result.1 journal.new)) }
{
    let Supplier {
        tariff,
        rule,
        calls,
    } = supplier;
    let mut pool = begin(tariff, rule);
    let count = resume(&mut pool, calls, journal);
    (pool, count)
}

/// Runs the pools of two suppliers. If they are alike in tariff and rule, closed days of the two that are alike
/// have equal records.
pub fn run_two<T: Tariff, R: PartingRule, U: Tariff, S: PartingRule>(
    one: Supplier<T, R>,
    journal: &mut [Entry],
    other: Supplier<U, S>,
    other_journal: &mut [Entry],
) -> ((Pool<T, R>, usize), (Pool<U, S>, usize))
    ensures noted { (Noted one.entry.calls.now journal.old journal.new result.0.1) × (Noted other.entry.calls.now other_journal.old other_journal.new result.1.1) }
    ensures law { (Lawful (T.Tariff.meaning one.entry.tariff) (R.PartingRule.shares one.entry.rule) (reverse (take result.0.1 journal.new))) × (Lawful (U.Tariff.meaning other.entry.tariff) (S.PartingRule.shares other.entry.rule) (reverse (take result.1.1 other_journal.new))) }
    ensures same { AlikeTariffs (T.Tariff.meaning one.entry.tariff) (U.Tariff.meaning other.entry.tariff) → AlikeRules (R.PartingRule.shares one.entry.rule) (S.PartingRule.shares other.entry.rule) → Same (reverse (take result.0.1 journal.new)) (reverse (take result.1.1 other_journal.new)) }
{
    (run(one, journal), run(other, other_journal))
}
