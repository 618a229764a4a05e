//! Enrolling, opening, entering and dropping.
ghost use Rattle.std.specs.Prelude.{◌≡◌, ◌<◌, true, false, map, is_ok, if◌then◌else◌, Some, IfOk, MatchResult, slice_set, unsigned_abs};
ghost use Rattle.day.specs.Members.{member_at};
ghost use Rattle.pool.specs.Calls.{amount_by, dropping, ended, enrolled_as, enrolling, entering_amount, entering_grid, kind_of_member, entering_reading, opened_on, opening, read_by, with_grid};
ghost use Rattle.pool.specs.Rules.{enrolled, metered_member, regional_member};
ghost use Rattle.pool.specs.Tables.{cleared, fresh, no_entries, with_reading, without_entries};

use crate::accounts::Accounts;
use crate::book::Book;
use crate::entries::{BlockPlace, block_named, grid_row, place_below, reading_row};
use crate::limits::MOST_DAY;
use crate::pool::Pool;
use crate::refusal::Refusal;
use day::{MEMBERS, Member, MemberKind};
use facts::Kind;
use member_day::{BLOCKS, GridEntry, ReadingEntry};
use quantities::{Paise, limited};

/// A member of this kind with no entries.
fn without_entries(kind: MemberKind) -> Member
    ensures answer { result ≡ without_entries kind }
{
    Member {
        kind,
        amount: None,
        readings: [None; BLOCKS],
    }
}

fn no_grid_rows() -> [Option<GridEntry>; BLOCKS]
    ensures answer { result ≡ no_entries }
{
    [None; BLOCKS]
}

/// A later entry for a block replaces the earlier one.
fn put<X: Copy>(table: &mut [Option<X>; BLOCKS], block: BlockPlace, row: X)
    ensures after { table.new ≡ slice_set table.old block.place (Some row) }
{
    table[block.place] = Some(row);
}

fn put_reading(member: &mut Member, block: BlockPlace, row: ReadingEntry)
    ensures after { member.new ≡ with_reading block.place row member.old }
{
    put(&mut member.readings, block, row);
}

/// A day starts with no entries.
fn clear_all(members: &mut [Member; MEMBERS])
    ensures after { members.new ≡ map cleared members.old }
{
    for member in members.iter_mut() {
        *member = without_entries(member.kind);
    }
}

impl Book {
    fn new() -> Book
        ensures answer { result ≡ fresh }
    {
        Book {
            members: [without_entries(MemberKind::Regional); MEMBERS],
            count: 0,
            grid: no_grid_rows(),
            day: 0,
            opened: false,
            accounts: Accounts::new(),
            cash: Paise::NOTHING,
        }
    }
}

// That tariff and rule stay is a clause of each call, since the contract of a published call names all that it leaves.
impl<T, R> Pool<T, R> {
    /// A pool with no member and no day, accounts and cash at 0.
    pub fn new(tariff: T, rule: R) -> Pool<T, R>
        ensures book { result.book ≡ fresh }
        ensures tariff { result.tariff ≡ tariff }
        ensures rule { result.rule ≡ rule }
    {
        Pool {
            tariff,
            rule,
            book: Book::new(),
        }
    }

    /// Refused while no day is open.
    // Two tests that differ in what they want of the flag; with it as a parameter a call would not say which.
    pub(crate) fn must_be_open(&self) -> Result<(), Refusal>
        ensures answer { MatchResult result (λ _. self.now.book.opened ≡ true) (λ e. (self.now.book.opened ≡ false) × (e ≡ Refusal.WrongMoment)) }
    {
        if self.book.opened {
            Ok(())
        } else {
            Err(Refusal::WrongMoment)
        }
    }

    /// Refused while a day is open.
    fn must_be_closed(&self) -> Result<(), Refusal>
        ensures answer { MatchResult result (λ _. self.now.book.opened ≡ false) (λ e. (self.now.book.opened ≡ true) × (e ≡ Refusal.WrongMoment)) }
    {
        if self.book.opened {
            Err(Refusal::WrongMoment)
        } else {
            Ok(())
        }
    }

    /// The place of an enrolled member.
    fn member_named(&self, number: i64) -> Result<usize, Refusal>
        ensures answer { MatchResult result (λ k. (enrolled self.now.book.count number ≡ true) × (k ≡ unsigned_abs number)) (λ e. (enrolled self.now.book.count number ≡ false) × (e ≡ Refusal.NotEnrolled)) }
    {
        place_below(number, self.book.count).ok_or(Refusal::NotEnrolled)
    }

    // Two searches that differ in what they answer: only a member with readings has a kind to go by.

    /// The kind of a member that has readings, with its place.
    fn metered_member(&self, number: i64) -> Result<(usize, Kind), Refusal>
        ensures answer { result ≡ metered_member self.now.book.count (kind_of_member self.now.book number) number }
        ensures found { IfOk result (λ x. (x.0 ≡ unsigned_abs number) × (x.0 < self.now.book.count) × ((member_at self.now.book.members x.0).kind ≡ MemberKind.Metered x.1)) }
    {
        let place = self.member_named(number)?;
        match self.book.members[place].kind {
            MemberKind::Metered(kind) => Ok((place, kind)),
            MemberKind::Regional => Err(Refusal::WrongKind),
        }
    }

    /// The place of a member that has an amount.
    fn regional_member(&self, number: i64) -> Result<usize, Refusal>
        ensures answer { result ≡ regional_member self.now.book.count (kind_of_member self.now.book number) number }
        ensures found { IfOk result (λ k. (k ≡ unsigned_abs number) × (k < self.now.book.count)) }
    {
        let place = self.member_named(number)?;
        match self.book.members[place].kind {
            MemberKind::Metered(_) => Err(Refusal::WrongKind),
            MemberKind::Regional => Ok(place),
        }
    }

    /// Enrols a member of this kind, and answers its number.
    pub fn enrol(&mut self, kind: i64) -> Result<usize, Refusal>
        ensures answer { result ≡ enrolling self.old.book kind }
        ensures after { self.new.book ≡ (if is_ok result then enrolled_as self.old.book kind else self.old.book) }
        ensures tariff { self.new.tariff ≡ self.old.tariff }
        ensures rule { self.new.rule ≡ self.old.rule }
    {
        self.must_be_closed()?;
        let kind = MemberKind::try_from(kind)?;
        let place = self.book.count;
        if MEMBERS <= place {
            return Err(Refusal::PoolFull);
        }
        // By its place, since a proof knows nothing of what is written through `get_mut`.
        self.book.members[place].kind = kind;
        self.book.count = place + 1;
        Ok(place)
    }

    /// Opens the day of this number, with no entries.
    pub fn open(&mut self, day: i64) -> Result<(), Refusal>
        ensures answer { result ≡ opening self.old.book day }
        ensures after { self.new.book ≡ (if is_ok result then opened_on self.old.book day else self.old.book) }
        ensures tariff { self.new.tariff ≡ self.old.tariff }
        ensures rule { self.new.rule ≡ self.old.rule }
    {
        self.must_be_closed()?;
        let day = limited(day, 1, MOST_DAY).ok_or(Refusal::OutsideLimit)?;
        if day <= self.book.day {
            return Err(Refusal::DayNotLater);
        }
        clear_all(&mut self.book.members);
        self.book.grid = no_grid_rows();
        self.book.day = day;
        self.book.opened = true;
        Ok(())
    }

    /// Enters the grid's row of a block; it replaces an earlier one.
    pub fn grid_row(&mut self, block: i64, hz100: i64, price: i64) -> Result<(), Refusal>
        ensures answer { result ≡ entering_grid self.old.book block hz100 price }
        ensures after { self.new.book ≡ (if is_ok result then with_grid self.old.book block hz100 price else self.old.book) }
        ensures tariff { self.new.tariff ≡ self.old.tariff }
        ensures rule { self.new.rule ≡ self.old.rule }
    {
        self.must_be_open()?;
        let block = block_named(block)?;
        let row = grid_row(hz100, price)?;
        put(&mut self.book.grid, block, row);
        Ok(())
    }

    /// Enters a member's reading of a block; it replaces an earlier one.
    pub fn reading(
        &mut self,
        member: i64,
        block: i64,
        scheduled: i64,
        metered: i64,
        available: i64,
    ) -> Result<(), Refusal>
        ensures answer { result ≡ entering_reading self.old.book member block scheduled metered available }
        ensures after { self.new.book ≡ (if is_ok result then read_by self.old.book member block scheduled metered available else self.old.book) }
        ensures tariff { self.new.tariff ≡ self.old.tariff }
        ensures rule { self.new.rule ≡ self.old.rule }
    {
        self.must_be_open()?;
        let (place, kind) = self.metered_member(member)?;
        let block = block_named(block)?;
        let row = reading_row(kind, scheduled, metered, available)?;
        put_reading(&mut self.book.members[place], block, row);
        Ok(())
    }

    /// Enters a member's regional amount; it replaces an earlier one.
    pub fn amount(&mut self, member: i64, paise: i64) -> Result<(), Refusal>
        ensures answer { result ≡ entering_amount self.old.book member paise }
        ensures after { self.new.book ≡ (if is_ok result then amount_by self.old.book member paise else self.old.book) }
        ensures tariff { self.new.tariff ≡ self.old.tariff }
        ensures rule { self.new.rule ≡ self.old.rule }
    {
        self.must_be_open()?;
        let place = self.regional_member(member)?;
        let amount = Paise::regional(paise).ok_or(Refusal::OutsideLimit)?;
        self.book.members[place].amount = Some(amount);
        Ok(())
    }

    /// Drops the open day; its number stays used.
    pub fn discard(&mut self) -> Result<(), Refusal>
        ensures answer { result ≡ dropping self.old.book }
        ensures after { self.new.book ≡ (if is_ok result then ended self.old.book else self.old.book) }
        ensures tariff { self.new.tariff ≡ self.old.tariff }
        ensures rule { self.new.rule ≡ self.old.rule }
    {
        self.must_be_open()?;
        self.book.opened = false;
        Ok(())
    }
}
