//! What was entered for a day.
ghost use Rattle.day.specs.Dues.{all_entered, all_given, complete, due_of, entered};
ghost use Rattle.std.specs.Prelude.{◌≡◌, ◌+ℤ◌, IfSome, FitsSigned};
ghost use Rattle.std.specs.Bool.{then_some};
ghost use Rattle.std.specs.Int.{w64};

use crate::dues::regional_due;
use crate::{Member, MemberKind};
use member_day::{BLOCKS, Due, GridEntry, member_day};
use tariff::Tariff;

/// The grid rows and the members of a day.
#[derive(Clone, Copy)]
pub struct DayEntries<'a> {
    pub grid: &'a [Option<GridEntry>; BLOCKS],
    pub members: &'a [Member],
}

impl DayEntries<'_> {
    /// Base and surcharge of a member, none where an entry is missing or outside its limits.
    pub(crate) fn due<T: Tariff>(&self, tariff: &T, member: &Member) -> Option<Due>
        ensures answer { result ≡ then_some (entered self.now.grid.now member.now) (due_of (T.Tariff.meaning tariff.now) self.now.grid.now member.now) }
        ensures fits { IfSome result (λ d. FitsSigned w64 (d.base.paise +ℤ d.surcharge.paise)) }
    {
        match member.kind {
            MemberKind::Metered(kind) => member_day(tariff, kind, &member.readings, self.grid),
            MemberKind::Regional => regional_due(member.amount),
        }
    }

    /// Whether every grid row is there.
    pub(crate) fn all_given(&self) -> bool
        ensures answer { result ≡ all_given self.now.grid.now }
    {
        let grid = self.grid;
        grid.iter().all(Option::is_some)
    }

    /// Whether a member's entries are there.
    fn entered<T: Tariff>(&self, tariff: &T, member: &Member) -> bool
        ensures answer { result ≡ entered self.now.grid.now member.now }
    {
        self.due(tariff, member).is_some()
    }

    /// Whether every member's entries are there.
    pub(crate) fn all_entered<T: Tariff>(&self, tariff: &T) -> bool
        ensures answer { result ≡ all_entered self.now.grid.now self.now.members.now }
    {
        self.members
            .iter()
            .all(|member| self.entered(tariff, member))
    }
}
