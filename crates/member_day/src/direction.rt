//! Which way a block deviates.
ghost use Rattle.facts.specs.Facts.{plain};
ghost use Rattle.member_day.specs.Runs.{direction, goes_on, moves};
ghost use Rattle.std.specs.Prelude.{◌≡◌};

use facts::BlockFacts;
use std::cmp::Ordering;

#[derive(Clone, Copy, PartialEq, Eq)]
pub enum Direction {
    /// Metered as scheduled.
    Level,
    /// Metered above scheduled.
    Over,
    /// Metered below scheduled.
    Under,
}

pub(crate) fn direction_of(facts: &BlockFacts) -> Direction
    ensures answer { result ≡ direction (plain facts.now) }
{
    match facts.metered().cmp(&facts.scheduled()) {
        Ordering::Less => Direction::Under,
        Ordering::Equal => Direction::Level,
        Ordering::Greater => Direction::Over,
    }
}

impl Direction {
    /// Whether a block of this direction goes on with the run of the block before it.
    pub(crate) fn goes_on(self, before: Direction) -> bool
        ensures answer { result ≡ goes_on before self }
    {
        self == before && self != Direction::Level
    }

    /// The length of a run of this block alone: none is level.
    pub(crate) fn moves(self) -> u32
        ensures answer { result ≡ moves self }
    {
        u32::from(self != Direction::Level)
    }
}
