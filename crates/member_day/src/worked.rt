//! Runs worked by hand: what blocks count that are given by stretches of one direction.
ghost use Rattle.std.specs.Prelude.{◌≡◌, ◌/◌, [], ◌∷◌};
ghost use Rattle.member_day.specs.Laws.{Counted};
ghost use Rattle.member_day.specs.Runs.{runs};
ghost use Rattle.member_day.specs.Worked.{laid_out};

use crate::Direction::{self, Level, Over, Under};
use crate::runs::RunCount;

/// The stretches of a call, those not needed without blocks: as many at most, so that every count fits.
const STRETCHES: usize = 5;

/// So many blocks of one direction.
#[derive(Clone, Copy)]
pub struct Stretch {
    pub direction: Direction,
    pub blocks: u8,
}

impl Direction {
    /// So many blocks of this direction.
    fn stretch(self, blocks: u8) -> Stretch
        ensures answer { (result.direction ≡ self) × (result.blocks ≡ blocks) }
    {
        Stretch {
            direction: self,
            blocks,
        }
    }
}

/// The sum over the runs of a seventh of the length, rounded down, in the blocks of the stretches.
#[tactic(auto, using(crate::proofs::RunLaws::counted))]
pub fn sevenths_in(stretches: &[Stretch; STRETCHES]) -> u32
    ensures answer { result ≡ runs Direction.Level (laid_out stretches.now) }
    ensures law { Counted }
{
    let mut count = RunCount::new();
    for stretch in stretches {
        count.repeat(stretch.direction, stretch.blocks);
    }
    count.sevenths()
}

/// What a single run of so many blocks counts.
pub fn one_run(blocks: u8) -> u32
    ensures answer { result ≡ blocks / 7 }
{
    sevenths_in(&[
        Level.stretch(0),
        Over.stretch(blocks),
        Level.stretch(0),
        Level.stretch(0),
        Level.stretch(0),
    ])
}

/// Runs of 6, 7, 13, 14 and 96 blocks, each alone, and three days of several runs.
pub fn worked_runs() -> [u32; 8]
    ensures answer { result ≡ 0 ∷ (1 ∷ (1 ∷ (2 ∷ (13 ∷ (0 ∷ (2 ∷ (3 ∷ []))))))) }
{
    [
        one_run(6),
        one_run(7),
        one_run(13),
        one_run(14),
        one_run(96),
        sevenths_in(&[
            Over.stretch(3),
            Level.stretch(1),
            Over.stretch(4),
            Level.stretch(0),
            Level.stretch(0),
        ]),
        sevenths_in(&[
            Over.stretch(7),
            Under.stretch(4),
            Over.stretch(4),
            Level.stretch(1),
            Under.stretch(7),
        ]),
        sevenths_in(&[
            Level.stretch(40),
            Under.stretch(7),
            Over.stretch(14),
            Level.stretch(35),
            Level.stretch(0),
        ]),
    ]
}
