//! Counting runs: longest stretches of blocks whose deviations have one non-zero sign.
ghost use Rattle.std.specs.Prelude.{◌≡◌, ◌+◌, ◌*◌, ◌^◌, ◌<◌, ◌≤◌, List, [], ◌∷◌, ◌++◌, replicate};
ghost use Rattle.member_day.specs.Runs.{runs};

use crate::Direction;

/// The runs of the blocks so far.
#[derive(Clone, Copy)]
pub(crate) struct RunCount {
    /// What the runs that have ended count.
    counted: u32,
    /// The length of the run that the last block is in.
    length: u32,
    /// The direction of the last block.
    before: Direction,
    ghost fits: { 7 * counted + length < 2 ^ 32 },
}

impl RunCount {
    ghost use Rattle.member_day.specs.Counts.{after_all, used};

    /// Before the first block.
    #[tactic(auto, using(crate::proofs::RunLaws::leading_level))]
    pub(crate) fn new() -> RunCount
        ensures answer { (ds : List Direction) → after_all result ds ≡ runs Direction.Level ds }
        ensures bound { used result ≡ 0 }
    {
        RunCount {
            counted: 0,
            length: 0,
            before: Direction::Level,
        }
    }

    /// Counts one block more.
    pub(crate) fn step(&mut self, next: Direction)
        requires { used self.old + 1 < 2 ^ 32 }
        ensures after { (ds : List Direction) → after_all self.new ds ≡ after_all self.old (next ∷ ds) }
        ensures bound { used self.new ≤ used self.old + 1 }
    {
        if next.goes_on(self.before) {
            self.length += 1;
        } else {
            self.counted = self.sevenths();
            self.length = next.moves();
        }
        self.before = next;
    }

    /// Counts so many blocks more of one direction.
    pub(crate) fn repeat(&mut self, next: Direction, blocks: u8)
        requires { used self.old + blocks < 2 ^ 32 }
        ensures after { (ds : List Direction) → after_all self.new ds ≡ after_all self.old (replicate blocks next ++ ds) }
        ensures bound { used self.new ≤ used self.old + blocks }
    {
        for _block in 0..blocks {
            self.step(next);
        }
    }

    /// The sum over the runs of a seventh of the length, rounded down.
    pub(crate) fn sevenths(&self) -> u32
        ensures answer { result ≡ after_all self.now [] }
        ensures bound { 7 * result ≤ used self.now }
    {
        self.counted + self.length / 7
    }
}
