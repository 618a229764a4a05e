//! Numbers that are the same in every run.
ghost use Rattle.std.specs.Prelude.{ℕ, ◌<◌};

/// A linear generator. An independent implementation draws the same numbers.
#[derive(Drop)]
pub struct Generator {
    state: u64,
}

impl Generator {
    pub fn new(seed: u64) -> Generator {
        Generator { state: seed }
    }

    /// The next number below 2^32.
    fn draw(&mut self) -> u64 {
        let product = self.state.wrapping_mul(6_364_136_223_846_793_005);
        self.state = product.wrapping_add(1_442_695_040_888_963_407);
        self.state >> 32
    }

    /// The next number below a bound.
    pub fn below(&mut self, bound: u64) -> u64
        requires { 0 < bound }
        ensures bound { result < bound }
    {
        self.draw() % bound
    }

    /// Fills with numbers below a bound, 1 at the first place where all are 0.
    pub fn fill(&mut self, weights: &mut [u64], bound: u64)
        requires { 0 < bound }
    {
        for weight in weights.iter_mut() {
            *weight = self.below(bound);
        }
        if weights.iter().all(|weight| *weight == 0)
            && let Some(first) = weights.first_mut()
        {
            *first = 1;
        }
    }
}
