//! Numbers that look random and are the same in each run.

/// A generator of such numbers: a linear congruential one, of 64 bits.
#[derive(Clone, Copy)]
pub struct Random {
    state: u64,
}

impl Random {
    /// Creates a generator from a seed.
    pub fn from_seed(seed: u64) -> Random {
        Random { state: seed }
    }

    /// Returns the next number below `end`, or 0 if `end` is 0.
    pub fn below(&mut self, end: u64) -> u64 {
        self.state = self
            .state
            .wrapping_mul(6_364_136_223_846_793_005)
            .wrapping_add(1_442_695_040_888_963_407);
        if end == 0 {
            return 0;
        }
        (self.state >> 33) % end
    }
}
