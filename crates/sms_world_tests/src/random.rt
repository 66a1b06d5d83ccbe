//! Random numbers, the same at each run.

/// Random numbers.
#[derive(Drop)]
pub struct Random {
    pub state: u64,
}

impl Random {
    /// The next one below a bound.
    pub fn below(&mut self, bound: u64) -> u64 {
        self.state = self
            .state
            .wrapping_mul(6_364_136_223_846_793_005)
            .wrapping_add(1_442_695_040_888_963_407);
        let high = self.state >> 33;
        if bound == 0 { 0 } else { high % bound }
    }
}
