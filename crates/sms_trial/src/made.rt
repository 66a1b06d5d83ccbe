//! Numbers that are made one after another, the same at each run.

/// Makes numbers, each from the one before.
#[derive(Drop)]
pub struct Made {
    state: u64,
}

impl Made {
    /// Begins with a number.
    pub fn new(seed: u64) -> Made {
        Made { state: seed }
    }

    /// The next octet.
    pub fn octet(&mut self) -> u8 {
        self.state = self
            .state
            .wrapping_mul(6_364_136_223_846_793_005)
            .wrapping_add(1_442_695_040_888_963_407);
        let [_, _, _, _, _, _, _, octet] = self.state.to_le_bytes();
        octet
    }

    /// The next number below a limit; 0 where that is 0.
    pub fn below(&mut self, limit: usize) -> usize {
        let number = usize::from(self.octet()) * 256 + usize::from(self.octet());
        number % limit.max(1)
    }
}
