/// The least times of rounds, in nanoseconds, and how many records were taken from closed lists in
/// all of them.
#[derive(Drop)]
pub struct Times {
    /// All joins of a round.
    pub joins: u128,
    /// The close of a list.
    pub close: u128,
    /// The way through a closed list.
    pub way: u128,
    /// Two looks at the clock.
    pub clock: u128,
    pub taken: u64,
}

impl Times {
    /// Those of no round.
    pub fn none() -> Times {
        Times {
            joins: u128::MAX,
            close: u128::MAX,
            way: u128::MAX,
            clock: u128::MAX,
            taken: 0,
        }
    }

    /// Counts one more round.
    pub fn add(&mut self, round: &Times) {
        self.joins = self.joins.min(round.joins);
        self.close = self.close.min(round.close);
        self.way = self.way.min(round.way);
        self.clock = self.clock.min(round.clock);
        self.taken = self.taken.saturating_add(round.taken);
    }
}
