//! Which call of a disk in memory fails.

/// Counts calls down to the one that fails.
#[derive(Clone, Copy, Drop)]
pub struct Countdown {
    left: u64,
}

impl Countdown {
    /// No call fails.
    pub fn never() -> Countdown {
        Countdown { left: 0 }
    }

    /// The call of this number fails, counted from 1.
    pub fn at(number: u64) -> Countdown {
        Countdown { left: number }
    }

    /// Whether it is the next call that fails.
    pub fn is_over(&mut self) -> bool {
        if self.left == 0 {
            return false;
        }
        self.left -= 1;
        self.left == 0
    }
}

/// Which call of the disk fails, which read of each input, and which write of each output.
#[derive(Clone, Copy, Drop)]
pub struct Faults {
    pub calls: Countdown,
    pub reads: Countdown,
    pub writes: Countdown,
}

impl Faults {
    /// Nothing fails.
    pub fn none() -> Faults {
        Faults {
            calls: Countdown::never(),
            reads: Countdown::never(),
            writes: Countdown::never(),
        }
    }
}
