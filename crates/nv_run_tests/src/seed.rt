//! Numbers that look random.
ghost use Rattle.std.specs.Prelude.{◌<◌};

/// Marsaglia's xorshift generator of 64 bits.
#[derive(Clone, Copy, Debug, Drop)]
pub struct Seed {
    state: u64,
}

impl Seed {
    /// The generator with this number.
    pub fn new(number: u32) -> Seed {
        let spread = (u64::from(number) + 1).wrapping_mul(0x9e37_79b9_7f4a_7c15);
        Seed { state: spread | 1 }
    }

    fn next(&mut self) -> u64 {
        self.state ^= self.state << 13;
        self.state ^= self.state >> 7;
        self.state ^= self.state << 17;
        self.state
    }

    /// The next number, below `count`.
    pub fn below(&mut self, count: u32) -> u32
        requires { 0 < count }
        ensures { result < count }
    {
        (self.next() >> 32) as u32 % count
    }

    /// Heads or tails.
    pub fn tosses(&mut self) -> bool {
        self.below(2) == 0
    }
}
