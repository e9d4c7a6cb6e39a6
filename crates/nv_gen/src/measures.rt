// The numbers of a run.
ghost use Rattle.std.specs.Prelude.{◌≡◌, ◌≤◌, ◌<◌};

/// The numbers of a run.
#[derive(Clone, Copy, Debug, PartialEq, Eq)]
pub struct Measures {
    /// How many versions run.
    pub versions: u32,
    /// How many writes the last version makes.
    pub writes: u32,
    /// How many bytes each write has.
    pub size: u8,
    /// The byte that is written.
    pub byte: u8,
    ghost some: { 1 ≤ versions },
    ghost few: { versions ≤ 8 },
    ghost short: { writes < 10000 },
    ghost small: { size ≤ 64 },
}

impl Measures {
    ghost use Rattle.nv_gen.specs.Made.{numbers_of};
    ghost use Rattle.nv_gen.specs.Measures.{numbers_in};

    /// The numbers that a number gives.
    #[tactic(auto, unfolding(crate::specs::Made::numbers_of))]
    pub fn of(number: u32) -> Measures
        ensures { numbers_in result ≡ numbers_of number }
    {
        Measures {
            versions: 2 + number % 3,
            writes: 1000 + number % 9000,
            size: 1 + (number % 64) as u8,
            byte: 97 + (number % 26) as u8,
        }
    }
}
