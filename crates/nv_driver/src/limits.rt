// The limits that a run's options set.
ghost use Rattle.std.specs.Prelude.{◌≡◌, ◌≤◌, ◌%◌};

/// The limits of a run.
#[derive(Clone, Copy, Debug, PartialEq, Eq)]
pub struct Limits {
    /// Places of the ring of events.
    pub ring: u32,
    /// Bytes of a guest's memory.
    pub memory: u32,
    /// Instructions of a version.
    pub budget: u32,
    /// Their count begins anew at each answer.
    pub renews: bool,
    /// Events of the log.
    pub calls: u32,
    /// Threads of the host.
    pub threads: u32,
    ghost ring_fits: { (2 ≤ ring) × (ring ≤ 1024) },
    ghost memory_fits: { (131072 ≤ memory) × (memory ≤ 16777216) × (memory % 4096 ≡ 0) },
    ghost budget_fits: { (1 ≤ budget) × (budget ≤ 1000000000) },
    ghost calls_fit: { (1 ≤ calls) × (calls ≤ 500000000) },
    ghost threads_fit: { (1 ≤ threads) × (threads ≤ 8) },
}

/// The instructions that a line gives a version.
#[derive(Clone, Copy)]
pub struct Allowance {
    pub budget: u32,
    /// Their count begins anew at each answer.
    pub renews: bool,
    ghost budget_fits: { (1 ≤ budget) × (budget ≤ 1000000000) },
}

impl Limits {
    ghost use Rattle.std.specs.Prelude.{◌≡◌};
    ghost use Rattle.nv_driver.specs.Words.{usual, service_usual};
    ghost use Rattle.nv_driver.specs.Seen.{limits_view};

    /// The limits of a run whose line names none.
    pub fn usual() -> Limits
        ensures { limits_view result ≡ usual }
    {
        Limits {
            ring: 256,
            memory: 1_048_576,
            budget: 10_000_000,
            renews: false,
            calls: 65_536,
            threads: 8,
        }
    }

    /// The limits of a service whose line names none: it has as many events as an option may ask for, and a version as many
    /// instructions after each answer as it runs in a second or so.
    pub fn of_service() -> Limits
        ensures { limits_view result ≡ service_usual }
    {
        let usual = Limits::usual();
        Limits {
            ring: usual.ring,
            memory: usual.memory,
            budget: 100_000_000,
            renews: true,
            calls: 500_000_000,
            threads: usual.threads,
        }
    }
}
