// The clock of clock_gettime.
ghost use Rattle.std.specs.Prelude.{◌≡◌, ◌+◌, ◌*◌};
ghost use Rattle.nv_kernel.specs.Serving.{second, time_bytes};

const SECOND: u128 = 1_000_000_000;

/// What the clock shows after so many calls: the seconds and the nanoseconds after them, in 8 bytes each.
#[tactic(auto, unfolding(crate::specs::Serving::second, crate::specs::Serving::time_bytes))]
pub fn time_bytes(start: u64, step: u32, served: u32) -> [u8; 16]
    ensures { result ≡ time_bytes (start + served * step) }
{
    let nanos = u128::from(start) + u128::from(served) * u128::from(step);
    let [a, b, c, d, e, f, g, h] = ((nanos / SECOND) as u64).to_le_bytes();
    let [i, j, k, l, m, n, o, p] = ((nanos % SECOND) as u64).to_le_bytes();
    [a, b, c, d, e, f, g, h, i, j, k, l, m, n, o, p]
}

/// The clock at the first call, in nanoseconds.
#[tactic(auto, unfolding(crate::specs::Serving::second))]
pub fn start_of(seconds: u32, nanos: u32) -> u64
    ensures { result ≡ seconds * second + nanos }
{
    u64::from(seconds) * 1_000_000_000 + u64::from(nanos)
}
