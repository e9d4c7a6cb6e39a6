// The random numbers of getrandom.
ghost use Rattle.std.specs.Prelude.{◌≡◌, ◌≤◌, length};
ghost use Rattle.nv_kernel.specs.Serving.{next_random, high_byte, randoms, random_after};

const MULTIPLIER: u64 = 0x5851_f42d_4c95_7f2d;

const INCREMENT: u64 = 0x1405_7b7e_f767_814f;

#[tactic(auto, unfolding(crate::specs::Serving::next_random))]
fn next_random(state: u64) -> u64
    ensures { result ≡ next_random state }
{
    state.wrapping_mul(MULTIPLIER).wrapping_add(INCREMENT)
}

#[tactic(auto, unfolding(crate::specs::Serving::high_byte))]
fn high_byte(state: u64) -> u8
    ensures { result ≡ high_byte state }
{
    (state >> 56) as u8
}

/// Fills the bytes, and tells the state after them.
pub fn fill_random(state: u64, bytes: &mut [u8]) -> u64
    ensures bytes { bytes.new ≡ randoms (length bytes.old) state }
    ensures state { result ≡ random_after (length bytes.old) state }
{
    let mut now = state;
    for i in 0..bytes.len() {
        now = next_random(now);
        bytes[i] = high_byte(now);
    }
    now
}
