// How a room's table lies in the processor's caches.
ghost use Rattle.std.specs.Prelude.{ℕ};
ghost use Rattle.nv_room.specs.Header.{HasOwnLines};

/// No two of the words that seats move, and none of them and a place, stand on one cache line.
#[tactic(auto, using(crate::proofs::HeaderLaws::own_lines))]
pub fn words_have_own_lines()
    ensures { (n : ℕ) → HasOwnLines n }
{}
