// What a filter reads.
ghost use Rattle.std.specs.Prelude.{◌≡◌};
ghost use Rattle.nv_calls.specs.Calls.{request, entry};
ghost use Rattle.nv_rules.specs.Pair.{call_words, count_word, pair_words};

use nv_calls::{Bytes, Call, Event};

// 32-bit RISC-V, little-endian (AUDIT_ARCH_RISCV32 of linux/audit.h)
const ARCHITECTURE: u32 = 0x4000_00f3;

/// A follower's call, the leader's event, the version, and how many bytes each call hands in, as a filter reads them.
#[derive(Clone, Copy, Debug, PartialEq, Eq)]
pub struct Pair {
    pub words: [u32; 36],
}

fn call_words(nr: u32, args: &[u32; 6]) -> [u32; 16]
    ensures { result ≡ call_words nr args.now }
{
    let [a, b, c, d, e, f] = *args;
    [nr, ARCHITECTURE, 0, 0, a, 0, b, 0, c, 0, d, 0, e, 0, f, 0]
}

// How many bytes a call hands in, as a word.
fn count_word(payload: &Bytes) -> u32
    ensures { result ≡ count_word payload.now.bytes }
{
    u32::try_from(payload.as_slice().len()).unwrap_or(u32::MAX)
}

/// The pair of a follower's call with the event that it met, for the version with this index.
pub fn pair_of(call: &Call, event: &Event, version: u32) -> Pair
    ensures { result.words ≡ pair_words (request call.now) (entry event.now) version }
{
    let mut words = [0; 36];
    words[32] = version;
    words[34] = count_word(&call.payload);
    words[35] = count_word(&event.call.payload);
    words[..16].copy_from_slice(&call_words(call.nr, &call.args));
    words[16..32].copy_from_slice(&call_words(event.call.nr, &event.call.args));
    Pair { words }
}
