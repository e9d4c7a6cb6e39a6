// Plain input, cut into what comes at once.
ghost use Rattle.std.specs.Prelude.{◌≡◌, ◌<◌, ◌≤◌, ◌∷◌, ◌==◌, not, length, take, drop};
ghost use Rattle.std.specs.List.{prefix_len};
ghost use Rattle.nv_script.specs.Pieces.{pieces};

use crate::arrival::MOST_ARRIVAL;

fn within(bytes: &[u8], most: usize) -> &[u8]
    ensures { result.now ≡ take most bytes.now }
{
    if bytes.len() > most {
        &bytes[..most]
    } else {
        bytes
    }
}

fn before_newline(window: &[u8]) -> usize
    ensures count { result ≡ prefix_len (λ b. not (b == 10)) window.now }
    ensures inside { result ≤ length window.now }
{
    window.iter().take_while(|byte| **byte != b'\n').count()
}

fn piece_of(bytes: &[u8], most: usize) -> usize
    requires some { 0 < length bytes.now }
    requires room { 0 < most }
    ensures pieces { pieces most bytes.now ≡ take result bytes.now ∷ pieces most (drop result bytes.now) }
    ensures some { 0 < result }
    ensures few { result ≤ most }
    ensures inside { result ≤ length bytes.now }
{
    let window = within(bytes, most);
    let before = before_newline(window);
    if before < window.len() {
        before + 1
    } else {
        before
    }
}

/// How many of these bytes, which a read gave, come at once: a line with its newline, or all of them, but no more than 2,000.
pub fn piece(bytes: &[u8]) -> usize
    requires { 0 < length bytes.now }
    ensures pieces { pieces 2000 bytes.now ≡ take result bytes.now ∷ pieces 2000 (drop result bytes.now) }
    ensures some { 0 < result }
    ensures few { result ≤ 2000 }
    ensures inside { result ≤ length bytes.now }
{
    piece_of(bytes, MOST_ARRIVAL)
}
