// Texts cut at a byte, and the fields of a line.
ghost use Rattle.std.specs.Prelude.{◌≡◌, ◌<◌, ◌≤◌, ◌==◌, not, [], ◌∷◌, length, option_map, MatchOption, IfSome};
ghost use Rattle.std.specs.List.{prefix_len, slice_split};
ghost use Rattle.nv_bytes.specs.Lines.{prefix, rest_after};
ghost use Rattle.nv_bytes.specs.Fields.{without_first, first_word, rest_of, fields};

fn place_of(text: &[u8], byte: u8) -> usize
    ensures count { result ≡ prefix_len (λ b. not (b == byte)) text.now }
    ensures inside { result ≤ length text.now }
{
    text.iter().take_while(|b| **b != byte).count()
}

/// What stands before the first byte of this value, and the rest after it, if there is one.
pub fn cut(text: &[u8], byte: u8) -> (&[u8], Option<&[u8]>)
    ensures prefix { result.0.now ≡ prefix (λ b. not (b == byte)) text.now }
    ensures rest { option_map (λ rest. rest.now) result.1 ≡ without_first (rest_after (λ b. not (b == byte)) text.now) }
    ensures shorter { IfSome result.1 (λ rest. length rest.now < length text.now) }
    ensures parts { MatchOption result.1 (slice_split (λ b. b == byte) text.now ≡ result.0.now ∷ []) (λ rest. slice_split (λ b. b == byte) text.now ≡ result.0.now ∷ slice_split (λ b. b == byte) rest.now) }
{
    let (prefix, after) = text.split_at(place_of(text, byte));
    match after {
        [] => (prefix, None),
        [_, rest @ ..] => (prefix, Some(rest)),
    }
}

/// The first field, and the rest after its space, if there is one.
#[tactic(auto, unfolding(crate::specs::Fields::fields))]
pub fn split_field(text: &[u8]) -> (&[u8], Option<&[u8]>)
    ensures word { result.0.now ≡ first_word text.now }
    ensures rest { option_map (λ rest. rest.now) result.1 ≡ rest_of text.now }
    ensures fields { MatchOption result.1 (fields text.now ≡ result.0.now ∷ []) (λ rest. fields text.now ≡ result.0.now ∷ fields rest.now) }
{
    cut(text, b' ')
}
