// Words, and tables of them.
ghost use Rattle.std.specs.Prelude.{◌≡◌, bytes_eq};
ghost use Rattle.nv_bytes.specs.Names.{defined, named};

/// Whether a text is this word.
pub fn is(text: &[u8], word: &str) -> bool
    ensures { result ≡ bytes_eq text.now word.now }
{
    text == word.as_bytes()
}

/// What the first entry with this word says.
pub fn find<D: Copy>(table: &[(&str, D)], word: &[u8]) -> Option<D>
    ensures { result ≡ defined (named table.now) word.now }
{
    for (name, definition) in table {
        if is(word, name) {
            return Some(*definition);
        }
    }
    None
}
