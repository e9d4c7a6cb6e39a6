// The words that begin an arrival's line.
ghost use Rattle.std.specs.Prelude.{◌≡◌, is_some};
ghost use Rattle.nv_script.specs.Reading.{word_of, is_word, is_timeless, is_timeless_word};

use nv_bytes::find;

/// What an arrival's line is about.
#[derive(Clone, Copy, Debug, PartialEq, Eq)]
pub enum Word {
    Line,
    Input,
    Connect,
    Data,
    End,
    Time,
}

const WORDS: [(&str, Word); 6] = [
    ("line", Word::Line),
    ("input", Word::Input),
    ("connect", Word::Connect),
    ("data", Word::Data),
    ("end", Word::End),
    ("time", Word::Time),
];

/// What a line that begins with this word is about.
#[tactic(auto, unfolding(crate::specs::Reading::words))]
pub fn word_of(word: &[u8]) -> Option<Word>
    ensures { result ≡ word_of word.now }
{
    find(&WORDS, word)
}

/// Whether a line that begins with this word is an arrival's.
pub fn is_word(word: &[u8]) -> bool
    ensures { result ≡ is_word word.now }
{
    word_of(word).is_some()
}

fn is_timeless(word: Option<Word>) -> bool
    ensures { result ≡ is_timeless word }
{
    match word {
        Some(Word::Time) => false,
        Some(Word::Line) | Some(Word::Input) | Some(Word::Connect) => true,
        Some(Word::Data) | Some(Word::End) => true,
        None => false,
    }
}

/// Whether a line that begins with this word is an arrival's, but not that of the time.
pub fn is_timeless_word(word: &[u8]) -> bool
    ensures { result ≡ is_timeless_word word.now }
{
    is_timeless(word_of(word))
}
