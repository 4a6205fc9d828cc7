//! Words of the language of configurations.
ghost use Rattle.std.specs.Prelude.{◌≡◌, bytes_eq};

/// Whether a text is this word.
pub fn is(text: &[u8], word: &[u8]) -> bool
    ensures { result ≡ bytes_eq text.now word.now }
{
    text == word
}
