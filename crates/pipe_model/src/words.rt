ghost use Rattle.std.specs.Prelude.{◌≡◌, ◌≢◌, get_or};
ghost use Rattle.pipe_model.specs.Words.{IsFirstWord, IsUnblanked};

/// The text without the blanks at its front.
#[inline]
pub fn without_blanks(mut text: &[u8]) -> &[u8]
    ensures { IsUnblanked text.entry.now result.now }
{
    while let [b' ', rest @ ..] = text {
        text = rest;
    }
    text
}

/// The word at the front of a text, and what stands after it; the word is empty where the text is, or begins with a blank.
#[inline]
pub fn first_word(text: &[u8]) -> (&[u8], &[u8])
    ensures { IsFirstWord text.now result.0.now result.1.now }
{
    match text.iter().position(|b| *b == b' ') {
        Some(at) => (&text[..at], &text[at..]),
        None => (text, &[]),
    }
}
