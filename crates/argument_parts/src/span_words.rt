ghost use Rattle.std.specs.Prelude.{MatchOption, IsTrue, ◌↔◌};
ghost use Rattle.pipe_model.specs.declared.range.Span.{Span};
ghost use Rattle.pipe_model.specs.declared.range.Span.TheVariants.{Words, Fields};
ghost use Rattle.argument_parts.specs.SpanNames.{IsSpanName};

use pipe_model::Span;

/// What a word before a range says that its numbers count, in any case; None for any other word.
pub fn span_named(word: &[u8]) -> Option<Span>
    ensures { MatchOption result ((span : Span) → ¬ IsSpanName word.now span) (IsSpanName word.now) }
{
    if names_words(word) {
        Some(Span::Words)
    } else if names_fields(word) {
        Some(Span::Fields)
    } else {
        None
    }
}

// Whether the word is `word`, `words` or `w`.
fn names_words(word: &[u8]) -> bool
    ensures { IsTrue result ↔ IsSpanName word.now Words }
{
    word.eq_ignore_ascii_case(b"w")
        || word.eq_ignore_ascii_case(b"word")
        || word.eq_ignore_ascii_case(b"words")
}

// Whether the word is `field`, `fields` or `f`.
fn names_fields(word: &[u8]) -> bool
    ensures { IsTrue result ↔ IsSpanName word.now Fields }
{
    word.eq_ignore_ascii_case(b"f")
        || word.eq_ignore_ascii_case(b"field")
        || word.eq_ignore_ascii_case(b"fields")
}
