ghost use Rattle.std.specs.Prelude.{◌≡◌, ◌≤◌, ℕ, List, length, drop, IfSome, MatchOption, IsTrue, ◌↔◌};
ghost use Rattle.std.specs.Str.{str_to_ascii_lowercase};
ghost use Rattle.argument_parts.specs.Keywords.{IsKeyword, spelling_of};

use crate::part::Word;
use pipe_model::first_word;

impl Word {
    /// The keyword in lower case.
    pub fn spelling(self) -> &'static [u8]
        ensures { result.now ≡ spelling_of self }
    {
        match self {
            Word::First => b"first",
            Word::Last => b"last",
            Word::Both => b"both",
            Word::Leading => b"leading",
            Word::Trailing => b"trailing",
            Word::Left => b"left",
            Word::Right => b"right",
            Word::Upper => b"upper",
            Word::Lower => b"lower",
            Word::Count => b"count",
            Word::Singles => b"singles",
            Word::Multiple => b"multiple",
            Word::Ascending => b"a",
            Word::Descending => b"d",
            Word::Lines => b"lines",
            Word::Words => b"words",
            Word::Bytes => b"bytes",
            Word::Fixed => b"fixed",
            Word::Linend => b"linend",
            Word::String => b"string",
            Word::Sf => b"sf",
            Word::Number => b"number",
            Word::Print => b"print",
            Word::Read => b"read",
            Word::Write => b"write",
            Word::Pad => b"pad",
            Word::Set => b"set",
            Word::Eof => b"eof",
            Word::Strip => b"strip",
            Word::C2x => b"c2x",
            Word::X2c => b"x2c",
            Word::Center => b"center",
            Word::Put => b"=",
            Word::Add => b"+=",
            Word::Subtract => b"-=",
            Word::Num => b"num",
        }
    }
}

/// How many bytes spell the keyword, in any case, as the first word of a text, or None where another word stands there.
pub fn keyword(text: &[u8], key: Word) -> Option<usize>
    ensures within { IfSome result (λ len. len ≤ length text.now) }
    ensures read { MatchOption result ((rest : List ℕ) → ¬ IsKeyword text.now key rest) (λ len. IsKeyword text.now key (drop len text.now)) }
{
    let (word, _rest) = first_word(text);
    if is_spelled(word, key) {
        Some(word.len())
    } else {
        None
    }
}

// Whether the word is the keyword, in any case.
#[tactic(auto, using(crate::proofs::KeywordParts::lower_spelling))]
fn is_spelled(word: &[u8], key: Word) -> bool
    ensures { IsTrue result ↔ (str_to_ascii_lowercase word.now ≡ spelling_of key) }
{
    word.eq_ignore_ascii_case(key.spelling())
}
