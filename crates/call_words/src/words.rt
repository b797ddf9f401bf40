ghost use Rattle.std.specs.Prelude.{◌≡◌, [], Err, IfErr, IfOk, None, Some, map};
ghost use Rattle.std.specs.String.{string_bytes};
ghost use Rattle.call_words.specs.Command.{IsWithinRanges, command_of};

use crate::command::{Command, WordsFault};
use crate::demands::demanded;
use crate::grammar::matches_of;
use std::alloc::Global;

/// The command that the words after the program's name mean. An error is want of memory, or that they mean none. The parser of
/// words asks for memory before it looks at one.
pub fn read_words(alloc: Global, words: &[String]) -> Result<Command, WordsFault>
    ensures read { IfOk result (λ command. command_of (map (λ word. string_bytes word) words.now) ≡ Some command) }
    ensures refused { IfErr result (λ fault. fault ≡ WordsFault.Usage → command_of (map (λ word. string_bytes word) words.now) ≡ None) }
    ensures none { words.now ≡ [] → result ≡ Err WordsFault.Usage }
    ensures few { IfOk result IsWithinRanges }
{
    if words.is_empty() {
        return Err(WordsFault::Usage);
    }
    let matches = matches_of(alloc, words)?;
    demanded(alloc, &matches)
}
