ghost use Rattle.std.specs.Prelude.{◌≡◌};

use pipe_model::Want;
use std::mem::{self, ManuallyDrop};

/// What a coroutine answers to the sight of a record of input 0.
#[derive(Clone, Copy, Debug, PartialEq, Eq)]
pub enum Reply {
    /// It takes the record, and looks at the next one: it has gone on as if it was told, too, that the record was taken.
    Takes,
    /// It left what it asks for, and passes the record at hand on.
    Passes,
    /// It left what it asks for.
    Asks,
}

/// Leaves what is asked for in place of what was asked for before. That holds no memory to let go: a record that was
/// written is in the pool, and so far no stage issues a command.
#[inline(always)]
pub fn leave(asked: &mut Want, want: Want)
    ensures { asked.new ≡ want }
{
    ManuallyDrop::new(mem::replace(asked, want));
}
