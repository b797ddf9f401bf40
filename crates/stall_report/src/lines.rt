ghost use Rattle.std.specs.Prelude.{◌≡◌};

use std::marker::Model;

/// What a strand waits for: another strand must do something before it goes on.
#[derive(Clone, Copy, Debug, PartialEq, Eq)]
pub enum WaitWant {
    /// All strands of its unit to stand at this commit level.
    Commit(i32),
    /// A record on this input, or its end.
    Read(u16),
    /// A record on any input, or the end of all.
    Any,
    /// GATE's look.
    Gate,
    /// The record to be taken that it writes on this output.
    Write(u16),
    /// DAM's first strand to see a record.
    Primed,
    /// The end of this issued unit.
    Join(u32),
}

/// A strand that waits, by its number, and what it waits for.
#[derive(Clone, Copy, Debug, PartialEq, Eq)]
pub struct WaitLine {
    pub strand: u32,
    pub want: WaitWant,
}

/// The strands that wait at the end of a run, in the order of their numbers, seen as a list of lines.
#[derive(Debug, Drop)]
pub struct Waits {
    lines: Vec<WaitLine>,
}

impl Model for Waits {
    ghost use Rattle.std.specs.Prelude.{List};
    ghost use Rattle.stall_report.specs.declared.lines.WaitLine.{WaitLine};

    ghost Value = { List WaitLine };

    ghost view = { λ waits. waits.lines.items };
}

impl Waits {
    // These lines, which takes no memory.
    pub(crate) fn from_vec(lines: Vec<WaitLine>) -> Waits
        ensures { result ≡ lines.items }
    {
        Waits { lines }
    }

    /// The lines one by one.
    pub fn as_slice(&self) -> &[WaitLine]
        ensures { result.now ≡ self.now }
    {
        &self.lines
    }
}
