ghost use Rattle.std.specs.Prelude.{ℕ, List, IfOk, Some};
ghost use Rattle.pipe_model.specs.declared.kind.Kind.TheVariants.{ConsoleIn, FileIn};
ghost use Rattle.stage_steps.specs.Drivers.{IsStageOf};
ghost use Rattle.stage_steps.specs.SharedLists.{LinesStand, lines_look};

use pipe_model::{NoMemory, Rec};
use stage_steps::{Listed, Order, TextLines};
use std::alloc::Global;

// The lines of a text: CONSOLE first in its pipeline, of standard input, and `<` of a file that is there.
pub(crate) fn source(
    alloc: Global,
    bytes: &Rec,
    outputs: &[bool],
) -> Result<Listed<TextLines>, NoMemory>
    ensures console { IfOk result (IsStageOf LinesStand lines_look (ConsoleIn bytes.now) outputs.now) }
    ensures file { IfOk result (λ stage. (name : List ℕ) → IsStageOf LinesStand lines_look (FileIn name (Some bytes.now)) outputs.now stage) }
{
    let lines = TextLines::new(bytes.copy(alloc)?);
    Listed::new(alloc, lines, Order::WritesFirst, outputs, false)
}
