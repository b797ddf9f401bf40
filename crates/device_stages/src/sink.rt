ghost use Rattle.std.specs.Prelude.{ℕ, List, IfOk};
ghost use Rattle.pipe_model.specs.declared.kind.Kind.TheVariants.{ConsoleOut, FileOut};
ghost use Rattle.stage_steps.specs.Drivers.{IsStageOf};
ghost use Rattle.stage_steps.specs.Each.{EachStand, each_look};
ghost use Rattle.stage_steps.specs.SharedLists.{CopiesStand, copies_look};

use pipe_model::NoMemory;
use stage_steps::{Copies, Each, Listed, Order};
use std::alloc::Global;

// CONSOLE not first in its pipeline, and `>`: it keeps each record, and copies it where its output is open.
pub(crate) fn sink(alloc: Global, outputs: &[bool]) -> Result<Listed<Each<Copies>>, NoMemory>
    ensures console { IfOk result (IsStageOf (EachStand CopiesStand) (each_look copies_look) ConsoleOut outputs.now) }
    ensures file { IfOk result (λ stage. (name : List ℕ) → IsStageOf (EachStand CopiesStand) (each_look copies_look) (FileOut name) outputs.now stage) }
{
    Listed::new(
        alloc,
        Copies::lists(true),
        Order::WritesFirst,
        outputs,
        true,
    )
}
