ghost use Rattle.std.specs.Prelude.{◌≡◌, IfOk};
ghost use Rattle.pipe_model.specs.Shape.{all_inputs as every_input};

use pipe_model::NoMemory;
use std::alloc::Global;

// So many inputs, ascending.
pub(crate) fn all_inputs(alloc: Global, inputs: u16) -> Result<Vec<u16>, NoMemory>
    ensures { IfOk result (λ all. all.items ≡ every_input inputs) }
{
    let mut all = Vec::with_capacity(alloc, inputs as usize)?;
    for input in 0..inputs {
        all.push(input)?;
    }
    Ok(all)
}
