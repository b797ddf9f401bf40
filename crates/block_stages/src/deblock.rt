ghost use Rattle.std.specs.Prelude.{[], false, IfOk};
ghost use Rattle.pipe_model.specs.BlockRows.{deblock};
ghost use Rattle.block_stages.specs.Blocks.{BlocksStand};
ghost use Rattle.block_stages.specs.Cutting.{AreCutsOf};

use crate::blocks::Blocks;
use crate::cuts::Cuts;
use crate::strings::Delimiter;
use pipe_model::{Cutting, Image, NoMemory, Rec};
use std::alloc::Global;

// Where DEBLOCK cuts.
fn cuts_of(alloc: Global, cutting: &Cutting) -> Result<Cuts, NoMemory>
    ensures { IfOk result (λ cuts. AreCutsOf cutting.now cuts) }
{
    match cutting {
        Cutting::Fixed(size) => Ok(Cuts::Every {
            size: *size,
            fill: None,
        }),
        Cutting::Linend => Ok(Cuts::At(Delimiter::new(Rec::from_slice(alloc, b"\n")?))),
        Cutting::Text(string) => Ok(Cuts::At(Delimiter::new(string.copy(alloc)?))),
        Cutting::Sf => Ok(Cuts::ByLengths),
    }
}

// DEBLOCK that cuts so, before the first record.
pub(crate) fn deblock(alloc: Global, cutting: &Cutting) -> Result<Blocks, NoMemory>
    ensures { IfOk result (λ it. BlocksStand it false (deblock cutting.now) [] []) }
{
    let cuts = cuts_of(alloc, cutting)?;
    Ok(Blocks::new(alloc, Image::Fixed, cuts))
}
