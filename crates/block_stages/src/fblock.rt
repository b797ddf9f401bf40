ghost use Rattle.std.specs.Prelude.{[], false, IfOk};
ghost use Rattle.pipe_model.specs.BlockRows.{fblock, block};
ghost use Rattle.block_stages.specs.Blocks.{BlocksStand};

use crate::blocks::Blocks;
use crate::cuts::Cuts;
use crate::images::image_copy;
use pipe_model::{Image, NoMemory};
use std::alloc::Global;

// FBLOCK with blocks of so many bytes, before the first record.
pub(crate) fn fblock(alloc: Global, size: u32, fill: Option<u8>) -> Blocks
    ensures { BlocksStand result false (fblock size fill) [] [] }
{
    Blocks::new(alloc, Image::Fixed, Cuts::Every { size, fill })
}

// BLOCK with such images of the records, before the first record.
pub(crate) fn block(alloc: Global, size: u32, image: &Image) -> Result<Blocks, NoMemory>
    ensures { IfOk result (λ it. BlocksStand it false (block size image.now) [] []) }
{
    let image = image_copy(alloc, image)?;
    Ok(Blocks::new(alloc, image, Cuts::Every { size, fill: None }))
}
