ghost use Rattle.std.specs.Prelude.{◌≡◌, ◌++◌, IfOk};
ghost use Rattle.pipe_model.specs.BlockRows.{image_of, is_too_long};
ghost use Rattle.pipe_model.specs.declared.kind.Image.TheVariants.{Sf};

use pipe_model::{Image, NoMemory};
use std::alloc::Global;

// The longest record whose length fits into two bytes with them.
const LONGEST: usize = 65_533;

// The same image once more.
pub(crate) fn image_copy(alloc: Global, image: &Image) -> Result<Image, NoMemory>
    ensures { IfOk result (λ new. new ≡ image.now) }
{
    match image {
        Image::Fixed => Ok(Image::Fixed),
        Image::Linend => Ok(Image::Linend),
        Image::Text(string) => Ok(Image::Text(string.copy(alloc)?)),
        Image::Sf => Ok(Image::Sf),
    }
}

// Whether the record has no image.
pub(crate) fn is_too_long(image: &Image, rec: &[u8]) -> bool
    ensures { result ≡ is_too_long image.now rec.now }
{
    match image {
        Image::Sf => rec.len() > LONGEST,
        _ => false,
    }
}

// Adds a record behind its length, which counts its own two bytes. One that is too long adds nothing.
fn add_with_length(text: &mut Vec<u8>, rec: &[u8]) -> Result<(), NoMemory>
    ensures { IfOk result (λ _. text.new.items ≡ text.old.items ++ image_of Sf rec.now) }
{
    if rec.len() > LONGEST {
        return Ok(());
    }
    let len = rec.len() + 2;
    text.extend_from_slice(&[(len / 256) as u8, (len % 256) as u8])?;
    text.extend_from_slice(rec)?;
    Ok(())
}

// Adds to a text what stands for a record.
pub(crate) fn add_image(image: &Image, text: &mut Vec<u8>, rec: &[u8]) -> Result<(), NoMemory>
    ensures { IfOk result (λ _. text.new.items ≡ text.old.items ++ image_of image.now rec.now) }
{
    match image {
        Image::Fixed => text.extend_from_slice(rec)?,
        Image::Linend => {
            text.extend_from_slice(rec)?;
            text.push(b'\n')?;
        }
        Image::Text(string) => {
            text.extend_from_slice(rec)?;
            text.extend_from_slice(string.bytes())?;
        }
        Image::Sf => add_with_length(text, rec)?,
    }
    Ok(())
}
