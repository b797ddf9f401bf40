ghost use Rattle.std.specs.Prelude.{◌≡◌, ◌++◌, ◌∷◌, [], IfOk};

use pipe_model::{Item, NoMemory, Origin};
use std::alloc::Global;

// A copy of an origin.
fn copied_origin(alloc: Global, origin: &Origin) -> Result<Origin, NoMemory>
    ensures { IfOk result (λ copy. copy ≡ origin.now) }
{
    Ok(match origin {
        Origin::Cut(range) => Origin::Cut(*range),
        Origin::Number => Origin::Number,
        Origin::Text(text) => Origin::Text(text.copy(alloc)?),
        Origin::Print(k) => Origin::Print(*k),
    })
}

// A copy of an item.
fn copied_item(alloc: Global, item: &Item) -> Result<Item, NoMemory>
    ensures { IfOk result (λ copy. copy ≡ item.now) }
{
    Ok(match item {
        Item::Field {
            origin,
            strip,
            convert,
            spot,
            align,
        } => Item::Field {
            origin: copied_origin(alloc, origin)?,
            strip: *strip,
            convert: *convert,
            spot: *spot,
            align: *align,
        },
        Item::Read => Item::Read,
        Item::Write => Item::Write,
        Item::Pad(byte) => Item::Pad(*byte),
        Item::Set {
            counter,
            op,
            amount,
        } => Item::Set {
            counter: *counter,
            op: *op,
            amount: *amount,
        },
    })
}

// A copy of some items.
pub(crate) fn copied(alloc: Global, items: &[Item]) -> Result<Vec<Item>, NoMemory>
    ensures { IfOk result (λ copy. copy.items ≡ items.now) }
{
    let mut copy = Vec::new(alloc);
    for item in items {
        copy.push(copied_item(alloc, item)?)?;
    }
    Ok(copy)
}
