ghost use Rattle.std.specs.Prelude.{◌≡◌, IfOk, map};
ghost use Rattle.spec_scanner.specs.Pieces as Pieces;
ghost use Rattle.spec_scanner.specs.Stretches as Stretches;

use crate::item::Item;
use crate::piece::{Piece, PieceKind};
use crate::words::{end_of, from_word, is_connector, is_plain, place_of, split_word};
use pipe_model::{NoMemory, Rec};
use stage_syntax::Arg;
use std::alloc::Global;

// The bytes of the items.
pub(crate) fn bytes_of(alloc: Global, items: &[Item]) -> Result<Vec<u8>, NoMemory>
    ensures { IfOk result (λ bytes. bytes.items ≡ Pieces.bytes_of items.now) }
{
    Ok(items.iter().map(|item| item.byte).collect(alloc)?)
}

// Whether each of the items is plain.
fn plain_of(alloc: Global, items: &[Item]) -> Result<Vec<bool>, NoMemory>
    ensures { IfOk result (λ plain. plain.items ≡ map Stretches.is_plain items.now) }
{
    Ok(items.iter().map(|item| is_plain(item)).collect(alloc)?)
}

// The places of the items.
fn places_of(alloc: Global, items: &[Item]) -> Result<Vec<u32>, NoMemory>
    ensures { IfOk result (λ places. places.items ≡ map (λ item. item.place) items.now) }
{
    Ok(items.iter().map(|item| item.place).collect(alloc)?)
}

// Items as an argument, in a stage's text that ends just before a place.
fn argument(alloc: Global, items: &[Item], end: u32) -> Result<Arg, NoMemory>
    ensures { IfOk result (λ arg. arg ≡ Pieces.argument items.now end) }
{
    let bytes = bytes_of(alloc, items)?;
    let plain = plain_of(alloc, items)?;
    let places = places_of(alloc, items)?;
    Ok(Arg::from_parts(bytes, plain, places, end))
}

// A stage or a connector at a place, of the items after its label, with the label's number.
pub(crate) fn named_piece(
    alloc: Global,
    kind: PieceKind,
    label: Option<u32>,
    place: u32,
    items: &[Item],
) -> Result<Piece, NoMemory>
    ensures { IfOk result (λ piece. piece ≡ Pieces.named_piece kind label place items.now) }
{
    let (word, after) = split_word(items);
    let name = Rec::from_vec(bytes_of(alloc, word)?);
    let arg = argument(alloc, after, end_of(items, place))?;
    Ok(Piece {
        label,
        uses: 0,
        name,
        name_place: place_of(from_word(items), place),
        place,
        arg,
        kind,
    })
}

// A reference at a place, whose text ends just before another, with the label's number and the number of this use.
pub(crate) fn reference_piece(
    alloc: Global,
    label: Option<u32>,
    uses: u16,
    place: u32,
    end: u32,
) -> Piece
    ensures { result ≡ Pieces.reference_piece label uses place end }
{
    Piece {
        label,
        uses,
        name: Rec::from_vec(Vec::new(alloc)),
        name_place: place,
        place,
        arg: Arg::from_parts(Vec::new(alloc), Vec::new(alloc), Vec::new(alloc), end),
        kind: PieceKind::Reference,
    }
}

// A text without a label: a connector, or else a stage.
pub(crate) fn plain_piece(alloc: Global, items: &[Item]) -> Result<Piece, NoMemory>
    ensures { IfOk result (λ piece. piece ≡ Pieces.plain_piece items.now) }
{
    let (word, _) = split_word(items);
    let kind = if is_connector(word) {
        PieceKind::Connector
    } else {
        PieceKind::Stage
    };
    named_piece(alloc, kind, None, place_of(items, 0), items)
}
