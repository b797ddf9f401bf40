ghost use Rattle.std.specs.Prelude.{◌≡◌, ◌==◌, ◌<◌, IfSome, false, length, not, position, slice_get};
ghost use Rattle.std.specs.List.{last_or, list_all};
ghost use Rattle.std.specs.Option.{option_map_or};
ghost use Rattle.spec_scanner.specs.Stretches as Stretches;
ghost use Rattle.spec_scanner.specs.Pieces as Pieces;

use crate::item::{Item, Reading};

// Whether the item is plain.
pub(crate) fn is_plain(item: &Item) -> bool
    ensures { result ≡ Stretches.is_plain item.now }
{
    matches!(item.reading, Reading::Plain)
}

// Whether the item is a blank that isn't escaped.
fn is_plain_blank(item: &Item) -> bool
    ensures { result ≡ Stretches.is_plain_blank item.now }
{
    is_plain(item) && item.byte == b' '
}

// Where the first item is that is no plain blank.
fn first_other(items: &[Item]) -> Option<usize>
    ensures { result ≡ position (λ item. not (Stretches.is_plain_blank item)) items.now }
{
    items.iter().position(|item| !is_plain_blank(item))
}

// The items without the plain blanks at the front.
pub(crate) fn without_front(items: &[Item]) -> &[Item]
    ensures { result.now ≡ Stretches.without_front items.now }
{
    let front = first_other(items).unwrap_or(items.len());
    &items[front..]
}

// The items without the plain blanks at the back.
fn without_back(mut items: &[Item]) -> &[Item]
    ensures { result.now ≡ Stretches.without_back items.entry.now }
{
    while let Some((last, rest)) = items.split_last() {
        if !is_plain_blank(last) {
            break;
        }
        items = rest;
    }
    items
}

// A stage's text: the items without the plain blanks at both ends.
pub(crate) fn trimmed(items: &[Item]) -> &[Item]
    ensures { result.now ≡ Stretches.trimmed items.now }
{
    without_back(without_front(items))
}

// Whether there are plain blanks alone.
pub(crate) fn is_ignored(items: &[Item]) -> bool
    ensures { result ≡ list_all Stretches.is_plain_blank items.now }
{
    items.iter().all(|item| is_plain_blank(item))
}

// Where the first word begins, if there is one.
fn word_begin(items: &[Item]) -> Option<usize>
    ensures { result ≡ position Pieces.is_no_blank items.now }
{
    items.iter().position(|item| item.byte != b' ')
}

// Where the first blank is, escaped or not.
fn word_end(items: &[Item]) -> Option<usize>
    ensures { result ≡ position Pieces.is_blank items.now }
{
    items.iter().position(|item| item.byte == b' ')
}

// The items from the first word on.
pub(crate) fn from_word(items: &[Item]) -> &[Item]
    ensures { result.now ≡ Pieces.from_word items.now }
{
    let begin = word_begin(items).unwrap_or(items.len());
    &items[begin..]
}

// The first word, and what stands after it.
pub(crate) fn split_word(items: &[Item]) -> (&[Item], &[Item])
    ensures word { result.0.now ≡ Pieces.first_word items.now }
    ensures after { result.1.now ≡ Pieces.after_word items.now }
{
    let from = from_word(items);
    let size = word_end(from).unwrap_or(from.len());
    from.split_at(size)
}

// The first item.
fn first_item(items: &[Item]) -> Option<Item>
    ensures { result ≡ slice_get items.now 0 }
{
    items.first().copied()
}

// The last item.
fn last_item(items: &[Item]) -> Option<Item>
    ensures { result ≡ last_or None items.now }
{
    items.last().copied()
}

// Whether the word begins with `*`.
fn is_starred(word: &[Item]) -> bool
    ensures { result ≡ Pieces.is_starred word.now }
{
    match first_item(word) {
        Some(item) => item.byte == b'*',
        None => false,
    }
}

// Whether the word ends with `:`.
fn ends_with_colon(word: &[Item]) -> bool
    ensures { result ≡ option_map_or (λ item. item.byte == 58) (last_or None word.now) false }
{
    match last_item(word) {
        Some(item) => item.byte == b':',
        None => false,
    }
}

// Whether the word begins with `*` and ends with `:`.
pub(crate) fn is_connector(word: &[Item]) -> bool
    ensures { result ≡ Pieces.is_connector word.now }
{
    is_starred(word) && ends_with_colon(word)
}

// The place of the first item, or this one where there is none.
pub(crate) fn place_of(items: &[Item], place: u32) -> u32
    ensures { result ≡ Pieces.place_of items.now place }
{
    match first_item(items) {
        Some(item) => item.place,
        None => place,
    }
}

// The place just after the last item, or this one where there is none.
pub(crate) fn end_of(items: &[Item], place: u32) -> u32
    ensures { result ≡ Pieces.end_of items.now place }
{
    match last_item(items) {
        Some(item) => item.after,
        None => place,
    }
}

// Where the first plain colon is.
fn first_colon(word: &[Item]) -> Option<usize>
    ensures { result ≡ position Pieces.is_plain_colon word.now }
{
    word.iter()
        .position(|item| is_plain(item) && item.byte == b':')
}

// How many items stand before the colon of a label, if there is one.
pub(crate) fn colon_of(items: &[Item]) -> Option<usize>
    ensures count { result ≡ Pieces.colon_of items.now }
    ensures within { IfSome result (λ count. count < length items.now) }
{
    let begin = word_begin(items).unwrap_or(items.len());
    let (word, _) = split_word(items);
    if is_starred(word) {
        return None;
    }
    let at = first_colon(word)?;
    Some(begin + at)
}
