ghost use Rattle.std.specs.Prelude.{◌≡◌, MatchOption, position};
ghost use Rattle.spec_scanner.specs.Cuts.{IsCut, IsWhole};
ghost use Rattle.spec_scanner.specs.Stretches.{is_end, is_separator};

use crate::item::{Item, Reading};

// Where the first separator is.
fn first_separator(items: &[Item]) -> Option<usize>
    ensures { result ≡ position is_separator items.now }
{
    items
        .iter()
        .position(|item| matches!(item.reading, Reading::Separator))
}

// Where the first end character is.
fn first_end(items: &[Item]) -> Option<usize>
    ensures { result ≡ position is_end items.now }
{
    items
        .iter()
        .position(|item| matches!(item.reading, Reading::End))
}

// The items before the first separator, its place, and the items after it; None where there is no separator.
pub(crate) fn split_stage(items: &[Item]) -> Option<(&[Item], u32, &[Item])>
    ensures { MatchOption result (IsWhole is_separator items.now) (λ found. IsCut is_separator items.now found.0.now found.1 found.2.now) }
{
    let at = first_separator(items)?;
    Some((&items[..at], items[at].place, &items[at + 1..]))
}

// The items before the first end character, its place, and the items after it; None where there is no end character.
pub(crate) fn split_pipeline(items: &[Item]) -> Option<(&[Item], u32, &[Item])>
    ensures { MatchOption result (IsWhole is_end items.now) (λ found. IsCut is_end items.now found.0.now found.1 found.2.now) }
{
    let at = first_end(items)?;
    Some((&items[..at], items[at].place, &items[at + 1..]))
}
