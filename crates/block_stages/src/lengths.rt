ghost use Rattle.std.specs.Prelude.{◌≡◌, IfSome};
ghost use Rattle.pipe_model.specs.BlockRows.{sf_length, cut_by_lengths, is_bad_length};
ghost use Rattle.pipe_model.specs.Parts.{last_part};
ghost use Rattle.block_stages.specs.Cutting.{IsFirst, IsWithin};

use crate::cuts::Cut;
use pipe_model::behind;

// The length at the front of a text.
fn length_at(text: &[u8]) -> usize
    ensures { result ≡ sf_length text.now }
{
    if text.len() < 2 {
        return 0;
    }
    256 * text[0] as usize + text[1] as usize
}

// The first record of a text by its length.
pub(crate) fn first_by_length(text: &[u8]) -> Option<Cut>
    ensures first { IsFirst (cut_by_lengths 0) text.now result }
    ensures within { IfSome result (λ cut. IsWithin cut text.now) }
{
    let next = length_at(text);
    if next < 2 || text.len() < next {
        return None;
    }
    Some(Cut {
        from: 2,
        size: next - 2,
        next,
    })
}

// What is left of a text behind its whole records.
pub(crate) fn rest_by_lengths(text: &[u8]) -> &[u8]
    ensures { result.now ≡ last_part (cut_by_lengths 0 text.now) }
{
    let mut rest = text;
    while let Some(cut) = first_by_length(rest) {
        rest = behind(rest, cut.next);
    }
    rest
}

// Whether a length stands at the front that no record has.
pub(crate) fn is_bad_length(text: &[u8]) -> bool
    ensures { result ≡ is_bad_length text.now }
{
    text.len() >= 2 && length_at(text) < 2
}
