ghost use Rattle.std.specs.Prelude.{IfSome};
ghost use Rattle.pipe_model.specs.BlockRows.{cut_at};
ghost use Rattle.pipe_model.specs.Parts.{cut_every};
ghost use Rattle.block_stages.specs.Cutting.{IsFirst, IsWithin};
ghost use Rattle.block_stages.specs.Delimiting.{IsSearchedFor};

use crate::lengths::{first_by_length, is_bad_length, rest_by_lengths};
use crate::strings::Delimiter;

/// A record at the front of a text: where it begins, how many bytes it has, and where what follows it begins.
#[derive(Clone, Copy)]
pub(crate) struct Cut {
    pub from: usize,
    pub size: usize,
    pub next: usize,
}

/// Where a text is cut into records.
#[derive(Drop)]
pub enum Cuts {
    /// Every so many bytes. At the end of input the rest is filled up with the byte, where there is one.
    Every { size: u32, fill: Option<u8> },
    /// At each occurrence of a string, which is dropped.
    At(Delimiter),
    /// By lengths of two bytes, which count themselves. A rest isn't written.
    ByLengths,
}

// The first so many bytes of a text, where it has them.
fn first_block(size: u32, text: &[u8]) -> Option<Cut>
    ensures first { IsFirst (cut_every size) text.now result }
    ensures within { IfSome result (λ cut. IsWithin cut text.now) }
{
    let size = size as usize;
    if size == 0 || text.len() < size {
        return None;
    }
    Some(Cut {
        from: 0,
        size,
        next: size,
    })
}

// What stands before the first occurrence of a string.
fn first_before(string: &Delimiter, text: &[u8], searched: usize) -> Option<Cut>
    ensures first { IsSearchedFor string.now searched text.now → IsFirst (cut_at string.now 0) text.now result }
    ensures within { IfSome result (λ cut. IsWithin cut text.now) }
{
    let size = string.find(text, searched)?;
    Some(Cut {
        from: 0,
        size,
        next: size + string.width(),
    })
}

impl Cuts {
    ghost use Rattle.std.specs.Prelude.{◌≡◌, true, None, IfSome};
    ghost use Rattle.pipe_model.specs.Parts.{last_part};
    ghost use Rattle.block_stages.specs.Cutting.{parts_by, stops_by, code_by, IsFirst, IsSearched, IsWithin};

    // The first record of a text that is complete, where so many of its places were searched before.
    #[inline(never)]
    pub(crate) fn first(&self, text: &[u8], searched: usize) -> Option<Cut>
        ensures first { IsSearched self.now searched text.now → IsFirst (parts_by self.now) text.now result }
        ensures within { IfSome result (λ cut. IsWithin cut text.now) }
    {
        match self {
            Cuts::Every { size, fill: _ } => first_block(*size, text),
            Cuts::At(string) => first_before(string, text, searched),
            Cuts::ByLengths => first_by_length(text),
        }
    }

    // Whether no record of a text is complete, where its length alone tells so.
    #[inline(always)]
    pub(crate) fn is_short(&self, text: &[u8]) -> bool
        ensures { result ≡ true → IsFirst (parts_by self.now) text.now None }
    {
        match self {
            Cuts::Every { size, fill: _ } => first_block(*size, text).is_none(),
            _ => false,
        }
    }

    // How many places were searched of a text of this length in which no record is complete.
    pub(crate) fn searched_in(&self, text: &[u8]) -> usize
        ensures { IsFirst (parts_by self.now) text.now None → IsSearched self.now result text.now }
    {
        match self {
            Cuts::At(string) => string.searched_in(text),
            _ => 0,
        }
    }

    // Whether the stage ends for what is left of a text behind its records.
    pub(crate) fn stops_at(&self, text: &[u8]) -> bool
        ensures { result ≡ stops_by self.now (last_part (parts_by self.now text.now)) }
    {
        match self {
            Cuts::ByLengths => is_bad_length(rest_by_lengths(text)),
            _ => false,
        }
    }

    // The code with which it ends there.
    pub(crate) fn code_at(&self, text: &[u8]) -> i32
        ensures { result ≡ code_by self.now (last_part (parts_by self.now text.now)) }
    {
        match self {
            Cuts::ByLengths if !rest_by_lengths(text).is_empty() => 8,
            _ => 0,
        }
    }
}
