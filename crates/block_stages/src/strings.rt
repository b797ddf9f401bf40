use pipe_model::{Rec, behind};
use stage_steps::Sought;
use std::marker::Model;

/// A string at which a text is cut, seen as the list of its bytes.
#[derive(Drop)]
pub struct Delimiter {
    sought: Sought,
    /// How many bytes are dropped where it stands: its own, or one where it has none.
    width: usize,
}

impl Model for Delimiter {
    ghost use Rattle.std.specs.Prelude.{◌≡◌, ℕ, List};
    ghost use Rattle.block_stages.specs.Delimiting.{width_of};

    ghost Value = { List ℕ };

    ghost view = { λ delimiter. delimiter.sought };

    ghost invariant = { λ delimiter. delimiter.width ≡ width_of delimiter.sought };
}

impl Delimiter {
    ghost use Rattle.std.specs.Prelude.{◌≡◌, ◌+◌, ◌≤◌, length, None, IfSome};
    ghost use Rattle.block_stages.specs.Delimiting.{width_of, IsCutAt, IsSearchedFor};

    // The string of these bytes.
    pub(crate) fn new(text: Rec) -> Delimiter
        ensures { result ≡ text }
    {
        let width = text.bytes().len().max(1);
        Delimiter {
            sought: Sought::new(text),
            width,
        }
    }

    // How many bytes are dropped where it stands.
    pub(crate) fn width(&self) -> usize
        ensures { result ≡ width_of self.now }
    {
        self.width
    }

    // The first place where a text is cut, where so many of its places were searched before.
    pub(crate) fn find(&self, text: &[u8], searched: usize) -> Option<usize>
        ensures first { IsSearchedFor self.now searched text.now → IsCutAt self.now text.now result }
        ensures within { IfSome result (λ k. k + width_of self.now ≤ length text.now) }
    {
        if text.len() <= searched {
            return None;
        }
        let ahead = self.sought.find(behind(text, searched))?;
        Some(searched + ahead)
    }

    // How many places were searched of a text that is cut nowhere: at those behind them it may stand when more comes.
    pub(crate) fn searched_in(&self, text: &[u8]) -> usize
        ensures { IsCutAt self.now text.now None → IsSearchedFor self.now result text.now }
    {
        (text.len() + 1).saturating_sub(self.width)
    }
}
