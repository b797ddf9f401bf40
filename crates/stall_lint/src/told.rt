use std::marker::Model;

/// Whether a net may stall, and by what. The answers are tried in this order.
#[derive(Drop)]
pub enum Lint {
    /// The net isn't settled, by this strand, the least that doesn't meet what it owes.
    Loose(u32),
    /// It is settled, and this is its least strand that issues pipelines.
    Issuer(u32),
    /// None of these, and this is its least strand of a DAM.
    Latch(u32),
    /// None of these, and these strands are a closed walk.
    Walk(Strands),
    /// None of these: the net never stalls, whatever it is fed.
    Never,
}

/// Strands by their numbers, seen as a list of these.
#[derive(Drop)]
pub struct Strands {
    items: Vec<u32>,
}

impl Model for Strands {
    ghost use Rattle.std.specs.Prelude.{List, ℕ};

    ghost Value = { List ℕ };

    ghost view = { λ strands. strands.items.items };
}

impl Strands {
    ghost use Rattle.std.specs.Prelude.{◌≡◌};

    // These numbers, which takes no memory.
    pub(crate) fn from_vec(items: Vec<u32>) -> Strands
        ensures { result ≡ items.items }
    {
        Strands { items }
    }

    /// The numbers one by one.
    pub fn as_slice(&self) -> &[u32]
        ensures { result.now ≡ self.now }
    {
        &self.items
    }
}
