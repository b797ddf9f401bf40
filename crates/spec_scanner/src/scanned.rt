ghost use Rattle.std.specs.Prelude.{◌≡◌, ℕ, List};
ghost use Rattle.spec_scanner.specs.Reads.{Reads};

use crate::piece::Piece;
use std::marker::Model;

/// The pieces of a pipeline in order, seen as the list of them.
#[derive(Drop)]
pub struct Pieces {
    items: Vec<Piece>,
}

impl Model for Pieces {
    ghost use Rattle.std.specs.Prelude.{List};
    ghost use Rattle.spec_scanner.specs.declared.piece.Piece.{Piece};

    ghost Value = { List Piece };

    ghost view = { λ pieces. pieces.items.items };
}

impl Pieces {
    /// The pieces of a vector, which takes no memory.
    pub(crate) fn from_vec(items: Vec<Piece>) -> Pieces
        ensures { result ≡ items.items }
    {
        Pieces { items }
    }

    /// The pieces.
    pub fn as_slice(&self) -> &[Piece]
        ensures { result.now ≡ self.now }
    {
        &self.items
    }

    /// The pieces by value.
    pub fn into_vec(self) -> Vec<Piece>
        ensures { result.items ≡ self }
    {
        self.items
    }
}

/// What a specification's text reads as: its pipelines in order, seen as the list of the lists of their pieces.
#[derive(Drop)]
pub struct Scanned {
    pipelines: Vec<Pieces>,
}

impl Model for Scanned {
    ghost use Rattle.std.specs.Prelude.{List, ℕ};
    ghost use Rattle.spec_scanner.specs.declared.piece.Piece.{Piece};
    ghost use Rattle.spec_scanner.specs.Reads.{Reads};

    ghost Value = { List (List Piece) };

    ghost view = { λ scanned. scanned.pipelines.items };

    ghost invariant = { λ scanned. (text : List ℕ) × Reads text scanned.pipelines.items };
}

impl Scanned {
    /// The pipelines that a text reads as.
    pub(crate) fn from_vec(pipelines: Vec<Pieces>) -> Scanned
        requires { (text : List ℕ) × Reads text pipelines.items }
        ensures { result ≡ pipelines.items }
    {
        Scanned { pipelines }
    }

    /// The pipelines.
    pub fn pipelines(&self) -> &[Pieces]
        ensures pipelines { result.now ≡ self.now }
        ensures read { (text : List ℕ) × Reads text self.now }
    {
        &self.pipelines
    }

    /// The pipelines by value.
    pub fn into_pipelines(self) -> Vec<Pieces>
        ensures pipelines { result.items ≡ self }
        ensures read { (text : List ℕ) × Reads text self }
    {
        self.pipelines
    }
}
