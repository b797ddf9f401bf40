use pipe_model::Rec;
use stage_syntax::Arg;

/// What a stage's text is.
#[derive(Clone, Copy, Debug, PartialEq, Eq)]
pub enum PieceKind {
    /// A stage, with a label or without one.
    Stage,
    /// A label alone: a later use of its stage.
    Reference,
    /// A connector, whose first word begins with `*` and ends with `:`.
    Connector,
}

/// A stage, a reference or a connector, with its places in the specification.
#[derive(Drop)]
pub struct Piece {
    /// The number of its label, counted from 0 in the order of their definitions.
    pub label: Option<u32>,
    /// 0 at a label's definition and without a label, and k at its k-th later use.
    pub uses: u16,
    /// Its first word after its label; a reference has none.
    pub name: Rec,
    /// Where the name begins, or else the piece.
    pub name_place: u32,
    /// Where the piece begins, with its label.
    pub place: u32,
    /// What follows the name.
    pub arg: Arg,
    pub kind: PieceKind,
}
