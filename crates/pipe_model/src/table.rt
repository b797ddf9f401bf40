ghost use Rattle.std.specs.Prelude.{◌≡◌};
ghost use Rattle.pipe_model.specs.Form.{inputs_by, is_shown, keeping_by};
ghost use Rattle.pipe_model.specs.Table.{is_input, line_of, outputs_by};

use crate::kind::Kind;

/// The name of a stage of this kind, in lower case.
pub fn name_of(kind: &Kind) -> &'static str
    ensures { result.now ≡ (line_of kind.now).name }
{
    match kind {
        Kind::ConsoleIn { .. } | Kind::ConsoleOut => "console",
        Kind::FileIn { .. } => "<",
        Kind::FileOut { .. } => ">",
        Kind::Literal { .. } => "literal",
        Kind::Hole => "hole",
        Kind::Locate { .. } => "locate",
        Kind::Nlocate { .. } => "nlocate",
        Kind::Find { .. } => "find",
        Kind::Nfind { .. } => "nfind",
        Kind::TakeFirst(_) | Kind::TakeLast(_) => "take",
        Kind::DropFirst(_) | Kind::DropLast(_) => "drop",
        Kind::Between { .. } => "between",
        Kind::Inside { .. } => "inside",
        Kind::ToLabel { .. } => "tolabel",
        Kind::FrLabel { .. } => "frlabel",
        Kind::Change { .. } => "change",
        Kind::Strip { .. } => "strip",
        Kind::Chop(_) => "chop",
        Kind::Pad { .. } => "pad",
        Kind::Split { .. } => "split",
        Kind::Join { .. } => "join",
        Kind::Xlate(_) => "xlate",
        Kind::Reverse => "reverse",
        Kind::Duplicate(_) => "duplicate",
        Kind::Unique { .. } => "unique",
        Kind::Sort(_) => "sort",
        Kind::Count(_) => "count",
        Kind::Lookup { .. } => "lookup",
        Kind::Collate { .. } => "collate",
        Kind::Merge(_) => "merge",
        Kind::FanOut => "fanout",
        Kind::FanIn => "fanin",
        Kind::FanInAny => "faninany",
        Kind::Deal => "deal",
        Kind::Gather => "gather",
        Kind::Overlay(_) => "overlay",
        Kind::Synchronise => "synchronise",
        Kind::Juxtapose => "juxtapose",
        Kind::Gate => "gate",
        Kind::Dam => "dam",
        Kind::Elastic => "elastic",
        Kind::Buffer => "buffer",
        Kind::Copy => "copy",
        Kind::Fblock { .. } => "fblock",
        Kind::Block { .. } => "block",
        Kind::Deblock(_) => "deblock",
        Kind::Specs { .. } => "specs",
    }
}

/// The greatest number of inputs of a stage of this kind.
pub fn most_inputs(kind: &Kind) -> u16
    ensures { result ≡ inputs_by (line_of kind.now).shape }
{
    match kind {
        Kind::ConsoleIn { .. } | Kind::FileIn { .. } => 0,
        Kind::Lookup { .. } | Kind::Collate { .. } | Kind::Juxtapose => 2,
        Kind::Merge(_)
        | Kind::FanIn
        | Kind::FanInAny
        | Kind::Gather
        | Kind::Overlay(_)
        | Kind::Synchronise
        | Kind::Gate
        | Kind::Dam => 64,
        _ => 1,
    }
}

/// The greatest number of outputs of a stage of this kind.
pub fn most_outputs(kind: &Kind) -> u16
    ensures { result ≡ outputs_by (line_of kind.now) }
{
    match kind {
        Kind::Locate { .. }
        | Kind::Nlocate { .. }
        | Kind::Find { .. }
        | Kind::Nfind { .. }
        | Kind::TakeFirst(_)
        | Kind::TakeLast(_)
        | Kind::DropFirst(_)
        | Kind::DropLast(_)
        | Kind::Between { .. }
        | Kind::Inside { .. }
        | Kind::ToLabel { .. }
        | Kind::FrLabel { .. }
        | Kind::Chop(_)
        | Kind::Unique { .. } => 2,
        Kind::Lookup { .. } | Kind::Collate { .. } => 3,
        Kind::FanOut | Kind::Deal | Kind::Synchronise | Kind::Gate | Kind::Dam => 64,
        _ => 1,
    }
}

/// Whether a stage of this kind is fed the bytes of standard input.
pub fn reads_input(kind: &Kind) -> bool
    ensures { result ≡ is_input (line_of kind.now).feed }
{
    matches!(kind, Kind::ConsoleIn { .. })
}

/// Whether what a stage of this kind took is the text of standard output.
pub fn is_shown(kind: &Kind) -> bool
    ensures { result ≡ is_shown (keeping_by (line_of kind.now).shape) }
{
    matches!(kind, Kind::ConsoleOut)
}
