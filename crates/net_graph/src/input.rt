ghost use Rattle.std.specs.Prelude.{◌≡◌, ◌||◌, Some, true, slice_get};
ghost use Rattle.pipe_model.specs.declared.net.Strand.{Strand as StrandIs};
ghost use Rattle.pipe_model.specs.WellFormed.{IsWellFormed};
ghost use Rattle.net_graph.specs.Fed as Fed;
ghost use Rattle.net_graph.specs.Fed.{reads_file, reads_input, with_kind};

use pipe_model::{Kind, Net, Rec};

/// Gives the CONSOLE that reads the bytes of the input, or a `<` those of its file.
pub fn feed(net: &mut Net, strand: u32, bytes: Rec)
    requires reads { (p : StrandIs) × (slice_get net.old.strands strand ≡ Some p) × ((reads_input p.kind || reads_file p.kind) ≡ true) }
    ensures fed { (p : StrandIs) → slice_get net.old.strands strand ≡ Some p → net.new ≡ with_kind net.old strand (Fed.with_bytes bytes p.kind) }
    ensures whole { IsWellFormed net.old → IsWellFormed net.new }
{
    let strand = strand as usize;
    let kind = net.strands.replace_kind(strand, Kind::Hole);
    net.strands.replace_kind(strand, with_bytes(kind, bytes));
}

// The kind with these bytes, where it is fed any.
fn with_bytes(kind: Kind, bytes: Rec) -> Kind
    ensures { result ≡ Fed.with_bytes bytes kind }
{
    match kind {
        Kind::ConsoleIn { .. } => Kind::ConsoleIn { bytes },
        Kind::FileIn { name, .. } => Kind::FileIn {
            name,
            bytes: Some(bytes),
        },
        _ => kind,
    }
}
