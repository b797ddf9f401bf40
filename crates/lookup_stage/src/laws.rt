ghost use Rattle.std.specs.Prelude.{◌≡◌, true, List};
ghost use Rattle.pipe_model.specs.declared.kind.Kind.TheVariants as Kinds;
ghost use Rattle.pipe_model.specs.declared.range.Range.{Range};
ghost use Rattle.pipe_model.specs.Event.{Event};
ghost use Rattle.pipe_model.specs.Alone.{IsAllAlone};
ghost use Rattle.pipe_model.specs.Listed.{lookup_pairs, Puts};
ghost use Rattle.stream_laws.specs.GivenLists.{given_by};
ghost use Rattle.lookup_stage.specs.LookupStage.{is_lookup};

use pipe_model::{Recs, Strand};

/// What LOOKUP does by itself on these inputs, where its outputs take all: it puts each detail with the first master of its
/// key, or else alone, and at the end the masters that no detail matched.
pub fn lists(strand: &Strand, inputs: &[Recs])
    requires { is_lookup strand.now.kind ≡ true }
    ensures { (details masters : Range) → strand.now.kind ≡ Kinds.Lookup details masters →
        (h : List Event) → IsAllAlone strand.now (given_by inputs.now) h →
        Puts strand.now h (lookup_pairs details masters ((given_by inputs.now).inputs 0) ((given_by inputs.now).inputs 1)) }
{
    stream_laws::look_up(strand);
}
