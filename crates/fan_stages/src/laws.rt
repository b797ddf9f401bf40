ghost use Rattle.std.specs.Prelude.{◌≡◌, true, List, length};
ghost use Rattle.pipe_model.specs.declared.kind.Kind.TheVariants as Kinds;
ghost use Rattle.pipe_model.specs.Event.{Event};
ghost use Rattle.pipe_model.specs.Table.{line_of};
ghost use Rattle.pipe_model.specs.Alone.{IsAllAlone};
ghost use Rattle.pipe_model.specs.Listed.{fan_in_pairs, IsListed, Puts};
ghost use Rattle.stream_laws.specs.GivenLists.{given_by};
ghost use Rattle.fan_stages.specs.Fan.{is_fan};

use pipe_model::{Recs, Strand};

/// What such a stage does by itself on these inputs, where its outputs take all: FANOUT and DEAL what the list functions of
/// their rows say, and FANIN puts its inputs one after another.
pub fn lists(strand: &Strand, inputs: &[Recs])
    requires { is_fan strand.now.kind ≡ true }
    ensures parts { (h : List Event) → IsAllAlone strand.now (given_by inputs.now) h → IsListed strand.now (line_of strand.now.kind).shape (given_by inputs.now) h }
    ensures joins { strand.now.kind ≡ Kinds.FanIn → (h : List Event) → IsAllAlone strand.now (given_by inputs.now) h →
        Puts strand.now h (fan_in_pairs (given_by inputs.now).inputs (length strand.now.ports.has_input)) }
{
    stream_laws::lists(strand);
    stream_laws::fan_in(strand);
}
