ghost use Rattle.std.specs.Prelude.{◌≡◌, true, List};
ghost use Rattle.pipe_model.specs.Event.{Event};
ghost use Rattle.pipe_model.specs.Table.{line_of};
ghost use Rattle.pipe_model.specs.Alone.{IsAllAlone};
ghost use Rattle.pipe_model.specs.Listed.{IsListed};
ghost use Rattle.stream_laws.specs.GivenLists.{given_by};
ghost use Rattle.gate_elastic.specs.Gate.{is_gate};

use pipe_model::{Recs, Strand};

/// What COPY, BUFFER or a strand of ELASTIC does by itself on these inputs, where its outputs take all: the list functions of
/// its row say it. Of GATE and DAM it says nothing: the inputs of GATE alone don't settle what it sees, and the strands of DAM
/// wait for the first of them.
pub fn lists(strand: &Strand, inputs: &[Recs])
    requires { is_gate strand.now.kind ≡ true }
    ensures { (h : List Event) → IsAllAlone strand.now (given_by inputs.now) h → IsListed strand.now (line_of strand.now.kind).shape (given_by inputs.now) h }
{
    stream_laws::lists(strand);
}
