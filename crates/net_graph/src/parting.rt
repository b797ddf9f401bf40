ghost use Rattle.std.specs.Prelude.{◌≡◌};
ghost use Rattle.pipe_model.specs.Form.{parting_by};
ghost use Rattle.pipe_model.specs.Table.{line_of};
ghost use Rattle.pipe_model.specs.WellFormed as Formed;
ghost use Rattle.net_graph.specs.Nets as Nets;
ghost use Rattle.net_graph.specs.Partings.{parting_is};

use pipe_model::Kind;

/// How many strands a stage has.
#[derive(Clone, Copy)]
pub(crate) enum Parting {
    /// One.
    Whole,
    /// Two, joined by a queue.
    Queued,
    /// One for each of its streams.
    Streamed,
}

impl Parting {
    // How a stage of the kind is parted into strands.
    pub(crate) fn of(kind: &Kind) -> Parting
        ensures { parting_is result ≡ parting_by (line_of kind.now).shape }
    {
        match kind {
            Kind::Elastic => Parting::Queued,
            Kind::Dam => Parting::Streamed,
            _ => Parting::Whole,
        }
    }

    // How many strands a stage of so many streams has.
    pub(crate) fn strands(self, streams: u16) -> u16
        ensures { result ≡ Formed.strands_of (parting_is self) streams }
    {
        match self {
            Parting::Whole => 1,
            Parting::Queued => 2,
            Parting::Streamed => streams,
        }
    }

    // The strand of the stage, counted from 0, at which a stream comes in.
    pub(crate) fn part_in(self, stream: u16) -> u16
        ensures { result ≡ Nets.part_in (parting_is self) stream }
    {
        match self {
            Parting::Whole | Parting::Queued => 0,
            Parting::Streamed => stream,
        }
    }

    // The strand of the stage, counted from 0, at which a stream goes out.
    pub(crate) fn part_out(self, stream: u16) -> u16
        ensures { result ≡ Nets.part_out (parting_is self) stream }
    {
        match self {
            Parting::Whole => 0,
            Parting::Queued => 1,
            Parting::Streamed => stream,
        }
    }

    // The place of a stream at its strand.
    pub(crate) fn place(self, stream: u16) -> u16
        ensures { result ≡ Nets.stream_place (parting_is self) stream }
    {
        match self {
            Parting::Whole | Parting::Queued => stream,
            Parting::Streamed => 0,
        }
    }
}
