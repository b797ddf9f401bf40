use pipe_model::Out;
use stage_steps::Act;

/// What is left to do with the record at hand.
#[derive(Clone, Copy)]
pub(crate) enum Passing {
    /// The record of this input is written on the output of its number, and then taken.
    Writing(u16),
    /// The record of this input is taken.
    Taking(u16),
    /// Nothing is left.
    Passed,
}

impl Passing {
    ghost use Rattle.gate_elastic.specs.Passing.{GivesPassing, FallsPassing};

    // The next act, or None where nothing is left to do.
    #[inline(always)]
    pub(crate) fn next(&mut self) -> Option<Act>
        ensures falls { FallsPassing self.old self.new result }
        ensures gives { GivesPassing self.old self.new result }
    {
        match *self {
            Passing::Writing(input) => {
                *self = Passing::Taking(input);
                Some(Act::Write(input, Out::Same(input)))
            }
            Passing::Taking(input) => {
                *self = Passing::Passed;
                Some(Act::Take(input))
            }
            Passing::Passed => None,
        }
    }
}
