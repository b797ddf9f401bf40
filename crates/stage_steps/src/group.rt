use pipe_model::Times;

/// The record at hand on an output, so many times in a row. With `Times::All` it is written again and again, for as long
/// as its output takes it.
#[derive(Clone, Copy)]
pub struct Repeat {
    pub output: u16,
    pub times: Times,
}

/// What lists give next. It holds no record, so that it costs little to move.
#[derive(Clone, Copy)]
pub enum Group {
    /// The record at hand.
    AtHand(Repeat),
    /// The new record that the lists hold, once, on this output.
    New(u16),
}

impl Group {
    ghost use Rattle.std.specs.Prelude.{◌≡◌};
    ghost use Rattle.pipe_model.specs.declared.kind.Times.TheVariants.{Only};
    ghost use Rattle.stage_steps.specs.declared.group.Group.TheVariants.{AtHand};

    /// The record at hand, once.
    pub fn at_hand(output: u16) -> Group
        ensures { result ≡ AtHand (record { output = output; times = Only 1 }) }
    {
        Group::AtHand(Repeat {
            output,
            times: Times::Only(1),
        })
    }
}
