/// What a call did to the core while it held the slot.
#[derive(Clone, Copy)]
pub(crate) enum Change {
    /// The core is as it was.
    Nothing,
    /// One entry was made, whose job is out.
    Step,
    /// The job of this place came home, and then so many entries were made, whose jobs are home. The journal has `len` now.
    Home { place: u64, made: u64, len: u64 },
    /// The job of this place came home, and then so many entries were made, whose jobs are home but for the last one's, which is lost.
    /// The journal has `len` now.
    Short { place: u64, made: u64, len: u64 },
    /// The job of this place is lost.
    Lost { place: u64 },
}

impl Change {
    ghost use Rattle.std.specs.Prelude.{◌≡◌};
    ghost use Rattle.board.specs.Holding.{made_by};

    // How many entries it made.
    pub(crate) fn made(self) -> u64
        ensures { result ≡ made_by self }
    {
        match self {
            Change::Nothing => 0,
            Change::Step => 1,
            Change::Home { made, .. } => made,
            Change::Short { made, .. } => made,
            Change::Lost { .. } => 0,
        }
    }
}
