ghost use Rattle.std.specs.Prelude.{◌≡◌};
ghost use Rattle.core_machine.specs.Machine.{Machine, IsLawful};
ghost use Rattle.board.specs.declared.change.Change.{Change as ChangeIs};

use crate::bell::Bell;
use crate::change::Change;
use core_machine::Core;
use stage_steps::Stage;

/// What a call does with the core while it holds the slot.
pub(crate) trait Task<S: Stage> {
    /// What it fills beside its answer.
    type Room;

    type Answer;

    // What it asks of the core.
    ghost may: { Self → Machine → Type 0 };

    // What it did: of the room and the core before, the answer, the core and the room after, and the change.
    ghost did: { Self → Self.Room → Machine → Self.Answer → Machine → Self.Room → ChangeIs → Type 0 };

    // Its answer where the slot is out.
    ghost left: { Self → Self.Answer };

    // Does it, and says what change it was.
    fn run(
        self,
        bell: &Bell,
        core: &mut Core<S>,
        room: &mut Self::Room,
        change: &mut Change,
    ) -> Self::Answer
        requires allowed { may self core.old }
        requires none { change.old ≡ Change.Nothing }
        ensures done { did self room.old core.old result core.new room.new change.new }
        ensures lawful { IsLawful core.new };

    // Where the slot is out.
    fn leave(self) -> Self::Answer
        ensures { result ≡ left self };
}
