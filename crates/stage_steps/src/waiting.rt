ghost use Rattle.std.specs.Prelude.{◌≡◌, None, option_map};
ghost use Rattle.pipe_model.specs.declared.kind.Times.TheVariants.{Only};
ghost use Rattle.stage_steps.specs.declared.group.Group.TheVariants.{AtHand};

use crate::group::Group;

/// The record at hand, of a stage that writes it on one output, given when it waits to be written, and then no more.
#[inline(always)]
pub fn take_waiting(waiting: &mut Option<u16>) -> Option<Group>
    ensures none { waiting.new ≡ None }
    ensures given { result ≡ option_map (λ output. AtHand (record { output = output; times = Only 1 })) waiting.old }
{
    match waiting.take() {
        Some(output) => Some(Group::at_hand(output)),
        None => None,
    }
}
