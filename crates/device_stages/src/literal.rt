use pipe_model::{NoMemory, Rec};
use stage_steps::{Group, Listed, Lists, Order};
use std::alloc::Global;

/// What LITERAL is still to write.
#[derive(Clone, Copy)]
enum Due {
    Nothing,
    Text,
    AtHand,
}

/// LITERAL: its text before the first record, and then each record, on output 0.
#[derive(Drop)]
pub struct Literals {
    text: Rec,
    due: Due,
}

impl Literals {
    ghost use Rattle.std.specs.Prelude.{IfOk};
    ghost use Rattle.pipe_model.specs.declared.kind.Kind.TheVariants.{Literal};
    ghost use Rattle.stage_steps.specs.Drivers.{IsStageOf};
    ghost use Rattle.device_stages.specs.DeviceLists.{LiteralsStand, literals_look};

    // LITERAL of this text.
    pub(crate) fn stage(
        alloc: Global,
        text: &Rec,
        outputs: &[bool],
    ) -> Result<Listed<Literals>, NoMemory>
        ensures { IfOk result (IsStageOf LiteralsStand literals_look (Literal text.now) outputs.now) }
    {
        let literals = Literals {
            text: text.copy(alloc)?,
            due: Due::Nothing,
        };
        Listed::new(alloc, literals, Order::WritesFirst, outputs, false)
    }
}

impl Lists for Literals {
    ghost use Rattle.std.specs.Prelude.{Some};
    ghost use Rattle.device_stages.specs.DeviceLists.{LiteralsStand, literals_look, due_count};

    ghost stands = { LiteralsStand };

    ghost is_looking = { literals_look };

    ghost made = { λ x. Some x.text };

    ghost left = { λ x. due_count x.due };

    fn begin(&mut self) {
        self.due = Due::Text;
    }

    #[inline(always)]
    fn see(&mut self, _alloc: Global, _bytes: &[u8]) -> Result<(), NoMemory> {
        self.due = Due::AtHand;
        Ok(())
    }

    fn end(&mut self, _alloc: Global) -> Result<(), NoMemory> {
        Ok(())
    }

    #[inline(always)]
    fn next(&mut self, _alloc: Global) -> Result<Option<Group>, NoMemory> {
        let group = match self.due {
            Due::Nothing => None,
            Due::Text => Some(Group::New(0)),
            Due::AtHand => Some(Group::at_hand(0)),
        };
        self.due = Due::Nothing;
        Ok(group)
    }

    fn hand_over(&mut self, alloc: Global) -> Result<Rec, NoMemory> {
        self.text.copy(alloc)
    }

    #[inline(always)]
    fn is_spent(&self) -> bool {
        matches!(self.due, Due::Nothing)
    }

    #[inline(always)]
    fn halts(&self) -> bool {
        false
    }

    #[inline(always)]
    fn stops(&self) -> bool {
        false
    }

    #[inline(always)]
    fn code(&self) -> i32 {
        0
    }

    fn looks(&self) -> bool {
        false
    }
}
