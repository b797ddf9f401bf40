use pipe_model::{NoMemory, Rec};
use stage_steps::{Each, EachRecord, Group, Listed, Order, Sifted};
use std::alloc::Global;

/// HOLE: nothing for any record.
#[derive(Drop)]
pub struct Holes {}

impl Holes {
    ghost use Rattle.std.specs.Prelude.{IfOk};
    ghost use Rattle.pipe_model.specs.declared.kind.Kind.TheVariants.{Hole};
    ghost use Rattle.stage_steps.specs.Drivers.{IsStageOf};
    ghost use Rattle.stage_steps.specs.Each.{EachStand, each_look};
    ghost use Rattle.device_stages.specs.DeviceLists.{HolesStand, holes_look};

    // HOLE, which writes nothing.
    pub(crate) fn stage(alloc: Global, outputs: &[bool]) -> Result<Listed<Each<Holes>>, NoMemory>
        ensures { IfOk result (IsStageOf (EachStand HolesStand) (each_look holes_look) Hole outputs.now) }
    {
        let lists = Each { each: Holes {} };
        Listed::new(alloc, lists, Order::WritesFirst, outputs, false)
    }
}

impl EachRecord for Holes {
    ghost use Rattle.device_stages.specs.DeviceLists.{HolesStand, holes_look};

    ghost stands = { HolesStand };

    ghost is_looking = { holes_look };

    ghost left = { λ _. 0 };

    fn see(&mut self, _alloc: Global, _bytes: &[u8]) -> Result<(), NoMemory> {
        Ok(())
    }

    #[inline(always)]
    fn sift(&mut self, _alloc: Global, _bytes: &[u8]) -> Result<Sifted, NoMemory> {
        Ok(Sifted::Drops)
    }

    fn next(&mut self) -> Option<Group> {
        None
    }

    fn hand_over(&mut self, alloc: Global) -> Result<Rec, NoMemory> {
        Ok(Rec::from_vec(Vec::new(alloc)))
    }

    #[inline(always)]
    fn is_spent(&self) -> bool {
        true
    }

    fn looks(&self) -> bool {
        false
    }
}
