use core_machine::Core;
use stage_steps::Stage;
use std::alloc::Global;
use std::marker::Model;

/// A core in a box: to take it and to give it back moves a pointer, and not the core.
#[derive(Drop)]
pub struct CoreBox<S: Stage> {
    pub(crate) core: Box<Core<S>>,
}

impl<S: Stage> Model for CoreBox<S> {
    ghost use Rattle.core_machine.specs.Machine.{Machine};

    ghost Value = { Machine };

    ghost view = { λ b. b.core.value };
}

impl<S: Stage> CoreBox<S> {
    ghost use Rattle.std.specs.Prelude.{◌≡◌, MatchResult};

    /// Want of memory hands the core back.
    pub(crate) fn new(alloc: Global, core: Core<S>) -> Result<CoreBox<S>, Core<S>>
        ensures { MatchResult result (λ kept. kept ≡ core) (λ back. back ≡ core) }
    {
        match Box::new(alloc, core) {
            Ok(core) => Ok(CoreBox { core }),
            Err(lacking) => Err(lacking.value),
        }
    }

    pub(crate) fn into_core(self) -> Core<S>
        ensures { result ≡ self }
    {
        let CoreBox { core } = self;
        Box::into_inner(core)
    }
}
