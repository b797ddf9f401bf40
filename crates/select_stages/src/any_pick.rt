ghost use Rattle.std.specs.Prelude.{◌≡◌};
ghost use Rattle.pipe_model.specs.Members.{flag_at};

use crate::between::Encloses;
use crate::find::Finds;
use crate::label::Meets;
use crate::locate::Locates;
use crate::picks::{Picks, Rejects};
use crate::take::Takes;
use pipe_model::{Kind, NoMemory};
use stage_steps::Sought;
use std::alloc::Global;

/// One of the stages that put each record on one of two outputs. They are one stage to their driver, so that a further
/// one adds no driver to the loop that runs them.
#[derive(Drop)]
pub enum AnyPick {
    Locate(Locates),
    Nlocate(Rejects<Locates>),
    Find(Finds),
    Nfind(Rejects<Finds>),
    TakeFirst(Takes),
    DropFirst(Rejects<Takes>),
    /// BETWEEN or INSIDE.
    Between(Encloses),
    ToLabel(Rejects<Meets>),
    FrLabel(Meets),
}

// Whether output 1 is connected.
fn has_second(outputs: &[bool]) -> bool
    ensures { result ≡ flag_at outputs.now 1 }
{
    match outputs.get(1) {
        Some(flag) => *flag,
        None => false,
    }
}

impl AnyPick {
    ghost use Rattle.std.specs.Prelude.{◌≡◌, true, IfOk};
    ghost use Rattle.select_stages.specs.AnyPick.{is_pick, IsPickOf};

    // What a kind picks with these connected outputs, before the first record.
    pub(crate) fn new(alloc: Global, kind: &Kind, outputs: &[bool]) -> Result<AnyPick, NoMemory>
        requires { is_pick kind.now ≡ true }
        ensures { IfOk result (λ picks. IsPickOf picks kind.now outputs.now) }
    {
        match kind {
            Kind::Locate { range, text } => {
                let picks = Locates::new(alloc, *range, text)?;
                Ok(AnyPick::Locate(picks))
            }
            Kind::Nlocate { range, text } => {
                let picks = Locates::new(alloc, *range, text)?;
                Ok(AnyPick::Nlocate(Rejects { picks }))
            }
            Kind::Find { text } => {
                let picks = Finds::new(alloc, text)?;
                Ok(AnyPick::Find(picks))
            }
            Kind::Nfind { text } => {
                let picks = Finds::new(alloc, text)?;
                Ok(AnyPick::Nfind(Rejects { picks }))
            }
            Kind::TakeFirst(times) => {
                let picks = Takes::new(*times, !has_second(outputs));
                Ok(AnyPick::TakeFirst(picks))
            }
            Kind::DropFirst(times) => {
                let picks = Takes::new(*times, false);
                Ok(AnyPick::DropFirst(Rejects { picks }))
            }
            Kind::Between { first, second } => {
                let picks = Encloses::new(alloc, first, second, true)?;
                Ok(AnyPick::Between(picks))
            }
            Kind::Inside { first, second } => {
                let picks = Encloses::new(alloc, first, second, false)?;
                Ok(AnyPick::Between(picks))
            }
            Kind::ToLabel { text } => {
                let picks = Meets::new(alloc, text, !has_second(outputs))?;
                Ok(AnyPick::ToLabel(Rejects { picks }))
            }
            Kind::FrLabel { text } => {
                let picks = Meets::new(alloc, text, false)?;
                Ok(AnyPick::FrLabel(picks))
            }
            _ => unreachable!(),
        }
    }
}

impl Picks for AnyPick {
    ghost use Rattle.select_stages.specs.AnyPick.{AnyPicksStand, any_pick_looks};

    ghost stands = { AnyPicksStand };

    ghost is_looking = { any_pick_looks };

    #[inline(always)]
    fn pick(&mut self, bytes: &[u8]) -> bool {
        match self {
            AnyPick::Locate(picks) => picks.pick(bytes),
            AnyPick::Nlocate(picks) => picks.pick(bytes),
            AnyPick::Find(picks) => picks.pick(bytes),
            AnyPick::Nfind(picks) => picks.pick(bytes),
            AnyPick::TakeFirst(picks) => picks.pick(bytes),
            AnyPick::DropFirst(picks) => picks.pick(bytes),
            AnyPick::Between(picks) => picks.pick(bytes),
            AnyPick::ToLabel(picks) => picks.pick(bytes),
            AnyPick::FrLabel(picks) => picks.pick(bytes),
        }
    }

    #[inline(always)]
    fn awaits(&self) -> Option<&Sought> {
        match self {
            AnyPick::Locate(picks) => picks.awaits(),
            _ => None,
        }
    }

    #[inline(always)]
    fn halts(&self) -> bool {
        match self {
            AnyPick::Locate(picks) => picks.halts(),
            AnyPick::Nlocate(picks) => picks.halts(),
            AnyPick::Find(picks) => picks.halts(),
            AnyPick::Nfind(picks) => picks.halts(),
            AnyPick::TakeFirst(picks) => picks.halts(),
            AnyPick::DropFirst(picks) => picks.halts(),
            AnyPick::Between(picks) => picks.halts(),
            AnyPick::ToLabel(picks) => picks.halts(),
            AnyPick::FrLabel(picks) => picks.halts(),
        }
    }

    #[inline(always)]
    fn stops(&self) -> bool {
        match self {
            AnyPick::Locate(picks) => picks.stops(),
            AnyPick::Nlocate(picks) => picks.stops(),
            AnyPick::Find(picks) => picks.stops(),
            AnyPick::Nfind(picks) => picks.stops(),
            AnyPick::TakeFirst(picks) => picks.stops(),
            AnyPick::DropFirst(picks) => picks.stops(),
            AnyPick::Between(picks) => picks.stops(),
            AnyPick::ToLabel(picks) => picks.stops(),
            AnyPick::FrLabel(picks) => picks.stops(),
        }
    }

    fn looks(&self) -> bool {
        match self {
            AnyPick::Locate(picks) => picks.looks(),
            AnyPick::Nlocate(picks) => picks.looks(),
            AnyPick::Find(picks) => picks.looks(),
            AnyPick::Nfind(picks) => picks.looks(),
            AnyPick::TakeFirst(picks) => picks.looks(),
            AnyPick::DropFirst(picks) => picks.looks(),
            AnyPick::Between(picks) => picks.looks(),
            AnyPick::ToLabel(picks) => picks.looks(),
            AnyPick::FrLabel(picks) => picks.looks(),
        }
    }
}
