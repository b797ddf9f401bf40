ghost use Rattle.std.specs.Prelude.{◌≡◌, ◌++◌, IfOk};
ghost use Rattle.stage_steps.specs.Plans.{goal_of};
ghost use Rattle.fan_stages.specs.FanAny.{any_goal};

use crate::passing::Passing;
use pipe_model::{NoMemory, Out, Rec};
use stage_steps::{Act, Goal, Plans};
use std::alloc::Global;
use std::mem;

// What follows where a stage looks at any input, by whether all have ended.
#[inline(always)]
fn any_goal(all_ended: bool) -> Goal
    ensures { goal_of result ≡ any_goal all_ended }
{
    if all_ended { Goal::End(0) } else { Goal::Any }
}

/// FANINANY: each record of any input, on output 0.
#[derive(Drop)]
pub struct FansInAny {
    passing: Passing,
    /// All inputs have ended.
    all_ended: bool,
}

impl FansInAny {
    ghost use Rattle.pipe_model.specs.FanRows.{passed};
    ghost use Rattle.pipe_model.specs.Next.{nothing_known};
    ghost use Rattle.fan_stages.specs.FanAny.{any_plan, FansInAnyStand};

    // FANINANY before the first record.
    pub(crate) fn new() -> FansInAny
        ensures { FansInAnyStand result (any_plan passed) nothing_known (any_plan passed nothing_known) }
    {
        FansInAny {
            passing: Passing::Passed,
            all_ended: false,
        }
    }
}

impl Plans for FansInAny {
    ghost use Rattle.std.specs.Prelude.{false};
    ghost use Rattle.fan_stages.specs.FanAny.{FansInAnyStand};
    ghost use Rattle.fan_stages.specs.Passing.{passing_count};

    ghost stands = { FansInAnyStand };

    ghost is_looking = { λ _. false };

    ghost left = { λ x. passing_count x.passing };

    #[inline(always)]
    fn see(&mut self, _alloc: Global, input: u16, _bytes: &[u8]) -> Result<(), NoMemory> {
        self.passing = Passing::Writing(input);
        Ok(())
    }

    // Who looks at any input isn't told the end of one.
    fn end(&mut self, _alloc: Global, _input: u16) -> Result<(), NoMemory> {
        Ok(())
    }

    fn end_all(&mut self) {
        self.passing = Passing::Passed;
        self.all_ended = true;
    }

    fn prime(&mut self, _primed: bool) {}

    #[inline(always)]
    fn next(&mut self, _alloc: Global) -> Result<Option<Act>, NoMemory> {
        Ok(self.passing.next())
    }

    #[inline(always)]
    fn goal(&self) -> Goal {
        any_goal(self.all_ended)
    }

    fn looks(&self) -> bool {
        false
    }
}

/// JUXTAPOSE: each record of input 1 behind the last one of input 0, on output 0.
#[derive(Drop)]
pub struct Juxtaposes {
    /// The last record of input 0, empty before the first.
    prefix: Vec<u8>,
    /// The record that is to be written, where one is.
    new: Rec,
    passing: Passing,
    /// All inputs have ended.
    all_ended: bool,
}

// Two byte strings in one.
#[inline(always)]
fn in_one(alloc: Global, front: &[u8], rest: &[u8]) -> Result<Rec, NoMemory>
    ensures { IfOk result (λ rec. rec ≡ front.now ++ rest.now) }
{
    let mut bytes = Vec::with_capacity(alloc, front.len() + rest.len())?;
    bytes.extend_from_slice(front)?;
    bytes.extend_from_slice(rest)?;
    Ok(Rec::from_vec(bytes))
}

impl Juxtaposes {
    ghost use Rattle.pipe_model.specs.FanRows.{juxtaposed};
    ghost use Rattle.pipe_model.specs.Next.{nothing_known};
    ghost use Rattle.fan_stages.specs.FanAny.{any_plan, JuxtaposesStand};

    // JUXTAPOSE before the first record.
    pub(crate) fn new(alloc: Global) -> Juxtaposes
        ensures { JuxtaposesStand result (any_plan juxtaposed) nothing_known (any_plan juxtaposed nothing_known) }
    {
        Juxtaposes {
            prefix: Vec::new(alloc),
            new: Rec::from_vec(Vec::new(alloc)),
            passing: Passing::Passed,
            all_ended: false,
        }
    }
}

impl Plans for Juxtaposes {
    ghost use Rattle.std.specs.Prelude.{true};
    ghost use Rattle.fan_stages.specs.FanAny.{JuxtaposesStand};
    ghost use Rattle.fan_stages.specs.Passing.{passing_count};

    ghost stands = { JuxtaposesStand };

    ghost is_looking = { λ _. true };

    ghost left = { λ x. passing_count x.passing };

    #[inline(always)]
    fn see(&mut self, alloc: Global, input: u16, bytes: &[u8]) -> Result<(), NoMemory> {
        if input == 0 {
            self.prefix.clear();
            self.prefix.extend_from_slice(bytes)?;
            self.passing = Passing::Taking(input);
        } else {
            self.new = in_one(alloc, self.prefix.as_slice(), bytes)?;
            self.passing = Passing::Writing(input);
        }
        Ok(())
    }

    // Who looks at any input isn't told the end of one.
    fn end(&mut self, _alloc: Global, _input: u16) -> Result<(), NoMemory> {
        Ok(())
    }

    fn end_all(&mut self) {
        self.passing = Passing::Passed;
        self.all_ended = true;
    }

    fn prime(&mut self, _primed: bool) {}

    #[inline(always)]
    fn next(&mut self, alloc: Global) -> Result<Option<Act>, NoMemory> {
        match self.passing {
            Passing::Writing(input) => {
                self.passing = Passing::Taking(input);
                let new = mem::replace(&mut self.new, Rec::from_vec(Vec::new(alloc)));
                Ok(Some(Act::Write(0, Out::Fresh(new))))
            }
            Passing::Taking(input) => {
                self.passing = Passing::Passed;
                Ok(Some(Act::Take(input)))
            }
            Passing::Passed => Ok(None),
        }
    }

    #[inline(always)]
    fn goal(&self) -> Goal {
        any_goal(self.all_ended)
    }

    fn looks(&self) -> bool {
        true
    }
}
