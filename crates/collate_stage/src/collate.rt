ghost use Rattle.std.specs.Prelude.{◌≡◌};
ghost use Rattle.pipe_model.specs.Keys as Key;
ghost use Rattle.collate_stage.specs.Collation.{lone_master, compared, step_of, has_matched};

use crate::lane::{At, Lane};
use pipe_model::{NoMemory, Out, Range};
use stage_steps::{Act, Goal, Plans, is_less, is_same, part_of};
use std::alloc::Global;

/// What COLLATE is to do next.
#[derive(Clone, Copy)]
pub enum Step {
    /// To write the master and then the detail, the first that matches it, and to take that.
    WriteBoth,
    /// To write the detail, which matches the master, and to take it.
    WriteMatch,
    /// To write the master, which no detail matched, and to take it.
    WriteMaster,
    /// To write the detail, which no master matches, and to take it.
    WriteDetail,
    TakeMaster,
    TakeDetail,
    ReadMaster,
    ReadDetail,
    End,
}

/// COLLATE's plans: masters on input 0 and details on input 1, both in the order of their keys, are matched by those.
#[derive(Drop)]
pub struct Collate {
    of_master: Range,
    of_detail: Range,
    master: Lane,
    detail: Lane,
    /// A detail matched the master in sight.
    matched: bool,
    step: Step,
}

// What is to be done for a master that is over.
fn lone_master(matched: bool) -> Step
    ensures { result ≡ lone_master matched }
{
    if matched {
        Step::TakeMaster
    } else {
        Step::WriteMaster
    }
}

// What is to be done for a master and a detail in sight with these keys.
#[inline(always)]
fn compared(master: &[u8], detail: &[u8], matched: bool) -> Step
    ensures { result ≡ compared (Key.is_same master.now detail.now) (Key.is_less master.now detail.now) matched }
{
    if is_same(master, detail) {
        if matched {
            Step::WriteMatch
        } else {
            Step::WriteBoth
        }
    } else if is_less(master, detail) {
        lone_master(matched)
    } else {
        Step::WriteDetail
    }
}

// What is to be done next.
#[inline(always)]
fn step_of(master: &Lane, detail: &Lane, matched: bool) -> Step
    ensures { result ≡ step_of master.now detail.now matched }
{
    match (master.at, detail.at) {
        (At::Lacking, _) => Step::ReadMaster,
        (At::InSight | At::Ended, At::Lacking) => Step::ReadDetail,
        (At::InSight, At::InSight) => compared(&master.key, &detail.key, matched),
        (At::InSight, At::Ended) => lone_master(matched),
        (At::Ended, At::InSight) => Step::WriteDetail,
        (At::Ended, At::Ended) => Step::End,
    }
}

// Whether a detail has matched the master before the next one.
fn has_matched(step: Step, matched: bool) -> bool
    ensures { result ≡ has_matched step matched }
{
    match step {
        Step::WriteBoth => true,
        _ => matched,
    }
}

impl Collate {
    ghost use Rattle.std.specs.Prelude.{◌≡◌, IfOk};
    ghost use Rattle.pipe_model.specs.JoiningRows.{collating};
    ghost use Rattle.pipe_model.specs.Next.{nothing_known};
    ghost use Rattle.pipe_model.specs.Ranges.{part_of};
    ghost use Rattle.pipe_model.specs.Shape.{round_plan};
    ghost use Rattle.collate_stage.specs.Collation.{CollateIs, HearsOn, IsKeyed, IsEnded, step_of, has_matched};

    // COLLATE by these parts of masters and details, before its first event.
    pub(crate) fn new(alloc: Global, of_master: Range, of_detail: Range) -> Collate
        ensures { CollateIs result (round_plan 2 (collating of_master of_detail)) nothing_known (round_plan 2 (collating of_master of_detail) nothing_known) }
    {
        Collate {
            of_master,
            of_detail,
            master: Lane::new(alloc),
            detail: Lane::new(alloc),
            matched: false,
            step: Step::ReadMaster,
        }
    }

    // A record is in sight on an input.
    #[inline(always)]
    fn show(&mut self, input: u16, bytes: &[u8]) -> Result<(), NoMemory>
        ensures { IfOk result (λ _. HearsOn self.old self.new input (IsKeyed (part_of self.old.of_master bytes.now)) (IsKeyed (part_of self.old.of_detail bytes.now))) }
    {
        if input == 0 {
            self.master.show(part_of(self.of_master, bytes))
        } else {
            self.detail.show(part_of(self.of_detail, bytes))
        }
    }

    // An input has ended.
    fn end_on(&mut self, input: u16)
        ensures { HearsOn self.old self.new input IsEnded IsEnded }
    {
        if input == 0 {
            self.master.end();
        } else {
            self.detail.end();
        }
    }

    // Plans when an input was heard.
    fn go_on(&mut self)
        ensures of_master { self.new.of_master ≡ self.old.of_master }
        ensures of_detail { self.new.of_detail ≡ self.old.of_detail }
        ensures master { self.new.master ≡ self.old.master }
        ensures detail { self.new.detail ≡ self.old.detail }
        ensures step { self.new.step ≡ step_of self.old.master self.old.detail self.old.matched }
        ensures matched { self.new.matched ≡ has_matched (step_of self.old.master self.old.detail self.old.matched) self.old.matched }
    {
        self.step = step_of(&self.master, &self.detail, self.matched);
        self.matched = has_matched(self.step, self.matched);
    }
}

impl Plans for Collate {
    ghost use Rattle.std.specs.Prelude.{true};
    ghost use Rattle.collate_stage.specs.Collation.{CollateIs, collate_left};

    ghost stands = { CollateIs };

    ghost is_looking = { λ _. true };

    ghost left = { collate_left };

    fn see(&mut self, _alloc: Global, input: u16, bytes: &[u8]) -> Result<(), NoMemory> {
        self.show(input, bytes)?;
        self.go_on();
        Ok(())
    }

    fn end(&mut self, _alloc: Global, input: u16) -> Result<(), NoMemory> {
        self.end_on(input);
        self.go_on();
        Ok(())
    }

    // It never looks at any input.
    fn end_all(&mut self) {}

    // It never waits for the first of its stage.
    fn prime(&mut self, _primed: bool) {}

    fn next(&mut self, _alloc: Global) -> Result<Option<Act>, NoMemory> {
        match self.step {
            Step::WriteBoth => {
                self.step = Step::WriteMatch;
                Ok(Some(Act::Write(0, Out::Same(0))))
            }
            Step::WriteMatch => {
                self.step = Step::TakeDetail;
                Ok(Some(Act::Write(0, Out::Same(1))))
            }
            Step::WriteMaster => {
                self.step = Step::TakeMaster;
                Ok(Some(Act::Write(1, Out::Same(0))))
            }
            Step::WriteDetail => {
                self.step = Step::TakeDetail;
                Ok(Some(Act::Write(2, Out::Same(1))))
            }
            Step::TakeMaster => {
                self.master.take();
                self.matched = false;
                self.step = Step::ReadMaster;
                Ok(Some(Act::Take(0)))
            }
            Step::TakeDetail => {
                self.detail.take();
                self.step = Step::ReadDetail;
                Ok(Some(Act::Take(1)))
            }
            Step::ReadMaster | Step::ReadDetail | Step::End => Ok(None),
        }
    }

    fn goal(&self) -> Goal {
        match self.step {
            Step::WriteMaster | Step::TakeMaster | Step::ReadMaster => Goal::Read(0),
            Step::End => Goal::End(0),
            _ => Goal::Read(1),
        }
    }

    fn looks(&self) -> bool {
        true
    }
}
