ghost use Rattle.std.specs.Prelude.{◌≡◌};
ghost use Rattle.std.specs.List.{list_any};
ghost use Rattle.stage_steps.specs.Group.{has_more};

use crate::group::Group;
use crate::plans::Act;
use pipe_model::{NoMemory, Seen, Times};
use std::alloc::Global;

/// The outputs of a strand: whether one is connected, and which of them are open.
#[derive(Drop)]
pub(crate) struct Outputs {
    connected: bool,
    flags: Vec<bool>,
}

impl Outputs {
    ghost use Rattle.std.specs.Prelude.{◌≡◌, List, IfOk};
    ghost use Rattle.std.specs.List.{list_any};
    ghost use Rattle.pipe_model.specs.Row.{Pair};
    ghost use Rattle.pipe_model.specs.Members.{flag_at};
    ghost use Rattle.stage_steps.specs.Group.{is_due};
    ghost use Rattle.stage_steps.specs.Outputs.{can_do, open_after, none_left};
    ghost use Rattle.stage_steps.specs.Plans.{act_of};

    // The connected outputs, all open.
    pub(crate) fn new(alloc: Global, flags: &[bool]) -> Result<Outputs, NoMemory>
        ensures connected { IfOk result (λ outputs. outputs.connected ≡ list_any (λ flag. flag) flags.now) }
        ensures flags { IfOk result (λ outputs. outputs.flags.items ≡ flags.now) }
    {
        Ok(Outputs {
            connected: is_any(flags),
            flags: Vec::from_slice(alloc, flags)?,
        })
    }

    // Whether this output is open.
    #[inline(always)]
    pub(crate) fn is_open(&self, output: u16) -> bool
        ensures { result ≡ flag_at self.now.flags.items output }
    {
        match self.flags.get(output as usize) {
            Some(flag) => *flag,
            None => false,
        }
    }

    // Whether the group writes something, and its output is open.
    #[inline(always)]
    pub(crate) fn takes(&self, group: Group) -> bool
        ensures { result ≡ is_due self.now.flags.items group }
    {
        match group {
            Group::AtHand(repeat) => self.is_open(repeat.output) && has_more(repeat.times),
            Group::New(output) => self.is_open(output),
        }
    }

    // Whether the act can be done: it takes a record, or its output is open.
    #[inline(always)]
    pub(crate) fn lets(&self, act: &Act) -> bool
        ensures { (seen : List Pair) → result ≡ can_do self.now.flags.items (act_of act.now seen) }
    {
        match act {
            Act::Write(output, _) => self.is_open(*output),
            Act::Take(_) => true,
        }
    }

    // Closes the output that an event refuses.
    #[inline(always)]
    pub(crate) fn note(&mut self, seen: Seen)
        ensures flags { self.new.flags.items ≡ open_after seen self.old.flags.items }
        ensures connected { self.new.connected ≡ self.old.connected }
    {
        if let Seen::Refused(output) = seen {
            self.close(output);
        }
    }

    fn close(&mut self, output: u16)
        ensures flags { self.new.flags.items ≡ open_after (Seen.Refused output) self.old.flags.items }
        ensures connected { self.new.connected ≡ self.old.connected }
    {
        let k = output as usize;
        if k < self.flags.len() {
            self.flags[k] = false;
        }
    }

    // Whether an output is connected, and none is open.
    pub(crate) fn none_left(&self) -> bool
        ensures { result ≡ none_left self.now.connected self.now.flags.items }
    {
        self.connected && !is_any(&self.flags)
    }
}

// Whether it is at least once.
#[inline(always)]
fn has_more(times: Times) -> bool
    ensures { result ≡ has_more times }
{
    match times {
        Times::Only(n) => n != 0,
        Times::All => true,
    }
}

// Whether a flag is true.
fn is_any(flags: &[bool]) -> bool
    ensures { result ≡ list_any (λ flag. flag) flags.now }
{
    flags.iter().any(|flag| *flag)
}
