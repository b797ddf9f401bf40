//! A coroutine that wants memory in mid-run breaks the core, with the entries made so far.
ghost use Rattle.std.specs.Prelude.{◌≡◌, [], false, map, IfOk};
ghost use Rattle.pipe_model.specs.WellFormed.{IsWellFormed};
ghost use Rattle.core_machine.specs.Start.{AreFresh};

use core_machine::{Core, Turned};
use net_graph::build;
use outside::OpenGate;
use pipe_model::{Net, NoMemory, Seen, Want};
use spec_scanner::scan;
use stage_steps::Stage;
use stage_table::{BuiltIn, make_all};
use std::alloc::Global;
use std::test::Fail;
use workers::{drive, drive_kept};

// A built-in stage that goes on so many times, and wants memory then.
#[derive(Drop)]
struct Refusing {
    stage: BuiltIn,
    left: u32,
}

impl Stage for Refusing {
    ghost use Rattle.stage_table.specs.BuiltIn.{BuiltInStands};

    ghost stands = { λ x s h. BuiltInStands x.stage s h };

    fn first(&self) -> Want {
        self.stage.first()
    }

    fn resume(&mut self, alloc: Global, seen: Seen, bytes: &[u8]) -> Result<Want, NoMemory> {
        if self.left == 0 {
            return Err(NoMemory);
        }
        self.left -= 1;
        self.stage.resume(alloc, seen, bytes)
    }

    fn looks(&self) -> bool {
        self.stage.looks()
    }

    fn kept(&self) -> &[u8] {
        self.stage.kept()
    }

    fn shown(&self) -> &[u8] {
        &[]
    }

    fn text_ahead(&self) -> &[u8] {
        &[]
    }
}

// Each of these stages in a wrapping, of which the second one refuses its third event.
fn wrapped(alloc: Global, stages: Vec<BuiltIn>) -> Result<Vec<Refusing>, NoMemory>
    ensures { IfOk result (λ wrapped. map (λ x. x.stage) wrapped.items ≡ stages.items) }
{
    let mut wrapped = Vec::new(alloc);
    for stage in stages {
        let left = if wrapped.len() == 1 { 2 } else { u32::MAX };
        wrapped.push(Refusing { stage, left })?;
    }
    Ok(wrapped)
}

// Such stages of a net, each before its first event.
fn fresh_stages(alloc: Global, net: &Net) -> Result<Vec<Refusing>, NoMemory>
    requires { IsWellFormed net.now }
    ensures { IfOk result (λ stages. AreFresh ⟦<Refusing as Stage>⟧.stands net.now.strands stages.items) }
{
    let made = make_all(alloc, net)?;
    let stages = wrapped(alloc, made)?;
    Ok(stages)
}

// A literal's record goes to a CONSOLE, which refuses its third event.
fn refusing_core(alloc: Global) -> Result<Core<Refusing>, NoMemory>
    ensures home { IfOk result (λ core. core.out ≡ []) }
    ensures whole { IfOk result (λ core. core.is_broken ≡ false) }
{
    let Ok(scanned) = scan(alloc, b"literal a | console") else {
        return Err(NoMemory);
    };
    let Ok(net) = build(alloc, scanned) else {
        return Err(NoMemory);
    };
    let stages = fresh_stages(alloc, &net)?;
    Core::start(alloc, net, stages, 11)
}

// The CONSOLE has had two levels up, and would see the record: that is the fifth entry.
#[test]
fn a_coroutine_that_wants_memory_breaks_the_core(rt: HostRuntime) -> Result<(), Fail> {
    let alloc = rt.alloc();
    let mut core = refusing_core(alloc)?;
    assert!(rt; core.run_one_thread(alloc, &OpenGate).is_err());
    assert_eq!(rt;
        (core.len(), core.out_count(), core.is_broken()),
        (5, 1, true)
    );
    let mut room = Vec::new(alloc);
    assert!(rt; matches!(core.turn(0, 0, &mut room), Turned::Broken));
    Ok(())
}

#[test]
fn workers_hand_back_a_core_that_wanted_memory(rt: HostRuntime) -> Result<(), Fail> {
    let alloc = rt.alloc();
    let (core, end) = drive_kept(&rt, alloc, refusing_core(alloc)?, 1, &OpenGate);
    assert_eq!(rt;
        (end, core.len(), core.out_count(), core.is_broken()),
        (None, 5, 1, true)
    );
    let (core, end) = drive_kept(&rt, alloc, refusing_core(alloc)?, 4, &OpenGate);
    assert_eq!(rt; (end, core.is_broken()), (None, true));
    assert!(rt; drive(&rt, alloc, refusing_core(alloc)?, 4, &OpenGate).is_err());
    Ok(())
}
