ghost use Rattle.std.specs.Prelude.{false};

use crate::calls::{call, in_memory};
use outside::Gate;
use std::sync::atomic::{AtomicU64, Ordering};
use std::test::Fail;
use std::thread::yield_now;

// How often one that waits at the gate lets others run, at most.
const TURNS: u32 = 1_000_000;

// Whether so many came before the turns were over.
fn have_come(came: &AtomicU64, many: u64) -> bool {
    for _ in 0..TURNS {
        if came.load(Ordering::SeqCst) >= many {
            return true;
        }
        yield_now();
    }
    false
}

// A gate that holds strand 1 until strand 4 came to it, and strand 4 until strand 1 did.
#[derive(Drop)]
struct Crossing {
    first: AtomicU64,
    second: AtomicU64,
    given_up: AtomicU64,
}

impl Crossing {
    fn hold(&self, own: &AtomicU64, other: &AtomicU64) {
        own.store(1, Ordering::SeqCst);
        if !have_come(other, 1) {
            self.given_up.store(1, Ordering::SeqCst);
        }
    }
}

impl Gate for Crossing {
    ghost is_open = { λ _. false };

    fn enter(&self, strand: u32) {
        match strand {
            1 => self.hold(&self.first, &self.second),
            4 => self.hold(&self.second, &self.first),
            _ => {}
        }
    }

    fn is_open(&self) -> bool {
        false
    }
}

// Two pipelines; the LOCATEs are strands 1 and 4.
const BESIDE: &str = "(endchar ?) literal a | locate /a/ | hole ? literal b | locate /b/ | hole";

// Both come to the gate, and each while the other one is held.
#[test]
fn two_workers_work_on_two_strands_at_once(rt: HostRuntime) -> Result<(), Fail> {
    let gate = Crossing {
        first: AtomicU64::new(0),
        second: AtomicU64::new(0),
        given_up: AtomicU64::new(0),
    };
    let mut around = in_memory(rt.alloc(), b"", 1)?;
    let words = [BESIDE, "--workers", "2"];
    assert_eq!(rt; call(&rt, rt.alloc(), &words, &mut around, &gate)?, 0);
    assert_eq!(rt; gate.first.load(Ordering::SeqCst), 1);
    assert_eq!(rt; gate.second.load(Ordering::SeqCst), 1);
    assert_eq!(rt; gate.given_up.load(Ordering::SeqCst), 0);
    Ok(())
}

// A gate that counts who comes to a strand 1, and holds the first of them until a second comes.
#[derive(Drop)]
struct Meeting {
    came: AtomicU64,
    given_up: AtomicU64,
}

impl Gate for Meeting {
    ghost is_open = { λ _. false };

    fn enter(&self, strand: u32) {
        if strand == 1
            && self.came.fetch_add(1, Ordering::SeqCst) == 0
            && !have_come(&self.came, 2)
        {
            self.given_up.store(1, Ordering::SeqCst);
        }
    }

    fn is_open(&self) -> bool {
        false
    }
}

// Two sets; the LOCATE of each is its strand 1.
const SETS: &[u8] = b"literal a | locate /a/ | hole\nliteral b | locate /b/ | hole\n";

// The LOCATE of one set is held at the gate until that of the other comes.
#[test]
fn two_workers_work_on_two_sets_at_once(rt: HostRuntime) -> Result<(), Fail> {
    let gate = Meeting {
        came: AtomicU64::new(0),
        given_up: AtomicU64::new(0),
    };
    let mut around = in_memory(rt.alloc(), b"", 1)?;
    around.shelf.preset(b"sets", SETS)?;
    let words = ["--sets", "sets", "--workers", "2"];
    assert_eq!(rt; call(&rt, rt.alloc(), &words, &mut around, &gate)?, 0);
    assert_eq!(rt; gate.came.load(Ordering::SeqCst), 2);
    assert_eq!(rt; gate.given_up.load(Ordering::SeqCst), 0);
    Ok(())
}
