ghost use Rattle.std.specs.Prelude.{false};

use crate::calls::{call, in_memory};
use outside::Gate;
use std::fs;
use std::rt::Files;
use std::sync::atomic::{AtomicU64, Ordering};
use std::test::Fail;

// The strands that entered a gate, as the digits of a number, and how many pages of memory the program had more at the last
// entry than at the one before.
#[derive(Drop)]
struct Entries {
    strands: AtomicU64,
    pages: AtomicU64,
    gained: AtomicU64,
}

impl Entries {
    fn new() -> Entries {
        Entries {
            strands: AtomicU64::new(0),
            pages: AtomicU64::new(0),
            gained: AtomicU64::new(0),
        }
    }

    fn add(&self, strand: u32, pages: u64) {
        let before = self.strands.load(Ordering::SeqCst);
        let after = before.wrapping_mul(10).wrapping_add(u64::from(strand));
        self.strands.store(after, Ordering::SeqCst);
        let last = self.pages.swap(pages, Ordering::SeqCst);
        self.gained
            .store(pages.saturating_sub(last), Ordering::SeqCst);
    }
}

// A gate that keeps its entries.
#[derive(Drop)]
struct Kept<'a, R> {
    rt: &'a R,
    entries: &'a Entries,
}

impl<R: Files + AllocGlobal> Gate for Kept<'_, R> {
    ghost is_open = { λ _. false };

    fn enter(&self, strand: u32) {
        self.entries.add(strand, pages(self.rt).unwrap_or(0));
    }

    fn is_open(&self) -> bool {
        false
    }
}

// How many pages of memory the program has, as the system tells it; none where it doesn't.
fn pages<R: Files + AllocGlobal>(rt: &R) -> Option<u64> {
    let text = fs::read_to_string(rt, "/proc/self/statm").ok()?;
    text.as_str().split(' ').next()?.parse().ok()
}

// LOCATE sees three records, the CONSOLE behind it the two of them that have a `b`, and the reading CONSOLE none.
#[test]
fn the_gate_is_entered_once_for_each_record_seen(rt: HostRuntime) -> Result<(), Fail> {
    let entries = Entries::new();
    let gate = Kept {
        rt: &rt,
        entries: &entries,
    };
    let mut around = in_memory(rt.alloc(), b"ab\ncd\nb", 2)?;
    let words = ["console | locate /b/ | console", "--workers", "1"];
    assert_eq!(rt; call(&rt, rt.alloc(), &words, &mut around, &gate)?, 0);
    assert_eq!(rt; around.output.written(), b"ab\nb\n".as_slice());
    assert_eq!(rt; entries.strands.load(Ordering::SeqCst), 12_112);
    Ok(())
}

// A record's length above 32 MiB, from which on malloc has each block from the system anew.
const LONG: usize = 34_603_008;

const PAGE: usize = 4096;

// REVERSE takes memory for a record that it makes, and HOLE takes none. So this memory is there when HOLE enters, and not yet
// when REVERSE does, unless one enters after its work.
#[test]
fn the_gate_is_entered_before_the_work_on_a_record(rt: HostRuntime) -> Result<(), Fail> {
    let entries = Entries::new();
    let gate = Kept {
        rt: &rt,
        entries: &entries,
    };
    let bytes: Vec<u8> = vec![in rt.alloc(); b'x'; LONG]?;
    let mut around = in_memory(rt.alloc(), &bytes, LONG)?;
    let words = ["console | reverse | hole", "--workers", "1"];
    assert_eq!(rt; call(&rt, rt.alloc(), &words, &mut around, &gate)?, 0);
    assert_eq!(rt; entries.strands.load(Ordering::SeqCst), 12);
    assert!(rt; entries.gained.load(Ordering::SeqCst) >= (LONG / PAGE) as u64);
    Ok(())
}
