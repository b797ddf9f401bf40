//! How those wait who have nothing to do.
use crate::board::Board;
use stage_steps::Stage;
use std::sync::Wait;
use std::sync::atomic::{AtomicU64, Ordering};
use std::thread::yield_now;
use std::time::Duration;

// At most so many watch at once; others sleep.
const MOST_WATCHERS: u64 = 3;

// How often one who watches looks: each look gives way to others, and takes a fifth of a microsecond or more.
const MOST_LOOKS: u32 = 128;

/// Where those watch and sleep who have nothing to do. Nothing is proved of it.
#[derive(Drop)]
pub(crate) struct Bell {
    // 1 once the work has ended, and 0 before.
    ended: AtomicU64,
    // How often it was rung.
    rings: AtomicU64,
    // The last ring that one who watches has answered.
    answered: AtomicU64,
    watchers: AtomicU64,
    sleepers: AtomicU64,
    // 1 where the steps made last ended before as many were made as might be, and 0 else. The holder of the slot alone
    // writes it.
    early: AtomicU64,
}

impl Bell {
    pub(crate) fn new() -> Bell {
        Bell {
            ended: AtomicU64::new(0),
            rings: AtomicU64::new(0),
            answered: AtomicU64::new(0),
            watchers: AtomicU64::new(0),
            sleepers: AtomicU64::new(0),
            early: AtomicU64::new(0),
        }
    }

    /// For the holder of the slot: steps were made, and maybe fewer than might be, as by the next no record is taken or put
    /// in no time.
    pub(crate) fn note_steps(&self, is_early: bool) {
        self.early.store(is_early as u64, Ordering::Relaxed);
    }

    /// For the holder of the slot: a job is handed out. Where it may take long, something may be left to do for one more.
    pub(crate) fn note_job(&self) {
        if self.early.load(Ordering::Relaxed) == 1 {
            self.early.store(0, Ordering::Relaxed);
            self.ring();
        }
    }

    // Who watches answers, and if nobody does, one who sleeps is woken.
    fn ring(&self) {
        let rings = self.rings.load(Ordering::Relaxed);
        self.rings.store(rings.wrapping_add(1), Ordering::SeqCst);
        if self.watchers.load(Ordering::SeqCst) == 0 && self.sleepers.load(Ordering::SeqCst) > 0 {
            self.rings.wake_one();
        }
    }

    /// Sleeps so many microseconds, or till it is rung for one that sleeps, and not at all once the work has ended.
    pub(crate) fn nap<R: Wait>(&self, rt: &R, micros: u64) {
        let rings = self.rings.load(Ordering::SeqCst) % (1 << 32);
        self.sleepers.fetch_add(1, Ordering::SeqCst);
        if self.ended.load(Ordering::SeqCst) == 0 {
            self.rings
                .park_timeout(rt, rings as u32, Duration::from_micros(micros));
        }
        self.sleepers.fetch_sub(1, Ordering::SeqCst);
    }

    fn end(&self) {
        self.ended.store(1, Ordering::SeqCst);
        self.wake_all();
    }

    fn wake_all(&self) {
        self.rings.fetch_add(1, Ordering::SeqCst);
        self.rings.wake_all();
    }

    // Whether it is rung while one watches for a limited time, and another doesn't answer. Where enough watch it isn't
    // waited for.
    fn hears(&self) -> bool {
        let others = self.watchers.fetch_add(1, Ordering::SeqCst);
        let heard = others < MOST_WATCHERS && self.watch();
        self.watchers.fetch_sub(1, Ordering::SeqCst);
        heard
    }

    fn watch(&self) -> bool {
        for _ in 0..MOST_LOOKS {
            let answered = self.answered.load(Ordering::Relaxed);
            let rings = self.rings.load(Ordering::Relaxed);
            if rings != answered
                && self
                    .answered
                    .compare_exchange(answered, rings, Ordering::SeqCst, Ordering::SeqCst)
                    .is_ok()
            {
                return true;
            }
            yield_now();
        }
        false
    }
}

impl<S: Stage> Board<S> {
    /// Waits where there is nothing to do: it watches for some microseconds whether something is left to do beside a job that
    /// another has, and answers whether it is. Else it sleeps so many microseconds, or less, and not at all once the work
    /// has ended.
    pub fn rest<R: Wait>(&self, rt: &R, micros: u64) -> bool {
        let heard = self.bell.hears();
        if !heard {
            self.bell.nap(rt, micros);
        }
        heard
    }

    /// Wakes all that sleep, as by one who leaves the work to them: each looks once more what there is to do.
    pub fn wake_rest(&self) {
        self.bell.wake_all();
    }

    /// Says that the work has ended: it wakes all that rest, and nobody sleeps there any more.
    pub fn end_rest(&self) {
        self.bell.end();
    }
}
