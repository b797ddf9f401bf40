//! What a turn does to the desk.
ghost use Rattle.std.specs.Prelude.{◌≡◌, ◌<◌, length, slice_get};
ghost use Rattle.run_desk.specs.Turns.{desk_after_turn, rest_after_turn, pool_after_turn, CanTurn, desk_without_ends, desk_after_end, CanForget, pool_without};
ghost use Rattle.commit_levels.specs.UnitState.{IsLive};
ghost use Rattle.run_desk.specs.Telling as Telling;

use crate::desk::Desk;
use crate::seat::change_seat;
use crate::sights::{forget, see_at};
use crate::wires::{close_ins, close_outs, settle_at, take_at, withdraw_at};
use pipe_model::Seen;
use record_pool::Pool;

impl Desk {
    /// What a turn does where a strand is told this: the strand is out then, and asks for nothing. It takes no memory.
    #[inline(always)]
    pub fn make(&mut self, pool: &mut Pool, strand: u32, seen: Seen)
        requires strand { strand < length self.old.seats }
        requires can { CanTurn self.old pool.old strand seen }
        ensures desk { self.new ≡ desk_after_turn self.old strand seen }
        ensures pool { pool.new ≡ pool_after_turn self.old pool.old strand seen }
    {
        self.move_on(pool, strand, seen);
        change_seat(&mut self.seats, strand, seen);
    }

    // The same, but for the seat.
    #[inline(always)]
    pub(crate) fn move_on(&mut self, pool: &mut Pool, strand: u32, seen: Seen)
        requires strand { strand < length self.old.seats }
        requires can { CanTurn self.old pool.old strand seen }
        ensures desk { self.new ≡ rest_after_turn self.old strand seen }
        ensures pool { pool.new ≡ pool_after_turn self.old pool.old strand seen }
    {
        match seen {
            Seen::Up(level, _) => self.unit.reach(strand, level),
            Seen::Saw(i) => {
                let door = self.in_door(strand, i);
                let sight = self.sight_door(strand, i);
                see_at(&self.wires, &mut self.sights, pool, door, sight);
            }
            Seen::Took(i) => {
                let door = self.in_door(strand, i);
                take_at(&mut self.wires, pool, door);
            }
            Seen::Put(o) => {
                let door = self.out_door(strand, o);
                settle_at(&mut self.wires, pool, door);
            }
            Seen::Refused(o) => {
                let door = self.out_door(strand, o);
                withdraw_at(&mut self.wires, pool, door);
            }
            Seen::Ended(code) => self.end(pool, strand, code),
            _ => {}
        }
    }

    #[cold]
    fn end(&mut self, pool: &mut Pool, strand: u32, code: i32)
        requires strand { strand < length self.old.seats }
        requires member { strand < length self.old.unit }
        requires live { IsLive self.old.unit strand }
        requires sights { CanForget (Telling.sights_of (slice_get self.old.doors strand)) self.old.sights pool.old }
        ensures desk { self.new ≡ desk_after_end self.old strand code }
        ensures pool { pool.new ≡ pool_without (Telling.sights_of (slice_get self.old.doors strand)) self.old.sights pool.old }
    {
        self.close(pool, strand);
        self.unit.ended(strand, code);
    }

    // The ends of the wires that the strand holds are closed, and what it saw is given back.
    fn close(&mut self, pool: &mut Pool, strand: u32)
        requires strand { strand < length self.old.seats }
        requires sights { CanForget (Telling.sights_of (slice_get self.old.doors strand)) self.old.sights pool.old }
        ensures desk { self.new ≡ desk_without_ends self.old strand }
        ensures pool { pool.new ≡ pool_without (Telling.sights_of (slice_get self.old.doors strand)) self.old.sights pool.old }
    {
        let doors = &self.doors[strand as usize];
        close_outs(&mut self.wires, doors.outputs());
        close_ins(&mut self.wires, doors.inputs());
        forget(&mut self.sights, pool, doors.inputs(), doors.first_sight);
    }
}
