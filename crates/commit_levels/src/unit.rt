ghost use Rattle.std.specs.Prelude.{◌≡◌, ◌<◌, ◌≤◌, ◌^◌, ◌-◌, ℕ, length, Some, None, IfOk, slice_get};
ghost use Rattle.std.specs.Option.{option_map};
ghost use Rattle.commit_levels.specs.UnitState.{Member, IsLevel, IsLive, IsAt, level_count, progress_at, new_unit, asked_by, reached_by, ended_by, answer};
ghost use Rattle.commit_levels.specs.Kept.{closed_level};
ghost use Rattle.commit_levels.specs.declared.member.Progress.TheVariants.{NotAsked, Asked};

use crate::levels::{level_count, place_of};
use crate::member::{MemberState, Progress};
use pipe_model::{NoMemory, worst};
use std::alloc::Global;
use std::marker::Model;

// What is kept of a level: how many members stand there, and the worst code of those that ended early.
#[derive(Clone, Copy, Debug)]
struct Level {
    standing: u32,
    worst: i32,
}

impl Level {
    // The level after a member ended with this code, which was so far there.
    fn closed(self, progress: Progress, code: i32) -> Level
        requires { progress ≡ NotAsked → self.standing < 2 ^ 32 - 1 }
        ensures { result ≡ closed_level progress code self }
    {
        let standing = match progress {
            Progress::NotAsked => self.standing + 1,
            Progress::Asked | Progress::Reached => self.standing,
        };
        let worst = match progress {
            Progress::NotAsked | Progress::Asked => worst(code, self.worst),
            Progress::Reached => self.worst,
        };
        Level { standing, worst }
    }
}

/// The members of a unit, and how far each is at each commit level.
#[derive(Debug, Drop)]
pub struct Unit {
    members: Vec<MemberState>,
    levels: Vec<Level>,
}

impl Model for Unit {
    ghost use Rattle.std.specs.Prelude.{List};
    ghost use Rattle.commit_levels.specs.UnitState.{Member};
    ghost use Rattle.commit_levels.specs.Kept.{IsKept};

    ghost Value = { List Member };

    ghost view = { λ u. u.members.items };

    ghost invariant = { λ u. IsKept u.members.items u.levels.items };
}

impl Unit {
    /// A unit of this many members, none of which has asked for a level. It is the only call that takes memory,
    /// about a thousand bytes a member.
    pub fn new(alloc: Global, members: u32) -> Result<Unit, NoMemory>
        ensures { IfOk result (λ unit. unit ≡ new_unit members) }
    {
        let mut list = Vec::new(alloc);
        for _ in 0..members {
            list.push(MemberState::new(alloc)?)?;
        }
        let empty = Level {
            standing: 0,
            worst: 0,
        };
        Ok(Unit {
            members: list,
            levels: vec![in alloc; empty; level_count()]?,
        })
    }

    /// A member asks for a level, from -1 to 1,000: it wants to go on once all stand there. Members count from 0.
    /// A member that has ended asks for nothing, and no member asks for a level twice.
    pub fn ask(&mut self, member: u32, level: i32)
        requires member { member < length self.old }
        requires live { IsLive self.old member }
        requires level { IsLevel level }
        requires first { IsAt self.old member level NotAsked }
        ensures { self.new ≡ asked_by self.old member level }
    {
        let place = place_of(level);
        self.members[member as usize].go(place, Progress::Asked);
        self.levels[place].standing += 1;
    }

    /// A member reaches the level that it asked for. Its code counts no more for that level when it ends.
    pub fn reach(&mut self, member: u32, level: i32)
        requires member { member < length self.old }
        requires live { IsLive self.old member }
        requires level { IsLevel level }
        requires asked { IsAt self.old member level Asked }
        ensures { self.new ≡ reached_by self.old member level }
    {
        self.members[member as usize].go(place_of(level), Progress::Reached);
    }

    /// A member ends with this code. It costs a step for each level.
    pub fn ended(&mut self, member: u32, code: i32)
        requires member { member < length self.old }
        requires live { IsLive self.old member }
        ensures { self.new ≡ ended_by self.old member code }
    {
        let member = &mut self.members[member as usize];
        close(&mut self.levels, member, code);
        member.end(code);
    }

    /// The code with which a member ended, and none before.
    pub fn end_of(&self, member: u32) -> Option<i32>
        requires { member < length self.now }
        ensures { (m : Member) → slice_get self.now member ≡ Some m → result ≡ m.ended }
    {
        self.members[member as usize].end_code()
    }

    /// The answer of a level, from -1 to 1,000: none while a member doesn't stand there, and then the worst code of
    /// those that ended without having reached it.
    pub fn answer(&self, level: i32) -> Option<i32>
        requires { IsLevel level }
        ensures { result ≡ answer self.now level }
    {
        let level = self.levels[place_of(level)];
        if level.standing as usize == self.members.len() {
            Some(level.worst)
        } else {
            None
        }
    }
}

// The levels after a member ended with this code.
fn close(levels: &mut [Level], member: &MemberState, code: i32)
    requires places { length levels.old ≡ level_count }
    requires room { (place : ℕ) → (level : Level) → slice_get levels.old place ≡ Some level →
        progress_at place member.now ≡ NotAsked → level.standing < 2 ^ 32 - 1 }
    ensures { (place : ℕ) → slice_get levels.new place ≡
        option_map (closed_level (progress_at place member.now) code) (slice_get levels.old place) }
{
    for place in 0..levels.len() {
        levels[place] = levels[place].closed(member.progress(place), code);
    }
}
