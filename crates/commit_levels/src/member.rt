ghost use Rattle.std.specs.Prelude.{◌≡◌, ◌<◌, length, IfOk};
ghost use Rattle.commit_levels.specs.UnitState.{level_count, new_member, progress_at, moved, ended_with};

use crate::levels::level_count;
use pipe_model::NoMemory;
use std::alloc::Global;
use std::marker::Model;

/// How far a member is at one commit level.
#[derive(Clone, Copy, Debug, PartialEq, Eq)]
pub enum Progress {
    NotAsked,
    Asked,
    Reached,
}

/// A member of a unit: how far it is at each level, the lowest first, and the code with which it ended.
#[derive(Debug, Drop)]
pub struct MemberState {
    progress: Vec<Progress>,
    ended: Option<i32>,
}

impl Model for MemberState {
    ghost use Rattle.std.specs.Prelude.{◌≡◌, length};
    ghost use Rattle.commit_levels.specs.UnitState.{Member, level_count};

    ghost Value = { Member };

    ghost view = { λ m. record { progress = m.progress.items; ended = m.ended } };

    ghost invariant = { λ m. length m.progress.items ≡ level_count };
}

impl MemberState {
    /// A member that has asked for nothing.
    pub fn new(alloc: Global) -> Result<MemberState, NoMemory>
        ensures { IfOk result (λ m. m ≡ new_member) }
    {
        Ok(MemberState {
            progress: vec![in alloc; Progress::NotAsked; level_count()]?,
            ended: None,
        })
    }

    /// How far it is at the level of this place.
    pub fn progress(&self, place: usize) -> Progress
        requires { place < level_count }
        ensures { result ≡ progress_at place self.now }
    {
        self.progress[place]
    }

    /// The code with which it ended, if it has.
    pub fn end_code(&self) -> Option<i32>
        ensures { result ≡ self.now.ended }
    {
        self.ended
    }

    /// Goes on to this progress at the level of this place.
    pub fn go(&mut self, place: usize, progress: Progress)
        requires { place < level_count }
        ensures after { self.new ≡ moved place progress self.old }
        ensures places { length self.old.progress ≡ level_count }
    {
        self.progress[place] = progress;
    }

    /// Ends with this code.
    pub fn end(&mut self, code: i32)
        ensures { self.new ≡ ended_with code self.old }
    {
        self.ended = Some(code);
    }
}
