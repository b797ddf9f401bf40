ghost use Rattle.std.specs.Prelude.{◌≡◌, ℤ, List, ◌∷◌, false, Option};
ghost use Rattle.pipe_model.specs.declared.net.Net.{Net};
ghost use Rattle.pipe_model.specs.Event.{Event, Want, has_reached};
ghost use Rattle.pipe_model.specs.Event.Event.{Up, Ended};
ghost use Rattle.pipe_model.specs.Event.Want.{Commit};
ghost use Rattle.pipe_model.specs.Licence.{Left, level_of};
ghost use Rattle.pipe_model.specs.State.{Who, State};
ghost use Rattle.commit_levels.specs.UnitState.{Member, IsLevel, answer, moved, ended_with, place_of};
ghost use Rattle.commit_levels.specs.Licensed.{AreStrands, IsStrand, WantsNoLevel};
ghost use Rattle.commit_levels.specs.declared.member.Progress.TheVariants.{Asked, Reached};

/// A unit whose members are the strands of a net, by their numbers, answers a level as the licence of each strand says.
pub fn answers_as_licensed()
    ensures { (net : Net) → (st : State) → (left : Left) → (s : Who) → (unit : List Member) → (level : ℤ) →
        IsLevel level → AreStrands net st left unit →
        answer unit level ≡ level_of net st left s level }
{}

/// A member stays the strand that it is, where a call is made for each want of a level, each level reached and
/// each end.
pub fn members_stay_strands()
    ensures asks { (h : List Event) → (m : Member) → (level : ℤ) → IsLevel level → (want : Option Want) →
        WantsNoLevel want → has_reached level h ≡ false → IsStrand h want m →
        IsStrand h (Some (Commit level)) (moved (place_of level) Asked m) }
    ensures reaches { (h : List Event) → (m : Member) → (level : ℤ) → IsLevel level → (code : ℤ) →
        (next : Option Want) → WantsNoLevel next → IsStrand h (Some (Commit level)) m →
        IsStrand (Up level code ∷ h) next (moved (place_of level) Reached m) }
    ensures ends { (h : List Event) → (m : Member) → (code : ℤ) → (want : Option Want) → (next : Option Want) →
        WantsNoLevel want → WantsNoLevel next → IsStrand h want m →
        IsStrand (Ended code ∷ h) next (ended_with code m) }
{}
