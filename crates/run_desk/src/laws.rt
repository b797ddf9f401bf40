ghost use Rattle.std.specs.Prelude.{◌≡◌, ◌⊎◌, ℕ, ℤ, pos, negsuc, List, Some};
ghost use Rattle.std.specs.Option.{option_map};
ghost use Rattle.pipe_model.specs.declared.net.Net.{Net};
ghost use Rattle.pipe_model.specs.declared.net.Strand.{Strand};
ghost use Rattle.pipe_model.specs.Event.Want.{Commit};
ghost use Rattle.pipe_model.specs.Next.{IsOwn};
ghost use Rattle.pipe_model.specs.State.{Who, State, past, strand_at};
ghost use Rattle.pipe_model.specs.Licence.{Left, licence, want_at};
ghost use Rattle.pipe_model.specs.WellFormed.{IsWellFormed};
ghost use Rattle.run_desk.specs.Desk.{DeskState};
ghost use Rattle.run_desk.specs.Standing.{DeskStands};
ghost use Rattle.stage_steps.specs.Coroutine.{told};
ghost use Rattle.run_desk.specs.Telling as Telling;

/// A desk that stands for a state tells each strand, on each stream, what the event would that may happen there, and
/// nothing where none may.
pub fn tells_the_licence()
    ensures { (net : Net) (texts : ℕ → List ℕ) (st : State) (left : Left) (desk : DeskState) → IsWellFormed net → DeskStands net texts st left desk →
        (s : Who) (k : ℕ) → Telling.seen_at desk s k ≡ option_map told (licence net st left s k) }
{}

/// Where each strand has its own history, no strand wants another commit level than -1 and 0. So what the relation of a
/// desk to a state asks of them, that they are commit levels, holds up nothing.
pub fn wants_early_levels()
    ensures { (net : Net) (st : State) (left : Left) → ((s : Who) (strand : Strand) → strand_at net st s ≡ Some strand → IsOwn strand (past st s)) →
        (s : Who) (level : ℤ) → want_at net st left s ≡ Some (Commit level) → (level ≡ negsuc 0) ⊎ (level ≡ pos 0) }
{}
