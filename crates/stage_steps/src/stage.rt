ghost use Rattle.std.specs.Prelude.{◌≡◌, ℕ, true, false, List, [], IfOk, IfSome, Some};
ghost use Rattle.pipe_model.specs.declared.net.Strand.{Strand};
ghost use Rattle.pipe_model.specs.Event.{Event};
ghost use Rattle.pipe_model.specs.Next.{next};
ghost use Rattle.pipe_model.specs.Table.{form};
ghost use Rattle.stage_steps.specs.Awaits.{TakesWithout};
ghost use Rattle.stage_steps.specs.Coroutine.{meaning, last_seen, kept_by, CanResume, Resumes};
ghost use Rattle.stage_steps.specs.PassesOn.{PassesOn};
ghost use Rattle.stage_steps.specs.Replies.{CanSee, Replies};
ghost use Rattle.stage_steps.specs.Showings.{IsShowing, IsCutting};

use crate::reply::{Reply, leave};
use crate::strings::Sought;
use pipe_model::{NoMemory, Seen, Want};
use std::alloc::Global;

/// The sequential part of a stage, as a coroutine: it is told an event, and asks for the next.
pub trait Stage: Sized + Drop {
    /// The value stands for this history of this strand.
    ghost stands: { Self → Strand → List Event → Type 0 };

    /// The bytes of the record that it showed last.
    ghost showing: { Self → List ℕ } = { λ _. [] };

    /// The text that it shows, front by front.
    ghost ahead: { Self → List ℕ } = { λ _. [] };

    /// The first want of a fresh value.
    fn first(&self) -> Want
        ensures { (s : Strand) → stands self.now s [] → Some (meaning result (last_seen [])) ≡ next s [] };

    /// The want after an event that answers the last one, and after `Ended(code)` `Done(code)`. A write of `Same(i)` comes
    /// only after a record was seen on input i. `bytes` is the record where the event is a `Saw` and the stage looks, else
    /// empty. After want of memory the value isn't resumed again.
    fn resume(&mut self, alloc: Global, seen: Seen, bytes: &[u8]) -> Result<Want, NoMemory>
        requires { CanResume stands self.old seen bytes.now }
        ensures { IfOk result (λ asked. Resumes stands self.old self.new seen bytes.now asked) };

    /// Tells it that it saw a record on input 0, as `resume` by `Saw(0)` does, and where it takes that, all at once, that the
    /// record was taken. Otherwise what it wants is left in `asked`, which may hold anything else, and after want of memory.
    #[inline(always)]
    fn see(&mut self, alloc: Global, bytes: &[u8], asked: &mut Want) -> Result<Reply, NoMemory>
        requires { CanSee stands self.old 0 bytes.now }
        ensures { IfOk result (λ reply. Replies stands self.old self.new bytes.now asked.new reply) }
    {
        let want = self.resume(alloc, Seen::Saw(0), bytes)?;
        leave(asked, want);
        if self.passes() {
            Ok(Reply::Passes)
        } else {
            Ok(Reply::Asks)
        }
    }

    /// Tells it that the record which it wrote on an output was put, as `resume` by `Put(o)` does, and leaves what it wants
    /// then in `asked`, which may hold anything after want of memory.
    #[inline(never)]
    fn put(&mut self, alloc: Global, o: u16, asked: &mut Want) -> Result<(), NoMemory>
        requires { CanResume stands self.old (Seen.Put o) [] }
        ensures { IfOk result (λ _. Resumes stands self.old self.new (Seen.Put o) [] asked.new) }
    {
        let want = self.resume(alloc, Seen::Put(o), &[])?;
        leave(asked, want);
        Ok(())
    }

    /// Where it wants, once the record was put that it wrote on an output, to write a new one of at most 256 bytes there, it may
    /// be told that this was put, and show the new one; else nothing changes. It takes no memory. The answer may always be
    /// `false`.
    #[inline(always)]
    fn show(&mut self, _o: u16) -> bool
        requires { CanResume stands self.old (Seen.Put _o) [] }
        ensures shows { IsShowing stands showing self.old self.new _o result }
        ensures cuts { IsCutting ahead showing self.old self.new result }
    {
        false
    }

    /// The bytes of the record that it showed last, and none where it never shows one.
    fn shown(&self) -> &[u8]
        ensures { result.now ≡ showing self.now };

    /// The text of which it shows the front next, and nothing where it never shows any.
    fn text_ahead(&self) -> &[u8]
        ensures { result.now ≡ ahead self.now };

    /// A string without which it takes a record of input 0 as it sees it, and is then as before. The answer may always be `None`.
    fn awaits(&self) -> Option<&Sought>
        ensures { IfSome result (λ string. TakesWithout stands self.now string.now) }
    {
        None
    }

    /// Whether it passes on the record that it saw last: once it has put one it takes the record of input 0, and once it took
    /// that it looks at the next one there. It needn't be told of these two events then, and may be told of them all the
    /// same. The answer may always be `false`.
    fn passes(&mut self) -> bool
        ensures same { (s : Strand) (h : List Event) → stands self.old s h → stands self.new s h }
        ensures passes { result ≡ true → PassesOn stands self.new }
    {
        false
    }

    /// Whether it is given the bytes of the records that it sees: where the stage table says that it looks.
    fn looks(&self) -> bool
        ensures { (s : Strand) (h : List Event) → stands self.now s h → result ≡ (form s).looks };

    /// The text of the records taken, where the stage keeps it, else nothing.
    fn kept(&self) -> &[u8]
        ensures { (s : Strand) (h : List Event) → stands self.now s h → result.now ≡ kept_by (form s).keeping h };
}
