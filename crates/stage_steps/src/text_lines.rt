ghost use Rattle.std.specs.Prelude.{[], ◌≡◌, IfOk, MatchOption};
ghost use Rattle.pipe_model.specs.declared.step.Seen.TheVariants as Seen;
ghost use Rattle.pipe_model.specs.Records.{lines};
ghost use Rattle.stage_steps.specs.Coroutine.{CanResume, Resumes};
ghost use Rattle.stage_steps.specs.Drivers.{ListedStands};
ghost use Rattle.stage_steps.specs.Lines.{IsFirstLine};
ghost use Rattle.stage_steps.specs.SharedLists.{LinesStand, lines_look, line_given, lines_left};
ghost use Rattle.stage_steps.specs.Showings.{IsGiving, IsShowing, IsCutting};

use crate::group::Group;
use crate::listed::Listed;
use crate::lists::Lists;
use crate::reply::leave;
use crate::stage::Stage;
use crate::walk::writes_plainly;
use pipe_model::{Lines, NoMemory, Out, Rec, Want, behind, front};
use std::alloc::Global;

// A line of more bytes isn't shown, but written.
const SHORT_LINE: usize = 256;

/// The lines of a text, before any record: each is cut when it is asked for.
#[derive(Drop)]
pub struct TextLines {
    bytes: Rec,
    /// Where the lines begin that are left.
    at: usize,
    /// Where the line begins that was given last, and how many bytes it has.
    from: usize,
    size: usize,
}

impl TextLines {
    ghost use Rattle.std.specs.Prelude.{◌≡◌};
    ghost use Rattle.stage_steps.specs.SharedLists.{fresh_lines};

    /// All lines of this text, before the first of them is asked for.
    pub fn new(bytes: Rec) -> TextLines
        ensures { result ≡ fresh_lines bytes }
    {
        let at = bytes.bytes().len();
        TextLines {
            bytes,
            at,
            from: 0,
            size: 0,
        }
    }
}

impl TextLines {
    ghost use Rattle.std.specs.Prelude.{◌≡◌, ◌+◌, ◌<◌, ◌^◌, Some};
    ghost use Rattle.stage_steps.specs.SharedLists.{LinesStand, line_given, lines_left};
    ghost use Rattle.stage_steps.specs.Showings.{GivesShown, IsCutting};

    // Gives the next line, which has so many bytes.
    #[inline(always)]
    fn give(&mut self, size: usize)
        requires { self.old.at + size + 1 < 2 ^ 64 }
        ensures { self.new ≡ record self.old { from = self.old.at; size = size; at = self.old.at + size + 1 } }
    {
        self.size = size;
        self.from = self.at;
        self.at += size + 1;
    }

    // Gives the next line, where one of at most so many bytes is left; else nothing changes.
    #[inline(always)]
    fn give_within(&mut self, most: usize) -> bool
        ensures gives { GivesShown most LinesStand (λ x. Some (line_given x)) line_given self.old self.new result }
        ensures cuts { IsCutting lines_left line_given self.old self.new result }
    {
        match first_line(behind(self.bytes.bytes(), self.at)) {
            Some(line) if line.len() <= most => {
                let size = line.len();
                self.give(size);
                true
            }
            _ => false,
        }
    }

    // The line that was given last.
    #[inline(always)]
    fn last(&self) -> &[u8]
        ensures { result.now ≡ line_given self.now }
    {
        front(behind(self.bytes.bytes(), self.from), self.size)
    }
}

/// Tells a source that the record was put which it wrote on an output, where it writes a line of at most 256 bytes there next,
/// which it shows then; else nothing changes.
#[inline(always)]
pub fn show_line(source: &mut Listed<TextLines>, o: u16) -> bool
    ensures shows { IsShowing (λ x s h. ListedStands LinesStand lines_look x s h) (λ x. line_given x.lists) source.old source.new o result }
    ensures cuts { IsCutting (λ x. lines_left x.lists) (λ x. line_given x.lists) source.old source.new result }
{
    gives_line(source, o, SHORT_LINE)
}

/// Tells a source that the record was put which it wrote on an output, and leaves what it wants then in `asked`, as its `put` does.
#[inline(never)]
pub fn put_line(
    source: &mut Listed<TextLines>,
    alloc: Global,
    o: u16,
    asked: &mut Want,
) -> Result<(), NoMemory>
    requires { CanResume (λ x s h. ListedStands LinesStand lines_look x s h) source.old (Seen.Put o) [] }
    ensures { IfOk result (λ _. Resumes (λ x s h. ListedStands LinesStand lines_look x s h) source.old source.new (Seen.Put o) [] asked.new) }
{
    if !gives_line(source, o, usize::MAX) {
        return source.put(alloc, o, asked);
    }
    let lines = &source.lists;
    let rec = lines.bytes.part(alloc, lines.from, lines.size)?;
    leave(asked, Want::Write(o, Out::Fresh(rec)));
    Ok(())
}

// Tells a source that the record was put which it wrote on an output, where it writes a line of at most so many bytes there next,
// which it gives then; else nothing changes.
#[inline(always)]
fn gives_line(source: &mut Listed<TextLines>, o: u16, most: usize) -> bool
    ensures gives { IsGiving most (λ x s h. ListedStands LinesStand lines_look x s h) (λ x. line_given x.lists) source.old source.new o result }
    ensures cuts { IsCutting (λ x. lines_left x.lists) (λ x. line_given x.lists) source.old source.new result }
{
    if o != 0 || !writes_plainly(&source.walk) {
        return false;
    }
    source.lists.give_within(most)
}

/// The text of the lines that a source has yet to write.
#[inline(always)]
pub fn lines_ahead(source: &Listed<TextLines>) -> &[u8]
    ensures { result.now ≡ lines_left source.now.lists }
{
    behind(source.lists.bytes.bytes(), source.lists.at)
}

/// The line that a source wrote last.
#[inline(always)]
pub fn line_shown(source: &Listed<TextLines>) -> &[u8]
    ensures { result.now ≡ line_given source.now.lists }
{
    source.lists.last()
}

// The first line of a text.
fn first_line(text: &[u8]) -> Option<&[u8]>
    ensures { MatchOption result (lines text.now ≡ []) (λ line. IsFirstLine line.now text.now) }
{
    Lines::new(text).next()
}

impl Lists for TextLines {
    ghost use Rattle.std.specs.Prelude.{◌-◌, length, Some};
    ghost use Rattle.stage_steps.specs.SharedLists.{LinesStand, line_given, lines_look};

    ghost stands = { LinesStand };

    ghost is_looking = { lines_look };

    ghost made = { λ x. Some (line_given x) };

    ghost left = { λ x. length x.bytes - x.at };

    fn begin(&mut self) {
        self.at = 0;
    }

    fn see(&mut self, _alloc: Global, _bytes: &[u8]) -> Result<(), NoMemory> {
        Ok(())
    }

    fn end(&mut self, _alloc: Global) -> Result<(), NoMemory> {
        Ok(())
    }

    fn next(&mut self, _alloc: Global) -> Result<Option<Group>, NoMemory> {
        match first_line(behind(self.bytes.bytes(), self.at)) {
            Some(line) => {
                let size = line.len();
                self.give(size);
                Ok(Some(Group::New(0)))
            }
            None => Ok(None),
        }
    }

    #[inline(always)]
    fn hand_over(&mut self, alloc: Global) -> Result<Rec, NoMemory> {
        self.bytes.part(alloc, self.from, self.size)
    }

    fn halts(&self) -> bool {
        false
    }

    fn stops(&self) -> bool {
        true
    }

    fn code(&self) -> i32 {
        0
    }

    fn looks(&self) -> bool {
        false
    }
}
