ghost use Rattle.std.specs.Prelude.{◌≡◌, ◌<◌, ◌++◌, length, IfOk, unwrap_or};
ghost use Rattle.pipe_model.specs.EditingRows.{replaced, put_in};
ghost use Rattle.pipe_model.specs.Counts.{of_all, is_reached};
ghost use Rattle.edit_stages.specs.Replacing.{IsNext};

use crate::edits::Edits;
use pipe_model::{NoMemory, Range, Rec, Span, Times, behind, front};
use stage_steps::{Sought, part_of};
use std::alloc::Global;

/// CHANGE: so many occurrences of a string in some columns of a record, from the left, replaced by another string.
#[derive(Drop)]
pub struct Changes {
    range: Range,
    sought: Sought,
    /// How many bytes the string has.
    size: usize,
    put: Rec,
    times: Times,
    ghost sized: { size ≡ length sought },
}

// The next place of a string in a text, where one is to be replaced.
#[inline(always)]
fn next_place(sought: &Sought, left: usize, text: &[u8]) -> Option<usize>
    requires { 0 < length sought.now }
    ensures { IsNext sought.now left text.now result }
{
    if left == 0 { None } else { sought.find(text) }
}

// Adds a text in which the first so many occurrences of a string are replaced, where the next of them is found.
fn add_replaced(
    out: &mut Vec<u8>,
    sought: &Sought,
    size: usize,
    put: &[u8],
    count: usize,
    next: Option<usize>,
    text: &[u8],
) -> Result<(), NoMemory>
    requires filled { 0 < length sought.now }
    requires sized { size ≡ length sought.now }
    requires found { IsNext sought.now count text.now next }
    ensures { IfOk result (λ _. out.new.items ≡ out.old.items ++ replaced sought.now put.now count 0 text.now) }
{
    let mut rest = text;
    let mut left = count;
    let mut next = next;
    while let Some(place) = next {
        out.extend_from_slice(&rest[..place])?;
        out.extend_from_slice(put)?;
        rest = &rest[place + size..];
        left -= 1;
        next = next_place(sought, left, rest);
    }
    out.extend_from_slice(rest)?;
    Ok(())
}

// The record with a string put in behind so many bytes, or None where it is shorter.
fn put_in(alloc: Global, put: &[u8], at: usize, rec: &[u8]) -> Result<Option<Rec>, NoMemory>
    ensures { IfOk result (λ new. unwrap_or new rec.now ≡ put_in put.now at rec.now) }
{
    if at > rec.len() {
        return Ok(None);
    }
    let mut out = Vec::with_capacity(alloc, rec.len() + put.len())?;
    out.extend_from_slice(&rec[..at])?;
    out.extend_from_slice(put)?;
    out.extend_from_slice(&rec[at..])?;
    Ok(Some(Rec::from_vec(out)))
}

// How many there are to be at most, of all.
fn of_all(times: Times, all: usize) -> usize
    ensures { result ≡ of_all times all }
{
    match times {
        Times::Only(n) => n as usize,
        Times::All => all,
    }
}

// Whether none is to be replaced.
fn is_none(times: Times) -> bool
    ensures { result ≡ is_reached times 0 }
{
    matches!(times, Times::Only(0))
}

impl Changes {
    ghost use Rattle.std.specs.Prelude.{◌≡◌, IfOk};
    ghost use Rattle.pipe_model.specs.EditingRows.{changed};
    ghost use Rattle.edit_stages.specs.AnyEdit.{change_made};

    // CHANGE of this range, from one string to the other, so often.
    pub(crate) fn new(
        alloc: Global,
        range: Range,
        sought: &Rec,
        put: &Rec,
        times: Times,
    ) -> Result<Changes, NoMemory>
        ensures { IfOk result (λ it. change_made it ≡ changed range sought.now put.now times) }
    {
        let put = put.copy(alloc)?;
        let size = sought.bytes().len();
        let sought = Sought::new(sought.copy(alloc)?);
        Ok(Changes {
            range,
            sought,
            size,
            put,
            times,
        })
    }
}

impl Edits for Changes {
    ghost use Rattle.edit_stages.specs.AnyEdit.{change_made};

    ghost made = { change_made };

    fn edit(&self, alloc: Global, rec: &[u8]) -> Result<Option<Rec>, NoMemory> {
        let at = self.range.first.saturating_sub(1) as usize;
        if self.size == 0 {
            if is_none(self.times) {
                return Ok(None);
            }
            return put_in(alloc, self.put.bytes(), at, rec);
        }
        let part = part_of(self.range, rec);
        let count = of_all(self.times, rec.len());
        let next = next_place(&self.sought, count, part);
        // Only a part by columns stands behind so many bytes of the record, so that with it the record is whole again.
        if next.is_none() && matches!(self.range.span, Span::Columns) {
            return Ok(None);
        }
        let mut out = Vec::with_capacity(alloc, rec.len())?;
        out.extend_from_slice(front(rec, at))?;
        add_replaced(
            &mut out,
            &self.sought,
            self.size,
            self.put.bytes(),
            count,
            next,
            part,
        )?;
        out.extend_from_slice(behind(rec, at + part.len()))?;
        Ok(Some(Rec::from_vec(out)))
    }
}
