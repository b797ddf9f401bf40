ghost use Rattle.std.specs.Prelude.{◌≡◌, Bool, IfOk};
ghost use Rattle.stage_syntax.specs.ItemForms.{draft_of, progress_of};
ghost use Rattle.stage_syntax.specs.Rows.{text_in};
ghost use Rattle.stage_syntax.specs.StageForms.{arguments_by, is_text, make_in, row_in};

use crate::device_forms::{before_name, console, file_in, file_out, literal};
use crate::editing_forms::{
    before_change, before_chop, before_join, before_pad, before_split, before_strip, before_times,
    before_xlate, of_change, of_chop, of_duplicate, of_join, of_pad, of_split, of_strip, of_xlate,
    wrong_xlate,
};
use crate::item_lists::of_specs;
use crate::item_parts::Progress;
use crate::order_forms::{
    before_block, before_count, before_deblock, before_fblock, before_sort, before_unique,
    of_block, of_count, of_deblock, of_fblock, of_sort, of_unique, wrong_unique,
};
use crate::selection_forms::{
    before_end, before_locate, before_two, between, drop_some, find, fr_label, inside, locate,
    nfind, nlocate, take, to_label,
};
use crate::stream_forms::{
    before_overlay, before_range, before_ranges, collate, lookup, merge, overlay,
};
use argument_parts::{Part, TextFault, Value};
use pipe_model::{Kind, NoMemory};
use std::alloc::Global;

/// The form of a stage's arguments: one for each stage.
#[derive(Clone, Copy, Debug, PartialEq, Eq)]
pub enum Form {
    Console,
    /// `<`
    FileIn,
    /// `>`
    FileOut,
    Literal,
    Hole,
    Locate,
    Nlocate,
    Find,
    Nfind,
    Take,
    Drop,
    Between,
    Inside,
    ToLabel,
    FrLabel,
    Change,
    Strip,
    Chop,
    Pad,
    Split,
    Join,
    Xlate,
    Reverse,
    Duplicate,
    Unique,
    Sort,
    Count,
    Lookup,
    Collate,
    Merge,
    FanOut,
    FanIn,
    FanInAny,
    Deal,
    Gather,
    Overlay,
    /// SYNCHRONISE, also spelled SYNCHRONIZE
    Synchronise,
    Juxtapose,
    Gate,
    Dam,
    Elastic,
    Buffer,
    Copy,
    Fblock,
    Block,
    Deblock,
    Specs,
}

/// Whether TEXT is all that a stage has.
pub fn has_text(form: Form) -> bool
    ensures { (first : Bool) → result ≡ is_text (arguments_by form first) }
{
    match form {
        Form::Literal | Form::Find | Form::Nfind | Form::ToLabel | Form::FrLabel => true,
        _ => false,
    }
}

/// What may come after these arguments, which are so far those of SPECS, if they are its.
pub fn parts_after(form: Form, values: &[Value], progress: Progress) -> &'static [Part]
    requires { progress ≡ progress_of (draft_of values.now) }
    ensures { (first : Bool) → result.now ≡ (row_in (arguments_by form first)).next values.now }
{
    match form {
        Form::FileIn | Form::FileOut => before_name(values),
        Form::Locate | Form::Nlocate => before_locate(values),
        Form::Take | Form::Drop => before_end(values),
        Form::Between | Form::Inside => before_two(values),
        Form::Change => before_change(values),
        Form::Strip => before_strip(values),
        Form::Chop => before_chop(values),
        Form::Pad => before_pad(values),
        Form::Split => before_split(values),
        Form::Join => before_join(values),
        Form::Xlate => before_xlate(values),
        Form::Duplicate => before_times(values),
        Form::Unique => before_unique(values),
        Form::Sort => before_sort(values),
        Form::Count => before_count(values),
        Form::Lookup | Form::Collate => before_ranges(values),
        Form::Merge => before_range(values),
        Form::Overlay => before_overlay(values),
        Form::Fblock => before_fblock(values),
        Form::Block => before_block(values),
        Form::Deblock => before_deblock(values),
        Form::Specs => progress.parts(),
        _ => &[],
    }
}

/// The fault of these arguments, each of which begins where so many bytes are left of the text.
pub fn wrong_of(form: Form, values: &[Value], lefts: &[usize]) -> Option<TextFault>
    ensures { (first : Bool) → result ≡ (row_in (arguments_by form first)).wrong values.now lefts.now }
{
    match form {
        Form::Xlate => wrong_xlate(values, lefts),
        Form::Unique => wrong_unique(values, lefts),
        _ => None,
    }
}

/// What these arguments make, or None where one is missing; `first` says that the stage stands first in its pipeline.
pub fn kind_by(
    alloc: Global,
    form: Form,
    first: bool,
    values: &[Value],
) -> Result<Option<Kind>, NoMemory>
    ensures { IfOk result (λ kind. kind ≡ (row_in (arguments_by form first)).kind values.now) }
{
    match form {
        Form::Console => Ok(Some(console(alloc, first))),
        Form::FileIn => file_in(alloc, values),
        Form::FileOut => file_out(alloc, values),
        Form::Hole => Ok(Some(Kind::Hole)),
        Form::Locate => locate(alloc, values),
        Form::Nlocate => nlocate(alloc, values),
        Form::Take => Ok(take(values)),
        Form::Drop => Ok(drop_some(values)),
        Form::Between => between(alloc, values),
        Form::Inside => inside(alloc, values),
        Form::Change => of_change(alloc, values),
        Form::Strip => of_strip(alloc, values),
        Form::Chop => Ok(of_chop(values)),
        Form::Pad => Ok(of_pad(values)),
        Form::Split => of_split(alloc, values),
        Form::Join => of_join(alloc, values),
        Form::Xlate => of_xlate(alloc, values),
        Form::Reverse => Ok(Some(Kind::Reverse)),
        Form::Duplicate => Ok(of_duplicate(values)),
        Form::Unique => Ok(of_unique(values)),
        Form::Sort => of_sort(alloc, values),
        Form::Count => of_count(alloc, values),
        Form::Lookup => Ok(lookup(values)),
        Form::Collate => Ok(collate(values)),
        Form::Merge => Ok(merge(values)),
        Form::FanOut => Ok(Some(Kind::FanOut)),
        Form::FanIn => Ok(Some(Kind::FanIn)),
        Form::FanInAny => Ok(Some(Kind::FanInAny)),
        Form::Deal => Ok(Some(Kind::Deal)),
        Form::Gather => Ok(Some(Kind::Gather)),
        Form::Overlay => Ok(overlay(values)),
        Form::Synchronise => Ok(Some(Kind::Synchronise)),
        Form::Juxtapose => Ok(Some(Kind::Juxtapose)),
        Form::Gate => Ok(Some(Kind::Gate)),
        Form::Dam => Ok(Some(Kind::Dam)),
        Form::Elastic => Ok(Some(Kind::Elastic)),
        Form::Buffer => Ok(Some(Kind::Buffer)),
        Form::Copy => Ok(Some(Kind::Copy)),
        Form::Fblock => Ok(of_fblock(values)),
        Form::Block => of_block(alloc, values),
        Form::Deblock => of_deblock(alloc, values),
        Form::Specs => of_specs(alloc, values),
        Form::Literal | Form::Find | Form::Nfind | Form::ToLabel | Form::FrLabel => Ok(None),
    }
}

/// What TEXT makes, which is all of this after one blank, or None where it is missing.
pub fn text_kind(alloc: Global, form: Form, text: &[u8]) -> Result<Option<Kind>, NoMemory>
    ensures { IfOk result (λ kind. (first : Bool) → kind ≡ make_in (arguments_by form first) (text_in text.now)) }
{
    match form {
        Form::Literal => Ok(Some(literal(alloc, text)?)),
        Form::Find => find(alloc, text),
        Form::Nfind => nfind(alloc, text),
        Form::ToLabel => to_label(alloc, text),
        Form::FrLabel => fr_label(alloc, text),
        _ => Ok(None),
    }
}
