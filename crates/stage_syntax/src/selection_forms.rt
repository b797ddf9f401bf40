ghost use Rattle.std.specs.Prelude.{◌≡◌, List, ℕ, IfOk, if◌then◌else◌};
ghost use Rattle.std.specs.Option.{option_map};
ghost use Rattle.std.specs.declared.option.Option.{Option};
ghost use Rattle.pipe_model.specs.declared.kind.Kind.{Kind};
ghost use Rattle.pipe_model.specs.declared.kind.Kind.TheVariants as Kinds;
ghost use Rattle.pipe_model.specs.declared.kind.Times.{Times};
ghost use Rattle.pipe_model.specs.declared.range.Range.{Range};
ghost use Rattle.stage_syntax.specs.SelectionForms as Selection;
ghost use Rattle.stage_syntax.specs.Forms.{of_text};
ghost use Rattle.stage_syntax.specs.Rows.{text_in};

use crate::values::{all_columns, copy};
use argument_parts::{Part, Value, Word};
use pipe_model::{Kind, NoMemory, Range, Rec, Times};
use std::alloc::Global;

/// What may come after these arguments of LOCATE or NLOCATE.
pub fn before_locate(values: &[Value]) -> &'static [Part]
    ensures { result.now ≡ Selection.before_locate values.now }
{
    match values {
        [] => &[Part::Range, Part::String],
        [Value::Range(_)] => &[Part::String],
        _ => &[],
    }
}

// Where LOCATE or NLOCATE looks, and the string that it looks for, if any.
#[derive(Drop)]
struct Sought {
    range: Range,
    text: Option<Rec>,
}

// What these arguments of LOCATE or NLOCATE give.
fn of_locate(alloc: Global, values: &[Value]) -> Result<Option<Sought>, NoMemory>
    ensures { IfOk result (λ found. (kind : Range → Option (List ℕ) → Kind) → Selection.of_locate kind values.now ≡ option_map (λ sought. kind sought.range sought.text) found) }
{
    match values {
        [Value::Range(range)] => Ok(Some(Sought {
            range: *range,
            text: None,
        })),
        [Value::String(string)] => Ok(Some(Sought {
            range: all_columns(),
            text: Some(copy(alloc, string)?),
        })),
        [Value::Range(range), Value::String(string)] => Ok(Some(Sought {
            range: *range,
            text: Some(copy(alloc, string)?),
        })),
        _ => Ok(None),
    }
}

/// LOCATE with these arguments.
pub fn locate(alloc: Global, values: &[Value]) -> Result<Option<Kind>, NoMemory>
    ensures { IfOk result (λ kind. kind ≡ Selection.of_locate Kinds.Locate values.now) }
{
    let Some(sought) = of_locate(alloc, values)? else {
        return Ok(None);
    };
    Ok(Some(Kind::Locate {
        range: sought.range,
        text: sought.text,
    }))
}

/// NLOCATE with these arguments.
pub fn nlocate(alloc: Global, values: &[Value]) -> Result<Option<Kind>, NoMemory>
    ensures { IfOk result (λ kind. kind ≡ Selection.of_locate Kinds.Nlocate values.now) }
{
    let Some(sought) = of_locate(alloc, values)? else {
        return Ok(None);
    };
    Ok(Some(Kind::Nlocate {
        range: sought.range,
        text: sought.text,
    }))
}

/// What may come after these arguments of TAKE or DROP.
pub fn before_end(values: &[Value]) -> &'static [Part]
    ensures { result.now ≡ Selection.before_end values.now }
{
    match values {
        [] => &[Part::Word(Word::First), Part::Word(Word::Last), Part::Times],
        [Value::Word(_)] => &[Part::Times],
        _ => &[],
    }
}

// At which end TAKE or DROP counts, and how far.
#[derive(Clone, Copy)]
struct End {
    last: bool,
    times: Times,
}

// What these arguments of TAKE or DROP give.
fn of_end(values: &[Value]) -> Option<End>
    ensures { (first : Times → Kind) (last : Times → Kind) → Selection.of_end first last values.now ≡ option_map (λ end. if end.last then last end.times else first end.times) result }
{
    match values {
        [] | [Value::Word(Word::First)] => Some(End {
            last: false,
            times: Times::Only(1),
        }),
        [Value::Word(Word::Last)] => Some(End {
            last: true,
            times: Times::Only(1),
        }),
        [Value::Times(times)] | [Value::Word(Word::First), Value::Times(times)] => Some(End {
            last: false,
            times: *times,
        }),
        [Value::Word(Word::Last), Value::Times(times)] => Some(End {
            last: true,
            times: *times,
        }),
        _ => None,
    }
}

/// TAKE with these arguments.
pub fn take(values: &[Value]) -> Option<Kind>
    ensures { result ≡ Selection.of_end Kinds.TakeFirst Kinds.TakeLast values.now }
{
    match of_end(values) {
        Some(End { last: false, times }) => Some(Kind::TakeFirst(times)),
        Some(End { last: true, times }) => Some(Kind::TakeLast(times)),
        None => None,
    }
}

/// DROP with these arguments.
pub fn drop_some(values: &[Value]) -> Option<Kind>
    ensures { result ≡ Selection.of_end Kinds.DropFirst Kinds.DropLast values.now }
{
    match of_end(values) {
        Some(End { last: false, times }) => Some(Kind::DropFirst(times)),
        Some(End { last: true, times }) => Some(Kind::DropLast(times)),
        None => None,
    }
}

/// What may come after these arguments of BETWEEN or INSIDE.
pub fn before_two(values: &[Value]) -> &'static [Part]
    ensures { result.now ≡ Selection.before_two values.now }
{
    match values {
        [] => &[Part::String],
        [Value::String(_)] => &[Part::String],
        _ => &[],
    }
}

// The two strings that these arguments give.
fn of_two(alloc: Global, values: &[Value]) -> Result<Option<(Rec, Rec)>, NoMemory>
    ensures { IfOk result (λ found. (kind : List ℕ → List ℕ → Kind) → Selection.of_two kind values.now ≡ option_map (λ two. kind two.0 two.1) found) }
{
    match values {
        [Value::String(first), Value::String(second)] => Ok(Some((
            copy(alloc, first)?,
            copy(alloc, second)?,
        ))),
        _ => Ok(None),
    }
}

/// BETWEEN with these arguments.
pub fn between(alloc: Global, values: &[Value]) -> Result<Option<Kind>, NoMemory>
    ensures { IfOk result (λ kind. kind ≡ Selection.of_two Kinds.Between values.now) }
{
    let Some((first, second)) = of_two(alloc, values)? else {
        return Ok(None);
    };
    Ok(Some(Kind::Between { first, second }))
}

/// INSIDE with these arguments.
pub fn inside(alloc: Global, values: &[Value]) -> Result<Option<Kind>, NoMemory>
    ensures { IfOk result (λ kind. kind ≡ Selection.of_two Kinds.Inside values.now) }
{
    let Some((first, second)) = of_two(alloc, values)? else {
        return Ok(None);
    };
    Ok(Some(Kind::Inside { first, second }))
}

// The TEXT that FIND or NFIND has, which isn't empty.
fn of_some_text(alloc: Global, text: &[u8]) -> Result<Option<Rec>, NoMemory>
    ensures { IfOk result (λ found. (kind : List ℕ → Kind) → Selection.of_some_text kind (text_in text.now) ≡ option_map kind found) }
{
    match text {
        [] | [_] => Ok(None),
        [_, text @ ..] => Ok(Some(Rec::from_slice(alloc, text)?)),
    }
}

/// FIND with this text.
pub fn find(alloc: Global, text: &[u8]) -> Result<Option<Kind>, NoMemory>
    ensures { IfOk result (λ kind. kind ≡ Selection.of_some_text Kinds.Find (text_in text.now)) }
{
    let Some(text) = of_some_text(alloc, text)? else {
        return Ok(None);
    };
    Ok(Some(Kind::Find { text }))
}

/// NFIND with this text.
pub fn nfind(alloc: Global, text: &[u8]) -> Result<Option<Kind>, NoMemory>
    ensures { IfOk result (λ kind. kind ≡ Selection.of_some_text Kinds.Nfind (text_in text.now)) }
{
    let Some(text) = of_some_text(alloc, text)? else {
        return Ok(None);
    };
    Ok(Some(Kind::Nfind { text }))
}

// The TEXT that TOLABEL or FRLABEL has, which may be empty.
fn of_any_text(alloc: Global, text: &[u8]) -> Result<Option<Rec>, NoMemory>
    ensures { IfOk result (λ found. (kind : List ℕ → Kind) → of_text kind (text_in text.now) ≡ option_map kind found) }
{
    match text {
        [] => Ok(None),
        [_, text @ ..] => Ok(Some(Rec::from_slice(alloc, text)?)),
    }
}

/// TOLABEL with this text.
pub fn to_label(alloc: Global, text: &[u8]) -> Result<Option<Kind>, NoMemory>
    ensures { IfOk result (λ kind. kind ≡ of_text Kinds.ToLabel (text_in text.now)) }
{
    let Some(text) = of_any_text(alloc, text)? else {
        return Ok(None);
    };
    Ok(Some(Kind::ToLabel { text }))
}

/// FRLABEL with this text.
pub fn fr_label(alloc: Global, text: &[u8]) -> Result<Option<Kind>, NoMemory>
    ensures { IfOk result (λ kind. kind ≡ of_text Kinds.FrLabel (text_in text.now)) }
{
    let Some(text) = of_any_text(alloc, text)? else {
        return Ok(None);
    };
    Ok(Some(Kind::FrLabel { text }))
}
