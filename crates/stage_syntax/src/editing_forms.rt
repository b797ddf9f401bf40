ghost use Rattle.std.specs.Prelude.{◌≡◌, List, ℕ, IfOk};
ghost use Rattle.pipe_model.specs.declared.kind.Kind.TheVariants as Kinds;
ghost use Rattle.stage_syntax.specs.EditingForms as Editing;
ghost use Rattle.stage_syntax.specs.Forms as Shared;

use crate::values::{all_columns, copy};
use argument_parts::{FaultKind, Part, TextFault, Value, Word};
use pipe_model::{Kind, Mapping, NoMemory, Rec, Times};
use std::alloc::Global;

/// The greatest number of columns, bytes and sizes.
const GREATEST: u32 = 1_048_576;

// A blank, where no bytes are given.
fn blank(alloc: Global) -> Result<Rec, NoMemory>
    ensures { IfOk result (λ blank. blank ≡ Editing.blank) }
{
    Rec::from_slice(alloc, b" ")
}

/// What may come after these arguments of CHANGE.
pub fn before_change(values: &[Value]) -> &'static [Part]
    ensures { result.now ≡ Editing.before_change values.now }
{
    match values {
        [] => &[Part::Columns, Part::Strings],
        [Value::Range(_)] => &[Part::Strings],
        [Value::Strings(..)] | [Value::Range(_), Value::Strings(..)] => &[Part::Times],
        _ => &[],
    }
}

/// CHANGE with these arguments.
pub fn of_change(alloc: Global, values: &[Value]) -> Result<Option<Kind>, NoMemory>
    ensures { IfOk result (λ kind. kind ≡ Editing.of_change values.now) }
{
    let (range, sought, put, times) = match values {
        [Value::Strings(sought, put)] => (all_columns(), sought, put, Times::All),
        [Value::Strings(sought, put), Value::Times(times)] => (all_columns(), sought, put, *times),
        [Value::Range(range), Value::Strings(sought, put)] => (*range, sought, put, Times::All),
        [
            Value::Range(range),
            Value::Strings(sought, put),
            Value::Times(times),
        ] => (*range, sought, put, *times),
        _ => return Ok(None),
    };
    Ok(Some(Kind::Change {
        range,
        sought: copy(alloc, sought)?,
        put: copy(alloc, put)?,
        times,
    }))
}

/// What may come after these arguments of STRIP.
pub fn before_strip(values: &[Value]) -> &'static [Part]
    ensures { result.now ≡ Editing.before_strip values.now }
{
    match values {
        [] => &[
            Part::Word(Word::Both),
            Part::Word(Word::Leading),
            Part::Word(Word::Trailing),
            Part::String,
        ],
        [Value::Word(_)] => &[Part::String],
        _ => &[],
    }
}

/// STRIP with these arguments.
pub fn of_strip(alloc: Global, values: &[Value]) -> Result<Option<Kind>, NoMemory>
    ensures { IfOk result (λ kind. kind ≡ Editing.of_strip values.now) }
{
    let (leading, trailing, set) = match values {
        [] | [Value::Word(Word::Both)] => (true, true, blank(alloc)?),
        [Value::Word(Word::Leading)] => (true, false, blank(alloc)?),
        [Value::Word(Word::Trailing)] => (false, true, blank(alloc)?),
        [Value::String(set)] | [Value::Word(Word::Both), Value::String(set)] => (
            true,
            true,
            copy(alloc, set)?,
        ),
        [Value::Word(Word::Leading), Value::String(set)] => (true, false, copy(alloc, set)?),
        [Value::Word(Word::Trailing), Value::String(set)] => (false, true, copy(alloc, set)?),
        _ => return Ok(None),
    };
    Ok(Some(Kind::Strip {
        leading,
        trailing,
        set,
    }))
}

/// What may come after these arguments of CHOP.
pub fn before_chop(values: &[Value]) -> &'static [Part]
    ensures { result.now ≡ Editing.before_chop values.now }
{
    match values {
        [] => &[Part::Number {
            least: 0,
            most: GREATEST,
        }],
        _ => &[],
    }
}

/// CHOP with these arguments.
pub fn of_chop(values: &[Value]) -> Option<Kind>
    ensures { result ≡ Editing.of_chop values.now }
{
    match values {
        [] => Some(Kind::Chop(80)),
        [Value::Number(n)] => Some(Kind::Chop(*n)),
        _ => None,
    }
}

/// What may come after these arguments of PAD.
pub fn before_pad(values: &[Value]) -> &'static [Part]
    ensures { result.now ≡ Editing.before_pad values.now }
{
    match values {
        [] => &[
            Part::Word(Word::Left),
            Part::Word(Word::Right),
            Part::Number {
                least: 0,
                most: GREATEST,
            },
        ],
        [Value::Word(_)] => &[Part::Number {
            least: 0,
            most: GREATEST,
        }],
        [Value::Number(_)] | [Value::Word(_), Value::Number(_)] => &[Part::Byte],
        _ => &[],
    }
}

/// PAD with these arguments.
pub fn of_pad(values: &[Value]) -> Option<Kind>
    ensures { result ≡ Editing.of_pad values.now }
{
    let (left, width, fill) = match values {
        [Value::Number(n)] | [Value::Word(Word::Right), Value::Number(n)] => (false, *n, b' '),
        [Value::Word(Word::Left), Value::Number(n)] => (true, *n, b' '),
        [Value::Number(n), Value::Byte(byte)]
        | [
            Value::Word(Word::Right),
            Value::Number(n),
            Value::Byte(byte),
        ] => (false, *n, *byte),
        [Value::Word(Word::Left), Value::Number(n), Value::Byte(byte)] => (true, *n, *byte),
        _ => return None,
    };
    Some(Kind::Pad { left, width, fill })
}

/// What may come after these arguments of SPLIT.
pub fn before_split(values: &[Value]) -> &'static [Part]
    ensures { result.now ≡ Editing.before_split values.now }
{
    match values {
        [] => &[Part::String],
        _ => &[],
    }
}

/// SPLIT with these arguments.
pub fn of_split(alloc: Global, values: &[Value]) -> Result<Option<Kind>, NoMemory>
    ensures { IfOk result (λ kind. kind ≡ Editing.of_split values.now) }
{
    match values {
        [] => Ok(Some(Kind::Split { set: blank(alloc)? })),
        [Value::String(set)] => Ok(Some(Kind::Split {
            set: copy(alloc, set)?,
        })),
        _ => Ok(None),
    }
}

/// What may come after these arguments of JOIN.
pub fn before_join(values: &[Value]) -> &'static [Part]
    ensures { result.now ≡ Editing.before_join values.now }
{
    match values {
        [] => &[Part::Times, Part::AnyString],
        [Value::Times(_)] => &[Part::AnyString],
        _ => &[],
    }
}

/// JOIN with these arguments.
pub fn of_join(alloc: Global, values: &[Value]) -> Result<Option<Kind>, NoMemory>
    ensures { IfOk result (λ kind. kind ≡ Editing.of_join values.now) }
{
    let (more, between) = match values {
        [] => (Times::Only(1), Rec::from_vec(Vec::new(alloc))),
        [Value::Times(more)] => (*more, Rec::from_vec(Vec::new(alloc))),
        [Value::String(between)] => (Times::Only(1), copy(alloc, between)?),
        [Value::Times(more), Value::String(between)] => (*more, copy(alloc, between)?),
        _ => return Ok(None),
    };
    Ok(Some(Kind::Join { more, between }))
}

/// What may come after these arguments of XLATE.
pub fn before_xlate(values: &[Value]) -> &'static [Part]
    ensures { result.now ≡ Editing.before_xlate values.now }
{
    match values {
        [] => &[
            Part::Word(Word::Upper),
            Part::Word(Word::Lower),
            Part::String,
        ],
        [Value::String(_)] => &[Part::String],
        _ => &[],
    }
}

/// The fault of these arguments of XLATE, each of which begins where so many bytes are left: the strings aren't equally long.
pub fn wrong_xlate(values: &[Value], lefts: &[usize]) -> Option<TextFault>
    ensures { result ≡ Editing.wrong_xlate values.now lefts.now }
{
    match (values, lefts) {
        ([Value::String(first), Value::String(second)], [_, left])
            if first.bytes().len() != second.bytes().len() => Some(TextFault {
            left: *left,
            kind: FaultKind::OutOfRange,
        }),
        _ => None,
    }
}

/// XLATE with these arguments.
pub fn of_xlate(alloc: Global, values: &[Value]) -> Result<Option<Kind>, NoMemory>
    ensures { IfOk result (λ kind. kind ≡ Editing.of_xlate values.now) }
{
    let mapping = match values {
        [] | [Value::Word(Word::Upper)] => Mapping::Upper,
        [Value::Word(Word::Lower)] => Mapping::Lower,
        [Value::String(first), Value::String(second)] => Mapping::Bytes(
            copy(alloc, first)?,
            copy(alloc, second)?,
        ),
        _ => return Ok(None),
    };
    Ok(Some(Kind::Xlate(mapping)))
}

/// What may come after these arguments of DUPLICATE.
pub fn before_times(values: &[Value]) -> &'static [Part]
    ensures { result.now ≡ Shared.before_times values.now }
{
    match values {
        [] => &[Part::Times],
        _ => &[],
    }
}

/// DUPLICATE with these arguments.
pub fn of_duplicate(values: &[Value]) -> Option<Kind>
    ensures { result ≡ Shared.of_times Kinds.Duplicate values.now }
{
    match values {
        [] => Some(Kind::Duplicate(Times::Only(1))),
        [Value::Times(times)] => Some(Kind::Duplicate(*times)),
        _ => None,
    }
}
