ghost use Rattle.std.specs.Prelude.{◌≡◌, ◌≤◌, List, ◌∷◌, length, IfOk, option_map};
ghost use Rattle.std.specs.List.{list_any};
ghost use Rattle.pipe_model.specs.declared.range.Range.{Range};
ghost use Rattle.argument_parts.specs.declared.part.Value.{Value};
ghost use Rattle.argument_parts.specs.declared.part.Value.TheVariants as Read;
ghost use Rattle.stage_syntax.specs.OrderForms as Order;

use crate::values::{all_columns, copy};
use argument_parts::{FaultKind, Part, TextFault, Value, Word};
use pipe_model::{Cutting, Image, Keep, Kind, NoMemory, SortKey, SortKeys, Total, Totals};
use std::alloc::Global;

/// The greatest size.
const GREATEST: u32 = 1_048_576;

/// What may come after these arguments of UNIQUE.
pub fn before_unique(values: &[Value]) -> &'static [Part]
    ensures { result.now ≡ Order.before_unique values.now }
{
    match values {
        [] => &[
            Part::Word(Word::Count),
            Part::Range,
            Part::Word(Word::First),
            Part::Word(Word::Last),
            Part::Word(Word::Singles),
            Part::Word(Word::Multiple),
        ],
        [Value::Word(Word::Count)] => &[
            Part::Range,
            Part::Word(Word::First),
            Part::Word(Word::Last),
            Part::Word(Word::Singles),
            Part::Word(Word::Multiple),
        ],
        [Value::Range(_)] | [Value::Word(Word::Count), Value::Range(_)] => &[
            Part::Word(Word::First),
            Part::Word(Word::Last),
            Part::Word(Word::Singles),
            Part::Word(Word::Multiple),
        ],
        _ => &[],
    }
}

/// Which records of a run a word of UNIQUE selects.
fn keep_of(word: Word) -> Keep
    ensures { result ≡ Order.keep_of word }
{
    match word {
        Word::First => Keep::First,
        Word::Singles => Keep::Singles,
        Word::Multiple => Keep::Multiple,
        _ => Keep::Last,
    }
}

// COUNT, where so many bytes are left, before a word that isn't LAST.
fn count_fault(word: Word, left: usize) -> Option<TextFault>
    ensures { result ≡ Order.count_fault word left }
{
    match word {
        Word::Last => None,
        _ => Some(TextFault {
            left,
            kind: FaultKind::UnknownWord,
        }),
    }
}

/// The fault of these arguments of UNIQUE, each of which begins where so many bytes are left: COUNT stands with LAST alone.
pub fn wrong_unique(values: &[Value], lefts: &[usize]) -> Option<TextFault>
    ensures { result ≡ Order.wrong_unique values.now lefts.now }
{
    match (values, lefts) {
        ([Value::Word(Word::Count), Value::Word(word)], [left, ..]) => count_fault(*word, *left),
        ([Value::Word(Word::Count), Value::Range(_), Value::Word(word)], [left, ..]) => count_fault(
            *word, *left,
        ),
        _ => None,
    }
}

/// UNIQUE with these arguments.
pub fn of_unique(values: &[Value]) -> Option<Kind>
    ensures { result ≡ Order.of_unique values.now }
{
    let (count, range, keep) = match values {
        [] => (false, all_columns(), Keep::Last),
        [Value::Word(Word::Count)] => (true, all_columns(), Keep::Last),
        [Value::Word(Word::Count), Value::Word(word)] => (true, all_columns(), keep_of(*word)),
        [Value::Word(Word::Count), Value::Range(range)] => (true, *range, Keep::Last),
        [
            Value::Word(Word::Count),
            Value::Range(range),
            Value::Word(word),
        ] => (true, *range, keep_of(*word)),
        [Value::Word(word)] => (false, all_columns(), keep_of(*word)),
        [Value::Range(range)] => (false, *range, Keep::Last),
        [Value::Range(range), Value::Word(word)] => (false, *range, keep_of(*word)),
        _ => return None,
    };
    Some(Kind::Unique { count, range, keep })
}

// How many of the arguments are ranges.
fn ranges_in(values: &[Value]) -> usize
    ensures { result ≡ Order.ranges_in values.now }
{
    values.iter().filter(|value| is_range(value)).count()
}

fn is_range(value: &Value) -> bool
    ensures { result ≡ Order.is_range_value value.now }
{
    matches!(value, Value::Range(_))
}

// Whether the last argument is a range.
fn ends_with_range(values: &[Value]) -> bool
    ensures { result ≡ Order.ends_with_range values.now }
{
    match values.last() {
        Some(value) => is_range(value),
        None => false,
    }
}

/// What may come after these arguments of SORT.
pub fn before_sort(values: &[Value]) -> &'static [Part]
    ensures { result.now ≡ Order.before_sort values.now }
{
    match (ranges_in(values) < 10, ends_with_range(values)) {
        (true, true) => &[
            Part::Range,
            Part::Word(Word::Ascending),
            Part::Word(Word::Descending),
        ],
        (true, false) => &[Part::Range],
        (false, true) => &[Part::Word(Word::Ascending), Part::Word(Word::Descending)],
        (false, false) => &[],
    }
}

// The keys that these arguments of SORT give.
fn keys_of(alloc: Global, values: &[Value]) -> Result<Option<SortKeys>, NoMemory>
    ensures { IfOk result (λ keys. keys ≡ Order.keys_of values.now) }
{
    let mut keys = SortKeys::new(alloc);
    let mut left = values;
    loop {
        match left {
            [] => return Ok(Some(keys)),
            [Value::Range(range), rest @ ..] => {
                let (descending, after) = order_in(rest);
                keys.push(SortKey {
                    range: *range,
                    descending,
                })?;
                left = after;
            }
            _ => return Ok(None),
        }
    }
}

// The order that comes after a range, ascending where none is named, and the arguments after it.
fn order_in(values: &[Value]) -> (bool, &[Value])
    ensures within { length result.1.now ≤ length values.now }
    ensures read { (range : Range) → Order.keys_of (Read.Range range ∷ values.now) ≡ option_map (λ keys. Order.key_of range result.0 ∷ keys) (Order.keys_of result.1.now) }
{
    match values {
        [Value::Word(word), after @ ..] => (descends(*word), after),
        _ => (false, values),
    }
}

// Whether a word after a range says that the order descends.
fn descends(word: Word) -> bool
    ensures { (range : Range) (values : List Value) → Order.keys_of (Read.Range range ∷ (Read.Word word ∷ values)) ≡ option_map (λ keys. Order.key_of range result ∷ keys) (Order.keys_of values) }
{
    matches!(word, Word::Descending)
}

/// SORT with these arguments.
pub fn of_sort(alloc: Global, values: &[Value]) -> Result<Option<Kind>, NoMemory>
    ensures { IfOk result (λ kind. kind ≡ Order.of_sort values.now) }
{
    let Some(mut keys) = keys_of(alloc, values)? else {
        return Ok(None);
    };
    if keys.as_slice().is_empty() {
        keys.push(SortKey {
            range: all_columns(),
            descending: false,
        })?;
    }
    Ok(Some(Kind::Sort(keys)))
}

/// What may come after these arguments of COUNT.
pub fn before_count(values: &[Value]) -> &'static [Part]
    ensures { result.now ≡ Order.before_count values.now }
{
    match (
        is_given(values, Word::Lines),
        is_given(values, Word::Words),
        is_given(values, Word::Bytes),
    ) {
        (false, false, false) => &[
            Part::Word(Word::Lines),
            Part::Word(Word::Words),
            Part::Word(Word::Bytes),
        ],
        (false, false, true) => &[Part::Word(Word::Lines), Part::Word(Word::Words)],
        (false, true, false) => &[Part::Word(Word::Lines), Part::Word(Word::Bytes)],
        (false, true, true) => &[Part::Word(Word::Lines)],
        (true, false, false) => &[Part::Word(Word::Words), Part::Word(Word::Bytes)],
        (true, false, true) => &[Part::Word(Word::Words)],
        (true, true, false) => &[Part::Word(Word::Bytes)],
        (true, true, true) => &[],
    }
}

// Whether one of the arguments is this word.
fn is_given(values: &[Value], word: Word) -> bool
    ensures { result ≡ list_any (Order.is_word word) values.now }
{
    values.iter().any(|value| is_word(word, value))
}

// Whether an argument is this word, of those that COUNT has.
fn is_word(word: Word, value: &Value) -> bool
    ensures { result ≡ Order.is_word word value.now }
{
    match (word, value) {
        (Word::Lines, Value::Word(Word::Lines)) => true,
        (Word::Words, Value::Word(Word::Words)) => true,
        (Word::Bytes, Value::Word(Word::Bytes)) => true,
        _ => false,
    }
}

// What an argument of COUNT counts.
fn total_of(value: &Value) -> Option<Total>
    ensures { result ≡ Order.total_of value.now }
{
    match value {
        Value::Word(Word::Lines) => Some(Total::Lines),
        Value::Word(Word::Words) => Some(Total::Words),
        Value::Word(Word::Bytes) => Some(Total::Bytes),
        _ => None,
    }
}

// What these arguments of COUNT count.
fn totals_of(alloc: Global, values: &[Value]) -> Result<Option<Vec<Total>>, NoMemory>
    ensures { IfOk result (λ totals. option_map (λ totals. totals.items) totals ≡ Order.totals_of values.now) }
{
    let mut totals = Vec::new(alloc);
    for value in values {
        let Some(total) = total_of(value) else {
            return Ok(None);
        };
        totals.push(total)?;
    }
    Ok(Some(totals))
}

/// COUNT with these arguments.
pub fn of_count(alloc: Global, values: &[Value]) -> Result<Option<Kind>, NoMemory>
    ensures { IfOk result (λ kind. kind ≡ Order.count_of (Order.totals_of values.now)) }
{
    match totals_of(alloc, values)? {
        Some(totals) if !totals.is_empty() => Ok(Some(Kind::Count(Totals::from_vec(totals)))),
        _ => Ok(None),
    }
}

/// What may come after these arguments of FBLOCK.
pub fn before_fblock(values: &[Value]) -> &'static [Part]
    ensures { result.now ≡ Order.before_fblock values.now }
{
    match values {
        [] => &[Part::Number {
            least: 1,
            most: GREATEST,
        }],
        [Value::Number(_)] => &[Part::Byte],
        _ => &[],
    }
}

/// FBLOCK with these arguments.
pub fn of_fblock(values: &[Value]) -> Option<Kind>
    ensures { result ≡ Order.of_fblock values.now }
{
    match values {
        [Value::Number(n)] => Some(Kind::Fblock {
            size: *n,
            fill: None,
        }),
        [Value::Number(n), Value::Byte(byte)] => Some(Kind::Fblock {
            size: *n,
            fill: Some(*byte),
        }),
        _ => None,
    }
}

/// What may come after these arguments of BLOCK.
pub fn before_block(values: &[Value]) -> &'static [Part]
    ensures { result.now ≡ Order.before_block values.now }
{
    match values {
        [] => &[Part::Number {
            least: 1,
            most: GREATEST,
        }],
        [Value::Number(_)] => &[
            Part::Word(Word::Fixed),
            Part::Word(Word::Linend),
            Part::Word(Word::String),
            Part::Word(Word::Sf),
        ],
        [Value::Number(_), Value::Word(Word::String)] => &[Part::String],
        _ => &[],
    }
}

/// BLOCK with these arguments.
pub fn of_block(alloc: Global, values: &[Value]) -> Result<Option<Kind>, NoMemory>
    ensures { IfOk result (λ kind. kind ≡ Order.of_block values.now) }
{
    let (size, image) = match values {
        [Value::Number(n), Value::Word(Word::Fixed)] => (*n, Image::Fixed),
        [Value::Number(n), Value::Word(Word::Linend)] => (*n, Image::Linend),
        [Value::Number(n), Value::Word(Word::Sf)] => (*n, Image::Sf),
        [
            Value::Number(n),
            Value::Word(Word::String),
            Value::String(string),
        ] => (*n, Image::Text(copy(alloc, string)?)),
        _ => return Ok(None),
    };
    Ok(Some(Kind::Block { size, image }))
}

/// What may come after these arguments of DEBLOCK.
pub fn before_deblock(values: &[Value]) -> &'static [Part]
    ensures { result.now ≡ Order.before_deblock values.now }
{
    match values {
        [] => &[
            Part::Word(Word::Fixed),
            Part::Word(Word::Linend),
            Part::Word(Word::String),
            Part::Word(Word::Sf),
        ],
        [Value::Word(Word::Fixed)] => &[Part::Number {
            least: 1,
            most: GREATEST,
        }],
        [Value::Word(Word::String)] => &[Part::String],
        _ => &[],
    }
}

/// DEBLOCK with these arguments.
pub fn of_deblock(alloc: Global, values: &[Value]) -> Result<Option<Kind>, NoMemory>
    ensures { IfOk result (λ kind. kind ≡ Order.of_deblock values.now) }
{
    let cutting = match values {
        [Value::Word(Word::Fixed), Value::Number(n)] => Cutting::Fixed(*n),
        [Value::Word(Word::Linend)] => Cutting::Linend,
        [Value::Word(Word::Sf)] => Cutting::Sf,
        [Value::Word(Word::String), Value::String(string)] => Cutting::Text(copy(alloc, string)?),
        _ => return Ok(None),
    };
    Ok(Some(Kind::Deblock(cutting)))
}
