ghost use Rattle.std.specs.Prelude.{◌≡◌, ◌≢◌, ◌≤◌, ℕ, List, length, drop, get_or, IfOk, IfErr, IfSome, MatchOption};
ghost use Rattle.argument_parts.specs.declared.part.Part.TheVariants as Asked;
ghost use Rattle.argument_parts.specs.declared.part.Value.{Value};
ghost use Rattle.argument_parts.specs.Parts.{IsNoPart, IsPart, IsPartMisfit};
ghost use Rattle.argument_parts.specs.Refusals.{Refuses, Wants};

use crate::bytes::byte;
use crate::counts::times;
use crate::fault::FaultKind;
use crate::keywords::keyword;
use crate::names::name;
use crate::number_words::number_in;
use crate::part::{Part, TextFault, Value, Word};
use crate::range_words::{columns, range};
use crate::refusal::Refusal;
use crate::spots::spot;
use crate::string_pairs::{any_string, two_strings};
use crate::text::string;
use crate::whole_numbers::{counter, whole};
use std::alloc::Global;

/// A part that was read, and how many bytes spell it.
#[derive(Drop)]
pub struct Taken {
    pub value: Value,
    pub len: usize,
}

/// The part at the front of a text, or None where the text doesn't begin as it does. The text isn't empty and doesn't begin with a
/// blank.
pub fn part_at(alloc: Global, part: Part, text: &[u8]) -> Result<Option<Taken>, Refusal>
    requires begins { get_or text.now 0 32 ≢ 32 }
    ensures within { IfOk result (λ found. IfSome found (λ taken. taken.len ≤ length text.now)) }
    ensures read { IfOk result (λ found. MatchOption found (IsNoPart part text.now) (λ taken. IsPart part text.now taken.value (drop taken.len text.now))) }
    ensures refused { IfErr result (Refuses (IsPartMisfit part text.now)) }
    ensures memory { IfErr result (Wants ((value : Value) × (rest : List ℕ) × IsPart part text.now value rest)) }
{
    match part {
        Part::Range => range_at(text),
        Part::Columns => columns_at(text),
        Part::String => string_at(alloc, text),
        Part::AnyString => any_string_at(alloc, text),
        Part::Strings => strings_at(alloc, text),
        Part::Byte => byte_at(text),
        Part::Number { least, most } => number_at(text, least, most),
        Part::Times => times_at(text),
        Part::Word(key) => Ok(word_at(text, key)),
        Part::Name => Ok(Some(name_at(alloc, text)?)),
        Part::Counter => Ok(counter_at(text)),
        Part::Whole => whole_at(text),
        Part::Spot => spot_at(text),
    }
}

// The range at the front of a text.
fn range_at(text: &[u8]) -> Result<Option<Taken>, Refusal>
    ensures within { IfOk result (λ found. IfSome found (λ taken. taken.len ≤ length text.now)) }
    ensures read { IfOk result (λ found. MatchOption found (IsNoPart Asked.Range text.now) (λ taken. IsPart Asked.Range text.now taken.value (drop taken.len text.now))) }
    ensures refused { IfErr result (Refuses (IsPartMisfit Asked.Range text.now)) }
    ensures memory { IfErr result (Wants ((value : Value) × (rest : List ℕ) × IsPart Asked.Range text.now value rest)) }
{
    match range(text)? {
        Some(spelled) => Ok(Some(Taken {
            value: Value::Range(spelled.range),
            len: spelled.len,
        })),
        None => Ok(None),
    }
}

// The range of columns at the front of a text.
fn columns_at(text: &[u8]) -> Result<Option<Taken>, Refusal>
    ensures within { IfOk result (λ found. IfSome found (λ taken. taken.len ≤ length text.now)) }
    ensures read { IfOk result (λ found. MatchOption found (IsNoPart Asked.Columns text.now) (λ taken. IsPart Asked.Columns text.now taken.value (drop taken.len text.now))) }
    ensures refused { IfErr result (Refuses (IsPartMisfit Asked.Columns text.now)) }
    ensures memory { IfErr result (Wants ((value : Value) × (rest : List ℕ) × IsPart Asked.Columns text.now value rest)) }
{
    match columns(text)? {
        Some(spelled) => Ok(Some(Taken {
            value: Value::Range(spelled.range),
            len: spelled.len,
        })),
        None => Ok(None),
    }
}

// The string at the front of a text, or None where the text begins with a word that other parts may fit.
fn string_at(alloc: Global, text: &[u8]) -> Result<Option<Taken>, Refusal>
    requires begins { get_or text.now 0 32 ≢ 32 }
    ensures within { IfOk result (λ found. IfSome found (λ taken. taken.len ≤ length text.now)) }
    ensures read { IfOk result (λ found. MatchOption found (IsNoPart Asked.String text.now) (λ taken. IsPart Asked.String text.now taken.value (drop taken.len text.now))) }
    ensures refused { IfErr result (Refuses (IsPartMisfit Asked.String text.now)) }
    ensures memory { IfErr result (Wants ((value : Value) × (rest : List ℕ) × IsPart Asked.String text.now value rest)) }
{
    match string(alloc, text) {
        Ok(spelled) => Ok(Some(Taken {
            value: Value::String(spelled.string),
            len: spelled.len,
        })),
        Err(
            Refusal::Fault(
                TextFault {
                    kind: FaultKind::UnknownWord,
                    ..
                },
            ),
        ) => Ok(None),
        Err(refusal) => Err(refusal),
    }
}

// The string at the front of a text, which may be empty.
fn any_string_at(alloc: Global, text: &[u8]) -> Result<Option<Taken>, Refusal>
    requires begins { get_or text.now 0 32 ≢ 32 }
    ensures within { IfOk result (λ found. IfSome found (λ taken. taken.len ≤ length text.now)) }
    ensures read { IfOk result (λ found. MatchOption found (IsNoPart Asked.AnyString text.now) (λ taken. IsPart Asked.AnyString text.now taken.value (drop taken.len text.now))) }
    ensures refused { IfErr result (Refuses (IsPartMisfit Asked.AnyString text.now)) }
    ensures memory { IfErr result (Wants ((value : Value) × (rest : List ℕ) × IsPart Asked.AnyString text.now value rest)) }
{
    match any_string(alloc, text)? {
        Some(spelled) => Ok(Some(Taken {
            value: Value::String(spelled.string),
            len: spelled.len,
        })),
        None => Ok(None),
    }
}

// The two strings at the front of a text.
fn strings_at(alloc: Global, text: &[u8]) -> Result<Option<Taken>, Refusal>
    requires begins { get_or text.now 0 32 ≢ 32 }
    ensures within { IfOk result (λ found. IfSome found (λ taken. taken.len ≤ length text.now)) }
    ensures read { IfOk result (λ found. MatchOption found (IsNoPart Asked.Strings text.now) (λ taken. IsPart Asked.Strings text.now taken.value (drop taken.len text.now))) }
    ensures refused { IfErr result (Refuses (IsPartMisfit Asked.Strings text.now)) }
    ensures memory { IfErr result (Wants ((value : Value) × (rest : List ℕ) × IsPart Asked.Strings text.now value rest)) }
{
    match two_strings(alloc, text)? {
        Some(spelled) => Ok(Some(Taken {
            value: Value::Strings(spelled.first, spelled.second),
            len: spelled.len,
        })),
        None => Ok(None),
    }
}

// The byte at the front of a text, or None where the text begins with a word that other parts may fit.
fn byte_at(text: &[u8]) -> Result<Option<Taken>, Refusal>
    requires begins { get_or text.now 0 32 ≢ 32 }
    ensures within { IfOk result (λ found. IfSome found (λ taken. taken.len ≤ length text.now)) }
    ensures read { IfOk result (λ found. MatchOption found (IsNoPart Asked.Byte text.now) (λ taken. IsPart Asked.Byte text.now taken.value (drop taken.len text.now))) }
    ensures refused { IfErr result (Refuses (IsPartMisfit Asked.Byte text.now)) }
    ensures memory { IfErr result (Wants ((value : Value) × (rest : List ℕ) × IsPart Asked.Byte text.now value rest)) }
{
    match byte(text) {
        Ok(spelled) => Ok(Some(Taken {
            value: Value::Byte(spelled.byte),
            len: spelled.len,
        })),
        Err(
            TextFault {
                kind: FaultKind::UnknownWord,
                ..
            },
        ) => Ok(None),
        Err(fault) => Err(Refusal::Fault(fault)),
    }
}

// The number at the front of a text.
fn number_at(text: &[u8], least: u32, most: u32) -> Result<Option<Taken>, Refusal>
    ensures within { IfOk result (λ found. IfSome found (λ taken. taken.len ≤ length text.now)) }
    ensures read { IfOk result (λ found. MatchOption found (IsNoPart (Asked.Number least most) text.now) (λ taken. IsPart (Asked.Number least most) text.now taken.value (drop taken.len text.now))) }
    ensures refused { IfErr result (Refuses (IsPartMisfit (Asked.Number least most) text.now)) }
    ensures memory { IfErr result (Wants ((value : Value) × (rest : List ℕ) × IsPart (Asked.Number least most) text.now value rest)) }
{
    match number_in(text, u64::from(least), u64::from(most))? {
        Some(spelled) => Ok(Some(Taken {
            value: Value::Number(spelled.value as u32),
            len: spelled.len,
        })),
        None => Ok(None),
    }
}

// The count at the front of a text.
fn times_at(text: &[u8]) -> Result<Option<Taken>, Refusal>
    ensures within { IfOk result (λ found. IfSome found (λ taken. taken.len ≤ length text.now)) }
    ensures read { IfOk result (λ found. MatchOption found (IsNoPart Asked.Times text.now) (λ taken. IsPart Asked.Times text.now taken.value (drop taken.len text.now))) }
    ensures refused { IfErr result (Refuses (IsPartMisfit Asked.Times text.now)) }
    ensures memory { IfErr result (Wants ((value : Value) × (rest : List ℕ) × IsPart Asked.Times text.now value rest)) }
{
    match times(text)? {
        Some(spelled) => Ok(Some(Taken {
            value: Value::Times(spelled.times),
            len: spelled.len,
        })),
        None => Ok(None),
    }
}

// The keyword at the front of a text.
fn word_at(text: &[u8], key: Word) -> Option<Taken>
    ensures within { IfSome result (λ taken. taken.len ≤ length text.now) }
    ensures read { MatchOption result (IsNoPart (Asked.Word key) text.now) (λ taken. IsPart (Asked.Word key) text.now taken.value (drop taken.len text.now)) }
{
    match keyword(text, key) {
        Some(len) => Some(Taken {
            value: Value::Word(key),
            len,
        }),
        None => None,
    }
}

// The name at the front of a text.
fn name_at(alloc: Global, text: &[u8]) -> Result<Taken, Refusal>
    ensures within { IfOk result (λ taken. taken.len ≤ length text.now) }
    ensures read { IfOk result (λ taken. IsPart Asked.Name text.now taken.value (drop taken.len text.now)) }
    ensures refused { IfErr result (Refuses (IsPartMisfit Asked.Name text.now)) }
    ensures memory { IfErr result (Wants ((value : Value) × (rest : List ℕ) × IsPart Asked.Name text.now value rest)) }
{
    let spelled = name(alloc, text)?;
    Ok(Taken {
        value: Value::String(spelled.string),
        len: spelled.len,
    })
}

// The counter at the front of a text.
fn counter_at(text: &[u8]) -> Option<Taken>
    ensures within { IfSome result (λ taken. taken.len ≤ length text.now) }
    ensures read { MatchOption result (IsNoPart Asked.Counter text.now) (λ taken. IsPart Asked.Counter text.now taken.value (drop taken.len text.now)) }
{
    match counter(text) {
        Some(k) => Some(Taken {
            value: Value::Counter(k),
            len: 2,
        }),
        None => None,
    }
}

// The whole number at the front of a text.
fn whole_at(text: &[u8]) -> Result<Option<Taken>, Refusal>
    ensures within { IfOk result (λ found. IfSome found (λ taken. taken.len ≤ length text.now)) }
    ensures read { IfOk result (λ found. MatchOption found (IsNoPart Asked.Whole text.now) (λ taken. IsPart Asked.Whole text.now taken.value (drop taken.len text.now))) }
    ensures refused { IfErr result (Refuses (IsPartMisfit Asked.Whole text.now)) }
    ensures memory { IfErr result (Wants ((value : Value) × (rest : List ℕ) × IsPart Asked.Whole text.now value rest)) }
{
    match whole(text)? {
        Some(spelled) => Ok(Some(Taken {
            value: Value::Whole(spelled.value),
            len: spelled.len,
        })),
        None => Ok(None),
    }
}

// The place of a field at the front of a text.
fn spot_at(text: &[u8]) -> Result<Option<Taken>, Refusal>
    ensures within { IfOk result (λ found. IfSome found (λ taken. taken.len ≤ length text.now)) }
    ensures read { IfOk result (λ found. MatchOption found (IsNoPart Asked.Spot text.now) (λ taken. IsPart Asked.Spot text.now taken.value (drop taken.len text.now))) }
    ensures refused { IfErr result (Refuses (IsPartMisfit Asked.Spot text.now)) }
    ensures memory { IfErr result (Wants ((value : Value) × (rest : List ℕ) × IsPart Asked.Spot text.now value rest)) }
{
    match spot(text)? {
        Some(spelled) => Ok(Some(Taken {
            value: Value::Spot(spelled.spot),
            len: spelled.len,
        })),
        None => Ok(None),
    }
}
