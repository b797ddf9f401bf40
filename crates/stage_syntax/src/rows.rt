ghost use Rattle.std.specs.Prelude.{◌≡◌, Bool, [], ◌∷◌, ◌++◌, OnOk, IfOk, IfErr, None, Some};
ghost use Rattle.argument_parts.specs.declared.fault.FaultKind.TheVariants.{Missing};
ghost use Rattle.argument_parts.specs.declared.refusal.Refusal.TheVariants as Refused;
ghost use Rattle.stage_syntax.specs.Kinds.{IsKind, IsNoKind, refusal_placed};
ghost use Rattle.argument_parts.specs.Refusals.{Refuses};
ghost use Rattle.stage_syntax.specs.Rows.{Fails, HasFault, Makes, Reads, text_in};
ghost use Rattle.stage_syntax.specs.StageForms.{arguments_by, make_in, row_in};

use crate::arg::Arg;
use crate::fault::KindFault;
use crate::form::{Form, has_text, kind_by, parts_after, text_kind, wrong_of};
use crate::item_parts::Progress;
use crate::stages::form_named;
use argument_parts::{ArgFault, Argument, FaultKind, Refusal, TextFault, Value, next_part};
use pipe_model::{Kind, NoMemory};
use std::alloc::Global;

/// The kind of the stage of this name with this argument; `first` says that it stands first in its pipeline.
pub fn kind_of(alloc: Global, name: &[u8], arg: &Arg, first: bool) -> Result<Kind, KindFault>
    ensures read { IfOk result (IsKind name.now arg.now first) }
    ensures refused { IfErr result (IsNoKind name.now arg.now first) }
{
    let Some(form) = form_named(name) else {
        return Err(KindFault::Unknown);
    };
    match arguments_as(alloc, form, first, arg.bytes()) {
        Ok(kind) => Ok(kind),
        Err(refusal) => Err(placed(arg, refusal)),
    }
}

// Why nothing was read of an argument's text, with the fault at its place in the specification.
fn placed(arg: &Arg, refusal: Refusal) -> KindFault
    ensures { result ≡ refusal_placed arg.now refusal }
{
    match refusal {
        Refusal::Fault(fault) => KindFault::Argument(ArgFault {
            place: arg.place(arg.bytes().len().saturating_sub(fault.left)),
            kind: fault.kind,
        }),
        Refusal::NoMemory => KindFault::NoMemory,
    }
}

/// The kind that arguments of this form make.
pub fn arguments_as(alloc: Global, form: Form, first: bool, text: &[u8]) -> Result<Kind, Refusal>
    ensures read { IfOk result (Reads (arguments_by form first) text.now) }
    ensures refused { IfErr result (Refuses (HasFault (arguments_by form first) text.now)) }
{
    if has_text(form) {
        read_text(alloc, form, text)
    } else {
        read_parts(alloc, form, first, text)
    }
}

// The kind that TEXT makes.
fn read_text(alloc: Global, form: Form, text: &[u8]) -> Result<Kind, Refusal>
    ensures read { IfOk result (λ kind. (first : Bool) → make_in (arguments_by form first) (text_in text.now) ≡ Some kind) }
    ensures refused { IfErr result (Refuses (λ fault. (first : Bool) → (make_in (arguments_by form first) (text_in text.now) ≡ None) × (fault ≡ record { left = 0; kind = Missing }))) }
{
    match text_kind(alloc, form, text)? {
        Some(kind) => Ok(kind),
        None => Err(missing()),
    }
}

// A required argument isn't there.
fn missing() -> Refusal
    ensures { result ≡ Refused.Fault (record { left = 0; kind = Missing }) }
{
    Refusal::Fault(TextFault {
        left: 0,
        kind: FaultKind::Missing,
    })
}

// The kind that arguments make which are read one after another.
fn read_parts(alloc: Global, form: Form, first: bool, text: &[u8]) -> Result<Kind, Refusal>
    ensures read { IfOk result (Makes (row_in (arguments_by form first)) [] [] text.now) }
    ensures refused { IfErr result (Refuses (Fails (row_in (arguments_by form first)) [] [] text.now)) }
{
    let mut values: Vec<Value> = Vec::new(alloc);
    let mut lefts: Vec<usize> = Vec::new(alloc);
    let mut progress = Progress::new();
    let mut rest = text;
    while let Some(Argument { value, left, len }) = next_part(
        alloc,
        parts_after(form, &values, progress),
        rest,
    )? {
        progress = progress.after(&value);
        keep(&mut values, &mut lefts, value, left)?;
        if let Some(fault) = wrong_of(form, &values, &lefts) {
            return Err(Refusal::Fault(fault));
        }
        rest = &rest[len..];
    }
    match kind_by(alloc, form, first, &values)? {
        Some(kind) => Ok(kind),
        None => Err(missing()),
    }
}

// Adds an argument that begins where so many bytes are left.
fn keep(
    values: &mut Vec<Value>,
    lefts: &mut Vec<usize>,
    value: Value,
    left: usize,
) -> Result<(), NoMemory>
    ensures value { OnOk result (values.new.items ≡ values.old.items ++ value ∷ []) }
    ensures left { OnOk result (lefts.new.items ≡ lefts.old.items ++ left ∷ []) }
{
    values.push(value)?;
    lefts.push(left)?;
    Ok(())
}
