ghost use Rattle.std.specs.Prelude.{◌≡◌, List, [], ℕ, IfOk, Some, None, if◌then◌else◌};
ghost use Rattle.std.specs.Option.{option_map};
ghost use Rattle.pipe_model.specs.declared.kind.Kind.{Kind};
ghost use Rattle.pipe_model.specs.declared.kind.Kind.TheVariants as Kinds;
ghost use Rattle.stage_syntax.specs.DeviceForms as Device;
ghost use Rattle.stage_syntax.specs.Rows.{text_in};

use crate::values::copy;
use argument_parts::{Part, Value};
use pipe_model::{Kind, NoMemory, Rec};
use std::alloc::Global;

/// What may come after these arguments of `<` or `>`.
pub fn before_name(values: &[Value]) -> &'static [Part]
    ensures { result.now ≡ Device.before_name values.now }
{
    match values {
        [] => &[Part::Name],
        _ => &[],
    }
}

// The name that these arguments give.
fn of_name(alloc: Global, values: &[Value]) -> Result<Option<Rec>, NoMemory>
    ensures { IfOk result (λ found. (kind : List ℕ → Kind) → Device.of_name kind values.now ≡ option_map kind found) }
{
    match values {
        [Value::String(name)] => Ok(Some(copy(alloc, name)?)),
        _ => Ok(None),
    }
}

/// `<` with these arguments, before its file is fetched.
pub fn file_in(alloc: Global, values: &[Value]) -> Result<Option<Kind>, NoMemory>
    ensures { IfOk result (λ kind. kind ≡ Device.of_name (λ name. Kinds.FileIn name None) values.now) }
{
    let Some(name) = of_name(alloc, values)? else {
        return Ok(None);
    };
    Ok(Some(Kind::FileIn { name, bytes: None }))
}

/// `>` with these arguments.
pub fn file_out(alloc: Global, values: &[Value]) -> Result<Option<Kind>, NoMemory>
    ensures { IfOk result (λ kind. kind ≡ Device.of_name Kinds.FileOut values.now) }
{
    let Some(name) = of_name(alloc, values)? else {
        return Ok(None);
    };
    Ok(Some(Kind::FileOut { name }))
}

/// CONSOLE, first in its pipeline or not, before it has any bytes.
pub fn console(alloc: Global, first: bool) -> Kind
    ensures { result ≡ (if first then Kinds.ConsoleIn [] else Kinds.ConsoleOut) }
{
    if first {
        Kind::ConsoleIn {
            bytes: Rec::from_vec(Vec::new(alloc)),
        }
    } else {
        Kind::ConsoleOut
    }
}

/// LITERAL with this text.
pub fn literal(alloc: Global, text: &[u8]) -> Result<Kind, NoMemory>
    ensures { IfOk result (λ kind. Device.literal_of (text_in text.now) ≡ Some kind) }
{
    let text = match text {
        [] => text,
        [_, text @ ..] => text,
    };
    Ok(Kind::Literal {
        text: Rec::from_slice(alloc, text)?,
    })
}
