ghost use Rattle.std.specs.Prelude.{◌≡◌};
ghost use Rattle.pipe_model.specs.declared.kind.Kind.TheVariants as Kinds;
ghost use Rattle.stage_syntax.specs.Forms as Shared;
ghost use Rattle.stage_syntax.specs.Names as Names;

use crate::values::all_columns;
use argument_parts::{Part, Value};
use pipe_model::{Kind, Range, Times};

/// What may come after these arguments of a stage that has one range.
pub fn before_range(values: &[Value]) -> &'static [Part]
    ensures { result.now ≡ Shared.before_range values.now }
{
    match values {
        [] => &[Part::Range],
        _ => &[],
    }
}

/// MERGE with these arguments.
pub fn merge(values: &[Value]) -> Option<Kind>
    ensures { result ≡ Shared.of_range Kinds.Merge values.now }
{
    match values {
        [] => Some(Kind::Merge(all_columns())),
        [Value::Range(range)] => Some(Kind::Merge(*range)),
        _ => None,
    }
}

/// What may come after these arguments of LOOKUP or COLLATE.
pub fn before_ranges(values: &[Value]) -> &'static [Part]
    ensures { result.now ≡ Shared.before_ranges values.now }
{
    match values {
        [] | [Value::Range(_)] => &[Part::Range],
        _ => &[],
    }
}

/// LOOKUP with these arguments.
pub fn lookup(values: &[Value]) -> Option<Kind>
    ensures { result ≡ Shared.of_ranges Kinds.Lookup values.now }
{
    match values {
        [] => Some(Kind::Lookup {
            details: all_columns(),
            masters: all_columns(),
        }),
        [Value::Range(range)] => Some(Kind::Lookup {
            details: *range,
            masters: *range,
        }),
        [Value::Range(details), Value::Range(masters)] => Some(Kind::Lookup {
            details: *details,
            masters: *masters,
        }),
        _ => None,
    }
}

/// COLLATE with these arguments.
pub fn collate(values: &[Value]) -> Option<Kind>
    ensures { result ≡ Shared.of_ranges Kinds.Collate values.now }
{
    match values {
        [] => Some(Kind::Collate {
            masters: all_columns(),
            details: all_columns(),
        }),
        [Value::Range(range)] => Some(Kind::Collate {
            masters: *range,
            details: *range,
        }),
        [Value::Range(masters), Value::Range(details)] => Some(Kind::Collate {
            masters: *masters,
            details: *details,
        }),
        _ => None,
    }
}

/// What may come after these arguments of OVERLAY.
pub fn before_overlay(values: &[Value]) -> &'static [Part]
    ensures { result.now ≡ Names.before_overlay values.now }
{
    match values {
        [] => &[Part::Byte],
        _ => &[],
    }
}

/// OVERLAY with these arguments.
pub fn overlay(values: &[Value]) -> Option<Kind>
    ensures { result ≡ Names.of_overlay values.now }
{
    match values {
        [] => Some(Kind::Overlay(b' ')),
        [Value::Byte(byte)] => Some(Kind::Overlay(*byte)),
        _ => None,
    }
}
