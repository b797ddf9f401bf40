//! Values that several forms make.
ghost use Rattle.std.specs.Prelude.{◌≡◌, IfOk};
ghost use Rattle.pipe_model.specs.Straight as Ranges;

use pipe_model::{NoMemory, Range, Rec, Span};
use std::alloc::Global;

// The string once more.
pub(crate) fn copy(alloc: Global, string: &Rec) -> Result<Rec, NoMemory>
    ensures { IfOk result (λ copy. copy ≡ string.now) }
{
    Rec::from_slice(alloc, string.bytes())
}

// All columns, where no range is given.
pub(crate) fn all_columns() -> Range
    ensures { result ≡ Ranges.all_columns }
{
    Range {
        span: Span::Columns,
        first: 1,
        last: None,
    }
}
