ghost use Rattle.std.specs.Prelude.{◌≡◌, ◌||◌, is_some};
ghost use Rattle.argument_parts.specs.declared.part.Value.{Value};
ghost use Rattle.stage_syntax.specs.ItemForms.{Draft, begun, draft_after, due_of, nothing_read, parts_at, progress_of};

use argument_parts::{Part, Value, Word};

/// What comes next among the items of SPECS.
#[derive(Clone, Copy, Debug, PartialEq, Eq)]
pub enum Due {
    /// The first item.
    First,
    /// Another item.
    Item,
    /// The counter of PRINT.
    Printed,
    /// STRIP, C2X, X2C or the place of a field.
    Strip,
    /// C2X, X2C or the place.
    Convert,
    /// The place.
    Place,
    /// How the field is aligned, or another item.
    Align,
    /// The byte of PAD.
    Byte,
    /// The counter of SET.
    Counter,
    /// `=`, `+=` or `-=`
    Op,
    /// A value for a counter.
    Amount,
    /// The range of NUM.
    Range,
}

/// How far the items of SPECS were read.
#[derive(Clone, Copy, Debug, PartialEq, Eq)]
pub struct Progress {
    pub due: Due,
    /// They are those behind EOF.
    pub in_eof: bool,
}

impl Progress {
    /// Before the first item.
    pub fn new() -> Progress
        ensures { result ≡ progress_of nothing_read }
    {
        Progress {
            due: Due::First,
            in_eof: false,
        }
    }

    /// With one more argument. The time doesn't grow with those before it.
    pub fn after(self, value: &Value) -> Progress
        ensures { (d : Draft) → progress_of d ≡ self → progress_of (draft_after d value.now) ≡ result }
    {
        Progress {
            due: due_after(self.due, value),
            in_eof: self.in_eof || is_eof(self.due, value),
        }
    }

    /// What may come next.
    pub fn parts(self) -> &'static [Part]
        ensures { result.now ≡ parts_at self }
    {
        // The items, and those of the list behind EOF, which has no READ.
        match (self.due, self.in_eof) {
            (Due::First, _) => &[
                Part::Range,
                Part::Word(Word::Number),
                Part::AnyString,
                Part::Word(Word::Print),
                Part::Word(Word::Read),
                Part::Word(Word::Write),
                Part::Word(Word::Pad),
                Part::Word(Word::Set),
            ],
            (Due::Item, false) => &[
                Part::Range,
                Part::Word(Word::Number),
                Part::AnyString,
                Part::Word(Word::Print),
                Part::Word(Word::Read),
                Part::Word(Word::Write),
                Part::Word(Word::Pad),
                Part::Word(Word::Set),
                Part::Word(Word::Eof),
            ],
            (Due::Item, true) => &[
                Part::Range,
                Part::Word(Word::Number),
                Part::AnyString,
                Part::Word(Word::Print),
                Part::Word(Word::Write),
                Part::Word(Word::Pad),
                Part::Word(Word::Set),
            ],
            (Due::Align, false) => &[
                Part::Word(Word::Left),
                Part::Word(Word::Center),
                Part::Word(Word::Right),
                Part::Range,
                Part::Word(Word::Number),
                Part::AnyString,
                Part::Word(Word::Print),
                Part::Word(Word::Read),
                Part::Word(Word::Write),
                Part::Word(Word::Pad),
                Part::Word(Word::Set),
                Part::Word(Word::Eof),
            ],
            (Due::Align, true) => &[
                Part::Word(Word::Left),
                Part::Word(Word::Center),
                Part::Word(Word::Right),
                Part::Range,
                Part::Word(Word::Number),
                Part::AnyString,
                Part::Word(Word::Print),
                Part::Word(Word::Write),
                Part::Word(Word::Pad),
                Part::Word(Word::Set),
            ],
            (Due::Printed | Due::Counter, _) => &[Part::Counter],
            (Due::Strip, _) => &[
                Part::Word(Word::Strip),
                Part::Word(Word::C2x),
                Part::Word(Word::X2c),
                Part::Spot,
            ],
            (Due::Convert, _) => &[Part::Word(Word::C2x), Part::Word(Word::X2c), Part::Spot],
            (Due::Place, _) => &[Part::Spot],
            (Due::Byte, _) => &[Part::Byte],
            (Due::Op, _) => &[
                Part::Word(Word::Put),
                Part::Word(Word::Add),
                Part::Word(Word::Subtract),
            ],
            (Due::Amount, _) => &[Part::Whole, Part::Counter, Part::Word(Word::Num)],
            (Due::Range, _) => &[Part::Range],
        }
    }
}

// Whether an argument is EOF and may be it.
fn is_eof(due: Due, value: &Value) -> bool
    ensures { (d : Draft) → due_of d.state ≡ due → is_some (draft_after d value.now).before ≡ (is_some d.before || result) }
{
    matches!(
        (due, value),
        (Due::First | Due::Item | Due::Align, Value::Word(Word::Eof)),
    )
}

// What comes next behind the first argument of an item, or EOF.
fn due_behind(due: Due, value: &Value) -> Due
    ensures { (d : Draft) → due_of d.state ≡ due → due_of (begun value.now d).state ≡ result }
{
    match value {
        Value::Range(_) | Value::String(_) | Value::Word(Word::Number) => Due::Strip,
        Value::Word(Word::Print) => Due::Printed,
        Value::Word(Word::Read | Word::Write | Word::Eof) => Due::Item,
        Value::Word(Word::Pad) => Due::Byte,
        Value::Word(Word::Set) => Due::Counter,
        _ => due,
    }
}

// What comes next behind an argument.
fn due_after(due: Due, value: &Value) -> Due
    ensures { (d : Draft) → due_of d.state ≡ due → due_of (draft_after d value.now).state ≡ result }
{
    match (due, value) {
        (Due::First | Due::Item, _) => due_behind(due, value),
        (Due::Align, Value::Word(Word::Left | Word::Center | Word::Right)) => Due::Item,
        (Due::Align, _) => due_behind(Due::Item, value),
        (Due::Printed, Value::Counter(_)) => Due::Strip,
        (Due::Strip | Due::Convert | Due::Place, Value::Spot(_)) => Due::Align,
        (Due::Strip | Due::Convert, Value::Word(Word::Strip)) => Due::Convert,
        (Due::Strip | Due::Convert, Value::Word(Word::C2x | Word::X2c)) => Due::Place,
        (Due::Byte, Value::Byte(_)) => Due::Item,
        (Due::Counter, Value::Counter(_)) => Due::Op,
        (Due::Op, Value::Word(Word::Put | Word::Add | Word::Subtract)) => Due::Amount,
        (Due::Amount, Value::Whole(_) | Value::Counter(_)) => Due::Item,
        (Due::Amount, Value::Word(Word::Num)) => Due::Range,
        (Due::Range, Value::Range(_)) => Due::Item,
        _ => due,
    }
}
