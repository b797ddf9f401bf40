ghost use Rattle.std.specs.Prelude.{◌≡◌};

use crate::range::Range;
use crate::record::Rec;
use std::marker::Model;

/// Where a field of SPECS comes from.
#[derive(Drop)]
pub enum Origin {
    /// A part of the record at hand.
    Cut(Range),
    /// The cycle's number.
    Number,
    Text(Rec),
    /// A counter, 0 to 9.
    Print(u8),
}

/// What is made of a field.
#[derive(Clone, Copy)]
pub enum Convert {
    /// Two hexadecimal digits for each byte.
    C2x,
    /// A byte for each two hexadecimal digits.
    X2c,
}

/// Where a field goes in the output; with a length in bytes it is made that long.
#[derive(Clone, Copy)]
pub enum Spot {
    /// From a column on, counted from 1.
    Column { first: u32, len: Option<u32> },
    /// Behind the output's end.
    Next { len: Option<u32> },
    /// One further, where the output isn't empty.
    NextWord { len: Option<u32> },
}

/// Which side of a field stays where it is filled or cut.
#[derive(Clone, Copy)]
pub enum Align {
    Left,
    Center,
    Right,
}

/// What a value does to a counter.
#[derive(Clone, Copy)]
pub enum SetOp {
    Put,
    Add,
    Subtract,
}

/// A value for a counter.
#[derive(Clone, Copy)]
pub enum Amount {
    Whole(i64),
    /// A counter, 0 to 9.
    Counter(u8),
    /// The number that a part of the record at hand spells.
    Number(Range),
}

/// What SPECS does in turn.
#[derive(Drop)]
pub enum Item {
    /// Puts a field into the output.
    Field {
        origin: Origin,
        strip: bool,
        convert: Option<Convert>,
        spot: Spot,
        align: Align,
    },
    /// Makes the next record the one at hand.
    Read,
    /// Writes the output and empties it.
    Write,
    /// Sets the byte that fills.
    Pad(u8),
    /// Changes a counter, 0 to 9.
    Set {
        counter: u8,
        op: SetOp,
        amount: Amount,
    },
}

/// Items in order, seen as a list.
#[derive(Drop)]
pub struct Items {
    items: Vec<Item>,
}

impl Model for Items {
    ghost use Rattle.std.specs.Prelude.{List};
    ghost use Rattle.pipe_model.specs.declared.items.Item.{Item};

    ghost Value = { List Item };

    ghost view = { λ items. items.items.items };
}

impl Items {
    /// These items, which takes no memory.
    pub fn from_vec(items: Vec<Item>) -> Items
        ensures { result ≡ items.items }
    {
        Items { items }
    }

    /// The items one by one.
    pub fn as_slice(&self) -> &[Item]
        ensures { result.now ≡ self.now }
    {
        &self.items
    }
}
