ghost use Rattle.std.specs.Prelude.{◌≡◌, false, [], IfOk, OnOk};
ghost use Rattle.std.specs.declared.option.Option.TheVariants.{None, Some};
ghost use Rattle.pipe_model.specs.declared.items.Item.TheVariants.{Field};
ghost use Rattle.stage_syntax.specs.declared.item_lists.ItemState.TheVariants.{Between, Counting, Giving, Putting};
ghost use Rattle.argument_parts.specs.declared.part.Value.TheVariants as Read;
ghost use Rattle.stage_syntax.specs.ItemForms as Forms;
ghost use Rattle.stage_syntax.specs.ItemForms.{Draft};
ghost use Rattle.stage_syntax.specs.ItemLists.{IsDraft};

use crate::values::copy;
use argument_parts::{Value, Word};
use pipe_model::{Align, Amount, Convert, Item, Items, Kind, NoMemory, Origin, SetOp, Spot};
use std::alloc::Global;
use std::mem;

/// An item of SPECS that isn't whole yet.
#[derive(Drop)]
pub enum ItemState {
    /// Before the first item.
    Front,
    /// Behind an item that is whole.
    Between,
    /// PRINT lacks its counter.
    Printing,
    /// A field, which is stripped or converted, lacks its place.
    Putting(Origin, bool, Option<Convert>),
    /// A field may be aligned.
    Placing(Origin, bool, Option<Convert>, Spot),
    /// PAD lacks its byte.
    Padding,
    /// SET lacks its counter.
    Setting,
    /// SET lacks its operator.
    Counting(u8),
    /// SET lacks its value.
    Giving(u8, SetOp),
    /// NUM lacks its range.
    Numbering(u8, SetOp),
}

/// What was read of the arguments of SPECS.
#[derive(Drop)]
pub struct ItemLists {
    // The whole items of the list that is read.
    items: Vec<Item>,
    // The list before EOF, where that came.
    before: Option<Items>,
    state: ItemState,
}

/// SPECS with these arguments, or None where one is missing. The time is linear in them.
pub fn of_specs(alloc: Global, values: &[Value]) -> Result<Option<Kind>, NoMemory>
    ensures { IfOk result (λ kind. kind ≡ Forms.of_specs values.now) }
{
    let mut lists = ItemLists::new(alloc);
    for value in values {
        lists.take(alloc, value)?;
    }
    lists.finish()
}

impl ItemLists {
    // Before the first argument.
    fn new(alloc: Global) -> ItemLists
        ensures { IsDraft result Forms.nothing_read }
    {
        ItemLists {
            items: Vec::new(alloc),
            before: None,
            state: ItemState::Front,
        }
    }

    // Adds an item that is whole.
    fn add(&mut self, item: Item) -> Result<(), NoMemory>
        ensures { OnOk result ((d : Draft) → IsDraft self.old d → IsDraft self.new (Forms.with_item item d)) }
    {
        self.items.push(item)?;
        self.state = ItemState::Between;
        Ok(())
    }

    // Begins the list behind EOF.
    fn begin_eof(&mut self, alloc: Global)
        ensures { (d : Draft) → IsDraft self.old d → IsDraft self.new (record { items = []; before = Some d.items; state = Between }) }
    {
        let items = mem::replace(&mut self.items, Vec::new(alloc));
        self.before = Some(Items::from_vec(items));
        self.state = ItemState::Between;
    }

    // The first argument of an item, or EOF.
    fn begin(&mut self, alloc: Global, value: &Value) -> Result<(), NoMemory>
        ensures { OnOk result ((d : Draft) → IsDraft self.old d → IsDraft self.new (Forms.begun value.now d)) }
    {
        match value {
            Value::Range(range) => self.state = unplaced(Origin::Cut(*range)),
            Value::String(string) => self.state = unplaced(Origin::Text(copy(alloc, string)?)),
            Value::Word(word) => return self.begin_word(alloc, *word),
            _ => {}
        }
        Ok(())
    }

    // The keyword that an item begins with, or EOF.
    fn begin_word(&mut self, alloc: Global, word: Word) -> Result<(), NoMemory>
        ensures { OnOk result ((d : Draft) → IsDraft self.old d → IsDraft self.new (Forms.begun (Read.Word word) d)) }
    {
        match word {
            Word::Number => self.state = unplaced(Origin::Number),
            Word::Print => self.state = ItemState::Printing,
            Word::Read => return self.add(Item::Read),
            Word::Write => return self.add(Item::Write),
            Word::Pad => self.state = ItemState::Padding,
            Word::Set => self.state = ItemState::Setting,
            Word::Eof => self.begin_eof(alloc),
            _ => {}
        }
        Ok(())
    }

    // One more argument.
    fn take(&mut self, alloc: Global, value: &Value) -> Result<(), NoMemory>
        ensures { OnOk result ((d : Draft) → IsDraft self.old d → IsDraft self.new (Forms.draft_after d value.now)) }
    {
        match (mem::replace(&mut self.state, ItemState::Between), value) {
            (ItemState::Printing, Value::Counter(k)) => self.state = unplaced(Origin::Print(*k)),
            (ItemState::Padding, Value::Byte(byte)) => return self.add(Item::Pad(*byte)),
            (ItemState::Setting, Value::Counter(k)) => self.state = ItemState::Counting(*k),
            (ItemState::Counting(k), value) => self.state = counting(k, value),
            (ItemState::Numbering(counter, op), Value::Range(range)) => return self.add(
                Item::Set {
                    counter,
                    op,
                    amount: Amount::Number(*range),
                },
            ),
            (ItemState::Giving(counter, op), value) => return self.give(counter, op, value),
            (ItemState::Putting(origin, strip, convert), value) => self.state = putting(
                origin, strip, convert, value,
            ),
            (ItemState::Placing(origin, strip, convert, spot), value) => return self.align(
                alloc, origin, strip, convert, spot, value,
            ),
            (ItemState::Front, value) => {
                self.state = ItemState::Front;
                return self.begin(alloc, value);
            }
            (ItemState::Between, value) => return self.begin(alloc, value),
            (state, _) => self.state = state,
        }
        Ok(())
    }

    // A value for a counter, or NUM.
    fn give(&mut self, counter: u8, op: SetOp, value: &Value) -> Result<(), NoMemory>
        ensures { OnOk result ((d : Draft) → IsDraft self.old (Forms.with_state Between d) → d.state ≡ Giving counter op → IsDraft self.new (Forms.given counter op value.now d)) }
    {
        match value {
            Value::Whole(number) => self.add(Item::Set {
                counter,
                op,
                amount: Amount::Whole(*number),
            }),
            Value::Counter(other) => self.add(Item::Set {
                counter,
                op,
                amount: Amount::Counter(*other),
            }),
            Value::Word(Word::Num) => {
                self.state = ItemState::Numbering(counter, op);
                Ok(())
            }
            _ => {
                self.state = ItemState::Giving(counter, op);
                Ok(())
            }
        }
    }

    // The field is whole, and where it isn't aligned the next item begins.
    fn align(
        &mut self,
        alloc: Global,
        origin: Origin,
        strip: bool,
        convert: Option<Convert>,
        spot: Spot,
        value: &Value,
    ) -> Result<(), NoMemory>
        ensures { OnOk result ((d : Draft) → IsDraft self.old (Forms.with_state Between d) → IsDraft self.new (Forms.with_field (Field origin strip convert spot) (Forms.align_of value.now) value.now d)) }
    {
        let align = align_of(value);
        self.add(Item::Field {
            origin,
            strip,
            convert,
            spot,
            align: align.unwrap_or(Align::Left),
        })?;
        if align.is_none() {
            return self.begin(alloc, value);
        }
        Ok(())
    }

    // What the arguments make, where none is missing.
    fn finish(mut self) -> Result<Option<Kind>, NoMemory>
        ensures { IfOk result (λ kind. (d : Draft) → IsDraft self d → kind ≡ Forms.made_by d.state d) }
    {
        match mem::replace(&mut self.state, ItemState::Between) {
            ItemState::Between => {}
            ItemState::Placing(origin, strip, convert, spot) => self.items.push(Item::Field {
                origin,
                strip,
                convert,
                spot,
                align: Align::Left,
            })?,
            _ => return Ok(None),
        }
        Ok(Some(lists_of(self.before, Items::from_vec(self.items))))
    }
}

// SPECS with the list before EOF, if that came, and the list that was read last.
fn lists_of(before: Option<Items>, items: Items) -> Kind
    ensures { result ≡ Forms.lists_of before items }
{
    match before {
        Some(before) => Kind::Specs {
            items: before,
            eof: Some(items),
        },
        None => Kind::Specs { items, eof: None },
    }
}

// How a field is aligned, where an argument says so.
fn align_of(value: &Value) -> Option<Align>
    ensures { result ≡ Forms.align_of value.now }
{
    match value {
        Value::Word(Word::Left) => Some(Align::Left),
        Value::Word(Word::Center) => Some(Align::Center),
        Value::Word(Word::Right) => Some(Align::Right),
        _ => None,
    }
}

// A field that lacks its place, of which nothing is made yet.
fn unplaced(origin: Origin) -> ItemState
    ensures { result ≡ Putting origin false None }
{
    ItemState::Putting(origin, false, None)
}

// SET with an operator, or without it still.
fn counting(counter: u8, value: &Value) -> ItemState
    ensures { (d : Draft) → d.state ≡ Counting counter → Forms.with_op counter (Forms.op_of value.now) d ≡ Forms.with_state result d }
{
    match value {
        Value::Word(Word::Put) => ItemState::Giving(counter, SetOp::Put),
        Value::Word(Word::Add) => ItemState::Giving(counter, SetOp::Add),
        Value::Word(Word::Subtract) => ItemState::Giving(counter, SetOp::Subtract),
        _ => ItemState::Counting(counter),
    }
}

// A field with what is to be made of it, or with its place.
fn putting(origin: Origin, strip: bool, convert: Option<Convert>, value: &Value) -> ItemState
    ensures { (d : Draft) → d.state ≡ Putting origin strip convert → Forms.put origin strip convert value.now d ≡ Forms.with_state result d }
{
    match value {
        Value::Word(Word::Strip) => ItemState::Putting(origin, true, convert),
        Value::Word(Word::C2x) => ItemState::Putting(origin, strip, Some(Convert::C2x)),
        Value::Word(Word::X2c) => ItemState::Putting(origin, strip, Some(Convert::X2c)),
        Value::Spot(spot) => ItemState::Placing(origin, strip, convert, *spot),
        _ => ItemState::Putting(origin, strip, convert),
    }
}
