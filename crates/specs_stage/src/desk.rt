ghost use Rattle.std.specs.Prelude.{◌≡◌, ◌<◌, ◌≤◌, List, [], ◌∷◌, ◌++◌, ℕ, drop, IfOk, IfSome, OnOk, option_map, if◌then◌else◌, length, Some, None, false, is_some};
ghost use Rattle.pipe_model.specs.declared.items.Item.TheVariants.{Field, Write, Set};
ghost use Rattle.pipe_model.specs.Fields.{field_stripped, converted};
ghost use Rattle.pipe_model.specs.Shape.{Records};
ghost use Rattle.pipe_model.specs.SpecsRows.{counter, origin_of, amount_of, effect, run, at_first, begun, closed, first_of_all, has_unwritten};
ghost use Rattle.specs_stage.specs.Desks.{desk_of, set_value, with_counter, origin_from, is_read, before_read, with_output_written, with_written};

use crate::hand::{Hand, Word};
use crate::hex_digits::{add_from_hex, add_to_hex};
use crate::numbers::{
    add_in_ten_places, add_signed_decimal, counter_after, number_in, without_blanks,
};
use crate::output::put;
use pipe_model::{Align, Amount, Convert, Item, NoMemory, Origin, Rec, SetOp, Spot};
use std::alloc::Global;
use std::mem;

// What the items of a SPECS have made so far.
#[derive(Drop)]
pub struct Desk {
    // #0 to #9
    counters: [i64; 10],
    // The cycle's number.
    number: u64,
    output: Vec<u8>,
    // The byte that fills.
    pad: u8,
    // What the cycle wrote.
    written: Vec<Rec>,
    // Room for the digits of a field, and for a field that is converted.
    digits: Vec<u8>,
    room: Vec<u8>,
    // Room for the words of a record.
    words: Vec<Word>,
}

// Makes `room` what is made of a field, where it can be converted. Where it can't, `false` says so.
fn convert_into(room: &mut Vec<u8>, convert: Convert, field: &[u8]) -> Result<bool, NoMemory>
    ensures { IfOk result (λ good. converted (Some convert) field.now ≡ (if good then Some room.new.items else None)) }
{
    room.clear();
    match convert {
        Convert::C2x => {
            add_to_hex(room, field)?;
            Ok(true)
        }
        Convert::X2c => add_from_hex(room, field),
    }
}

// The field that is converted, where it can be; `room` is for what is made of it.
fn converted<'a>(
    convert: Option<Convert>,
    field: &'a [u8],
    room: &'a mut Vec<u8>,
) -> Result<Option<&'a [u8]>, NoMemory>
    ensures { IfOk result (λ made. option_map (λ bytes. bytes.now) made ≡ converted convert field.now) }
{
    match convert {
        None => Ok(Some(field)),
        Some(convert) => {
            if convert_into(room, convert, field)? {
                Ok(Some(room))
            } else {
                Ok(None)
            }
        }
    }
}

// The field without the blanks at its ends, where that is said.
fn stripped(strip: bool, field: &[u8]) -> &[u8]
    ensures { result.now ≡ field_stripped strip field.now }
{
    if strip { without_blanks(field) } else { field }
}

// The bytes of an origin; `digits` is for those of a number.
fn origin_of<'a, 'rec: 'a>(
    origin: &'a Origin,
    number: u64,
    counter: i64,
    hand: &mut Hand<'rec>,
    digits: &'a mut Vec<u8>,
) -> Result<&'a [u8], NoMemory>
    ensures stays { hand.new ≡ hand.old }
    ensures bytes { IfOk result (λ bytes. bytes.now ≡ origin_from origin.now number counter hand.old) }
{
    digits.clear();
    match origin {
        Origin::Cut(range) => hand.part(*range),
        Origin::Text(text) => Ok(text.bytes()),
        Origin::Number => {
            add_in_ten_places(digits, number)?;
            Ok(digits)
        }
        Origin::Print(_) => {
            add_signed_decimal(digits, counter)?;
            Ok(digits)
        }
    }
}

// Whether a field stands behind the last WRITE, or anywhere where there is none.
fn has_unwritten(items: &[Item]) -> bool
    ensures { result ≡ has_unwritten false items.now }
{
    let mut is_unwritten = false;
    for item in items {
        match item {
            Item::Field { .. } => is_unwritten = true,
            Item::Write => is_unwritten = false,
            _ => {}
        }
    }
    is_unwritten
}

impl Desk {
    // Before the first cycle.
    pub(crate) fn new(alloc: Global) -> Desk
        ensures { desk_of result [] [] ≡ at_first }
    {
        Desk {
            counters: [0; 10],
            number: 0,
            output: Vec::new(alloc),
            pad: b' ',
            written: Vec::new(alloc),
            digits: Vec::new(alloc),
            room: Vec::new(alloc),
            words: Vec::new(alloc),
        }
    }

    // Begins the next cycle.
    pub(crate) fn begin(&mut self)
        ensures { self.old.number ≤ 50000000 → (hand : List ℕ) (coming recs : Records) → desk_of self.new (first_of_all recs) (drop 1 recs) ≡ begun (desk_of self.old hand coming) recs }
    {
        self.number = self.number.saturating_add(1);
        self.output.clear();
        self.pad = b' ';
        self.written.clear();
    }

    // Writes the output, and doesn't empty it.
    fn add_output(&mut self, alloc: Global) -> Result<(), NoMemory>
        ensures { OnOk result ((hand : List ℕ) (coming : Records) → desk_of self.new hand coming ≡ with_output_written (desk_of self.old hand coming)) }
    {
        let rec = Rec::from_slice(alloc, &self.output)?;
        self.written.push(rec)?;
        Ok(())
    }

    // Ends a cycle: the output is written where a field was put into it behind the last WRITE.
    pub(crate) fn close(&mut self, alloc: Global, items: &[Item]) -> Result<(), NoMemory>
        ensures { OnOk result ((hand : List ℕ) (coming : Records) → desk_of self.new hand coming ≡ closed items.now (desk_of self.old hand coming)) }
    {
        if has_unwritten(items) {
            self.add_output(alloc)?;
        }
        Ok(())
    }

    // Gives away what the cycle wrote, for some records whose place is used again.
    pub(crate) fn give(&mut self, due: &mut Vec<Rec>)
        ensures due { due.new.items ≡ self.old.written.items }
        ensures number { self.new.number ≡ self.old.number }
        ensures left { (wrote : Records) (hand : List ℕ) (coming : Records) → with_written wrote (desk_of self.new hand coming) ≡ with_written wrote (desk_of self.old hand coming) }
    {
        mem::swap(&mut self.written, due);
    }

    // Gives away what the cycle wrote, behind some records.
    pub(crate) fn give_behind(&mut self, due: &mut Vec<Rec>) -> Result<(), NoMemory>
        ensures { OnOk result (due.new.items ≡ due.old.items ++ self.old.written.items) }
    {
        due.append(&mut self.written)?;
        Ok(())
    }

    // The value of a counter.
    fn counter(&self, k: u8) -> i64
        ensures { (hand : List ℕ) (coming : Records) → result ≡ counter k (desk_of self.now hand coming) }
    {
        if k < 10 { self.counters[k as usize] } else { 0 }
    }

    // A value for a counter, where the part of the record at hand spells one.
    fn amount(&self, amount: Amount, hand: &mut Hand<'_>) -> Result<Option<i64>, NoMemory>
        ensures stays { hand.new ≡ hand.old }
        ensures value { IfOk result (λ value. (coming : Records) → value ≡ amount_of amount (desk_of self.now hand.old coming)) }
    {
        Ok(match amount {
            Amount::Whole(value) => Some(value),
            Amount::Counter(k) => Some(self.counter(k)),
            Amount::Number(range) => number_in(hand.part(range)?),
        })
    }

    // The number that a SET gives its counter, where there is one.
    fn set_value(
        &self,
        k: u8,
        op: SetOp,
        amount: Amount,
        hand: &mut Hand<'_>,
    ) -> Result<Option<i64>, NoMemory>
        ensures stays { hand.new ≡ hand.old }
        ensures value { IfOk result (λ value. (coming : Records) → value ≡ set_value k op amount (desk_of self.now hand.old coming)) }
    {
        match self.amount(amount, hand)? {
            Some(value) => Ok(counter_after(op, self.counter(k), value)),
            None => Ok(None),
        }
    }

    // Gives a counter a value.
    fn set_counter(&mut self, k: u8, value: i64)
        ensures { (hand : List ℕ) (coming : Records) → desk_of self.new hand coming ≡ with_counter k value (desk_of self.old hand coming) }
    {
        if k < 10 {
            self.counters[k as usize] = value;
        }
    }

    // Writes the output and empties it.
    fn write(&mut self, alloc: Global) -> Result<(), NoMemory>
        ensures { OnOk result ((hand : List ℕ) (coming : Records) → Some (desk_of self.new hand coming) ≡ effect Write (desk_of self.old hand coming)) }
    {
        self.add_output(alloc)?;
        self.output.clear();
        Ok(())
    }

    // The value of the counter that an origin names.
    fn printed(&self, origin: &Origin) -> i64
        ensures { (hand : List ℕ) (coming : Records) → origin_from origin.now self.now.number result hand ≡ origin_of origin.now (desk_of self.now hand coming) }
    {
        match origin {
            Origin::Print(k) => self.counter(*k),
            _ => 0,
        }
    }

    // Puts a field into the output. Where it can't be converted, `false` says so.
    fn put_field(
        &mut self,
        hand: &mut Hand<'_>,
        origin: &Origin,
        strip: bool,
        convert: Option<Convert>,
        spot: Spot,
        align: Align,
    ) -> Result<bool, NoMemory>
        ensures stays { hand.new ≡ hand.old }
        ensures effect { IfOk result (λ good. (coming : Records) → effect (Field origin.now strip convert spot align) (desk_of self.old hand.old coming) ≡ (if good then Some (desk_of self.new hand.old coming) else None)) }
    {
        let counter = self.printed(origin);
        let field = origin_of(origin, self.number, counter, hand, &mut self.digits)?;
        match converted(convert, stripped(strip, field), &mut self.room)? {
            Some(field) => {
                put(&mut self.output, spot, align, self.pad, field)?;
                Ok(true)
            }
            None => Ok(false),
        }
    }

    // Changes a counter. Where that is a fault, `false` says so.
    fn set(
        &mut self,
        hand: &mut Hand<'_>,
        k: u8,
        op: SetOp,
        amount: Amount,
    ) -> Result<bool, NoMemory>
        ensures stays { hand.new ≡ hand.old }
        ensures effect { IfOk result (λ good. (coming : Records) → effect (Set k op amount) (desk_of self.old hand.old coming) ≡ (if good then Some (desk_of self.new hand.old coming) else None)) }
    {
        match self.set_value(k, op, amount, hand)? {
            Some(value) => {
                self.set_counter(k, value);
                Ok(true)
            }
            None => Ok(false),
        }
    }

    // Does what an item says, which is no READ, with the record at hand. Where that is a fault, `false` says so.
    fn effect(&mut self, alloc: Global, item: &Item, hand: &mut Hand<'_>) -> Result<bool, NoMemory>
        ensures stays { hand.new ≡ hand.old }
        ensures effect { IfOk result (λ good. is_read item.now ≡ false → (coming : Records) → effect item.now (desk_of self.old hand.old coming) ≡ (if good then Some (desk_of self.new hand.old coming) else None)) }
    {
        match item {
            Item::Field {
                origin,
                strip,
                convert,
                spot,
                align,
            } => self.put_field(hand, origin, *strip, *convert, *spot, *align),
            Item::Read => Ok(true),
            Item::Write => {
                self.write(alloc)?;
                Ok(true)
            }
            Item::Pad(byte) => {
                self.pad = *byte;
                Ok(true)
            }
            Item::Set {
                counter,
                op,
                amount,
            } => self.set(hand, *counter, *op, *amount),
        }
    }

    // Does what the items before the first READ say, with the record at hand, and tells how many these are: None is a fault.
    fn run_items(
        &mut self,
        alloc: Global,
        items: &[Item],
        hand: &mut Hand<'_>,
    ) -> Result<Option<usize>, NoMemory>
        ensures stays { hand.new ≡ hand.old }
        ensures ran { IfOk result (λ count. (coming : Records) → run (before_read items.now) (desk_of self.old hand.old coming) ≡ (if is_some count then Some (desk_of self.new hand.old coming) else None)) }
        ensures count { IfOk result (λ count. IfSome count (λ n. n ≡ length (before_read items.now))) }
    {
        let mut count = 0;
        for item in items {
            if let Item::Read = item {
                break;
            }
            if !self.effect(alloc, item, hand)? {
                return Ok(None);
            }
            count += 1;
        }
        Ok(Some(count))
    }

    // Does so with a record of which no word was found so far.
    pub(crate) fn run(
        &mut self,
        alloc: Global,
        items: &[Item],
        rec: &[u8],
    ) -> Result<Option<usize>, NoMemory>
        ensures ran { IfOk result (λ count. (coming : Records) → run (before_read items.now) (desk_of self.old rec.now coming) ≡ (if is_some count then Some (desk_of self.new rec.now coming) else None)) }
        ensures count { IfOk result (λ count. IfSome count (λ n. n ≡ length (before_read items.now))) }
    {
        let words = mem::replace(&mut self.words, Vec::new(alloc));
        let mut hand = Hand::new(rec, words);
        let count = self.run_items(alloc, items, &mut hand);
        self.words = hand.into_found();
        count
    }

    // Begins the next cycle with a record, and does what the items before the first READ say.
    pub(crate) fn start(
        &mut self,
        alloc: Global,
        items: &[Item],
        rec: &[u8],
    ) -> Result<Option<usize>, NoMemory>
        ensures ran { IfOk result (λ count. self.old.number < 50000000 → (hand : List ℕ) (coming more : Records) → run (before_read items.now) (begun (desk_of self.old hand coming) (rec.now ∷ more)) ≡ (if is_some count then Some (desk_of self.new rec.now more) else None)) }
        ensures count { IfOk result (λ count. IfSome count (λ n. n ≡ length (before_read items.now))) }
    {
        self.begin();
        self.run(alloc, items, rec)
    }

    // Does what the items say, with an empty record at hand, and none that comes. Where that is a fault, `false` says so.
    pub(crate) fn run_to_end(&mut self, alloc: Global, items: &[Item]) -> Result<bool, NoMemory>
        ensures { IfOk result (λ good. run items.now (desk_of self.old [] []) ≡ (if good then Some (desk_of self.new [] []) else None)) }
    {
        let mut hand = Hand::new(b"", Vec::new(alloc));
        for item in items {
            if let Item::Read = item {
                continue;
            }
            if !self.effect(alloc, item, &mut hand)? {
                return Ok(false);
            }
        }
        Ok(true)
    }
}
