ghost use Rattle.std.specs.Prelude.{◌≡◌, ◌+◌, ◌<◌, ◌≤◌, [], Some, None, IsSome, IfOk, OnErr, length, vec_capacity};
ghost use Rattle.record_pool.specs.PoolState.{empty_pool};
ghost use Rattle.record_pool.specs.Places.{place_at, record_at, IsHeld, holders_of, holders_at, bytes_at, with_place, with_record, shared, given, one_more, one_less, fresh, refilled, OthersStay};
ghost use Rattle.record_pool.specs.Blocks.{blocks_of, blocks_in};
ghost use Rattle.record_pool.specs.Kept.{IsKept};

use pipe_model::{NoMemory, Rec};
use std::alloc::Global;
use std::marker::Model;
use std::mem::{self, ManuallyDrop};

/// One hold on a record, seen as the number of the record's place. It is used only with the pool that made it, and
/// is given back to it.
pub struct Grip {
    place: usize,
}

impl Model for Grip {
    ghost use Rattle.std.specs.Prelude.{ℕ};

    ghost Value = { ℕ };

    ghost view = { λ grip. grip.place };
}

impl Grip {
    ghost use Rattle.std.specs.Prelude.{◌≡◌, ◌==◌};

    /// Whether it is a hold on the same record as another grip of the pool.
    pub fn is(&self, other: &Grip) -> bool
        ensures { result ≡ (self.now == other.now) }
    {
        self.place == other.place
    }
}

/// Records with their holders. A place that was left empty is used again. A pool isn't let go but closed, when no
/// record is left.
pub struct Pool {
    alloc: Global,
    places: Vec<Option<Stored>>,
    // The empty places, with room for all of them, so that `give` takes no memory.
    free: Vec<usize>,
    // The blocks of the records and nodes, and how many of them are nodes.
    pub(crate) blocks: u64,
    pub(crate) nodes: u64,
}

// A record and the number of grips on it.
#[derive(Drop)]
struct Stored {
    bytes: Rec,
    holders: u32,
}

impl Model for Stored {
    ghost use Rattle.record_pool.specs.PoolState.{Held};

    ghost Value = { Held };

    ghost view = { λ stored. record { bytes = stored.bytes; holders = stored.holders } };
}

impl Model for Pool {
    ghost use Rattle.std.specs.Prelude.{◌≡◌, ◌+◌, vec_capacity};
    ghost use Rattle.record_pool.specs.PoolState.{PoolState};
    ghost use Rattle.record_pool.specs.Blocks.{blocks_of_all};
    ghost use Rattle.record_pool.specs.Kept.{IsKept};

    ghost Value = { PoolState };

    ghost view = { λ pool. record { records = pool.places.items; nodes = pool.nodes } };

    ghost invariant = { λ pool. IsKept pool.places.items pool.free.items (vec_capacity pool.free) × (pool.blocks ≡ blocks_of_all pool.places.items + pool.nodes) };
}

impl Pool {
    /// A pool with no record.
    pub fn new(alloc: Global) -> Pool
        ensures { result ≡ empty_pool }
    {
        Pool {
            alloc,
            places: Vec::new(alloc),
            free: Vec::new(alloc),
            blocks: 0,
            nodes: 0,
        }
    }

    /// Copies the bytes into the pool, at a place that was empty. It wants memory too where the count of blocks would
    /// pass 64 bits.
    pub fn put(&mut self, bytes: &[u8]) -> Result<Grip, NoMemory>
        ensures vacant { IfOk result (λ grip. record_at self.old grip ≡ None) }
        ensures held { IfOk result (λ grip. record_at self.new grip ≡ Some (fresh bytes.now)) }
        ensures others { IfOk result (λ grip. OthersStay self.old self.new grip) }
        ensures put { IfOk result (λ grip. self.new ≡ with_record self.old grip (Some (fresh bytes.now))) }
        ensures err { OnErr result (self.new ≡ self.old) }
    {
        let mut rec = Rec::from_slice(self.alloc, bytes)?;
        self.take_in(&mut rec)
    }

    /// Takes a record into the pool, at a place that was empty, and doesn't copy it: an empty one is left for it, after
    /// want of memory too. It wants memory too where the count of blocks would pass 64 bits.
    #[inline(always)]
    pub fn take_in(&mut self, rec: &mut Rec) -> Result<Grip, NoMemory>
        ensures vacant { IfOk result (λ grip. record_at self.old grip ≡ None) }
        ensures held { IfOk result (λ grip. record_at self.new grip ≡ Some (fresh rec.old)) }
        ensures others { IfOk result (λ grip. OthersStay self.old self.new grip) }
        ensures put { IfOk result (λ grip. self.new ≡ with_record self.old grip (Some (fresh rec.old))) }
        ensures err { OnErr result (self.new ≡ self.old) }
        ensures left { rec.new ≡ [] }
    {
        let bytes = mem::replace(rec, Rec::from_vec(Vec::new(self.alloc)));
        let Some(blocks) = self.blocks.checked_add(count_blocks(bytes.bytes().len())) else {
            return Err(NoMemory);
        };
        let place = fill(
            &mut self.places,
            &mut self.free,
            Stored { bytes, holders: 1 },
        )?;
        self.blocks = blocks;
        Ok(Grip { place })
    }

    /// One more hold on the same record. It takes no memory.
    pub fn share(&mut self, grip: &Grip) -> Grip
        requires held { IsHeld self.old grip.now }
        requires holders { holders_at self.old grip.now < 4294967295 }
        ensures same { result ≡ grip.now }
        ensures more { record_at self.new grip.now ≡ one_more (record_at self.old grip.now) }
        ensures others { OthersStay self.old self.new grip.now }
        ensures shared { self.new ≡ shared self.old grip.now }
    {
        add_holder(&mut self.places[grip.place]);
        Grip { place: grip.place }
    }

    /// Gives a hold back. With the last one the record goes, its place is empty, and its memory is freed. It takes no
    /// memory.
    #[inline(always)]
    pub fn give(&mut self, grip: Grip)
        requires { IsHeld self.old grip }
        ensures less { record_at self.new grip ≡ one_less (record_at self.old grip) }
        ensures others { OthersStay self.old self.new grip }
        ensures given { self.new ≡ given self.old grip }
    {
        let Grip { place } = grip;
        match &mut self.places[place] {
            Some(held) if held.holders > 1 => held.holders -= 1,
            _ => self.empty(place),
        }
    }

    // Empties a place whose record has one holder at most, which gives it back.
    #[inline(never)]
    fn empty(&mut self, place: usize)
        requires held { IsHeld self.old place }
        requires last { holders_at self.old place < 2 }
        ensures { self.new ≡ given self.old place }
    {
        let Some(held) = mem::replace(&mut self.places[place], None) else {
            return;
        };
        self.blocks -= count_blocks(held.bytes.bytes().len());
        self.free.push_reserved(place);
    }

    /// The number of holds on the record.
    pub fn holders_of(&self, grip: &Grip) -> u32
        requires { IsHeld self.now grip.now }
        ensures { result ≡ holders_at self.now grip.now }
    {
        match &self.places[grip.place] {
            Some(held) => held.holders,
            None => 0,
        }
    }

    /// Puts a record of at most 256 bytes in place of the record, whose holders hold that then. It takes no memory.
    pub fn refill(&mut self, grip: &Grip, rec: Rec)
        requires held { IsHeld self.old grip.now }
        requires short { length rec ≤ 256 }
        ensures { self.new ≡ with_record self.old grip.now (Some (refilled rec (holders_at self.old grip.now))) }
    {
        if let Some(held) = &mut self.places[grip.place] {
            self.blocks = self.blocks - count_blocks(held.bytes.bytes().len()) + 1;
            held.bytes = rec;
        }
    }

    /// The number of bytes of the record.
    pub fn len_of(&self, grip: &Grip) -> usize
        requires { IsHeld self.now grip.now }
        ensures { result ≡ length (bytes_at self.now grip.now) }
    {
        self.bytes_of(grip).len()
    }

    /// The bytes of the record.
    pub fn bytes_of<'a>(&'a self, grip: &Grip) -> &'a [u8]
        requires { IsHeld self.now grip.now }
        ensures { result.now ≡ bytes_at self.now grip.now }
    {
        match &self.places[grip.place] {
            Some(held) => held.bytes.bytes(),
            None => &[],
        }
    }

    /// Puts the bytes of the record in place of what `room` holds. It takes no memory.
    pub fn copy_out(&self, grip: &Grip, room: &mut Vec<u8>)
        requires held { IsHeld self.now grip.now }
        requires room { length (bytes_at self.now grip.now) ≤ vec_capacity room.old }
        ensures bytes { room.new.items ≡ bytes_at self.now grip.now }
        ensures capacity { vec_capacity room.old ≤ vec_capacity room.new }
    {
        room.clear();
        room.extend_from_slice(self.bytes_of(grip)).unwrap();
    }

    /// The blocks of 256 bytes that the records hold, each at least one, and the nodes, each one.
    pub fn in_use(&self) -> u64
        ensures { result ≡ blocks_in self.now }
    {
        self.blocks
    }

    /// Ends a pool in which no record and no node is left.
    pub fn close(self)
        requires { blocks_in self ≡ 0 }
    {
        let Pool {
            alloc: _,
            places: _,
            free: _,
            blocks: _,
            nodes: _,
        } = self;
    }
}

// The blocks that a record of this length holds.
fn count_blocks(len: usize) -> u64
    ensures { result ≡ blocks_of len }
{
    if len <= 256 {
        1
    } else {
        len.div_ceil(256) as u64
    }
}

// Puts the record at an empty place, or at a new one where none is empty.
#[inline(always)]
fn fill(
    places: &mut Vec<Option<Stored>>,
    free: &mut Vec<usize>,
    held: Stored,
) -> Result<usize, NoMemory>
    requires { IsKept places.old.items free.old.items (vec_capacity free.old) }
    ensures kept { IsKept places.new.items free.new.items (vec_capacity free.new) }
    ensures vacant { IfOk result (λ place. place_at places.old.items place ≡ None) }
    ensures put { IfOk result (λ place. places.new.items ≡ with_place places.old.items place (Some held)) }
    ensures err { OnErr result (places.new.items ≡ places.old.items) }
{
    if let Some(place) = free.pop() {
        // Nothing was there that might be let go.
        ManuallyDrop::new(mem::replace(&mut places[place], Some(held)));
        return Ok(place);
    }
    fill_new(places, free, held)
}

// Puts the record at a new place.
#[cold]
#[inline(never)]
fn fill_new(
    places: &mut Vec<Option<Stored>>,
    free: &mut Vec<usize>,
    held: Stored,
) -> Result<usize, NoMemory>
    requires { IsKept places.old.items free.old.items (vec_capacity free.old) }
    ensures kept { IsKept places.new.items free.new.items (vec_capacity free.new) }
    ensures vacant { IfOk result (λ place. place_at places.old.items place ≡ None) }
    ensures put { IfOk result (λ place. places.new.items ≡ with_place places.old.items place (Some held)) }
    ensures err { OnErr result (places.new.items ≡ places.old.items) }
{
    let place = places.len();
    free.reserve(place + 1)?;
    places.push(Some(held))?;
    Ok(place)
}

// Counts one holder more.
fn add_holder(place: &mut Option<Stored>)
    requires held { IsSome place.old }
    requires holders { holders_of place.old < 4294967295 }
    ensures { place.new ≡ one_more place.old }
{
    if let Some(held) = place {
        held.holders += 1;
    }
}
