ghost use Rattle.std.specs.Prelude.{◌≡◌, ◌+◌, ◌<◌, ◌≤◌, length, map};
ghost use Rattle.std.specs.Simd.Lanes.{mask_l};
ghost use Rattle.bstr.specs.Find.{FindsNeedle, IsFirst, IsFirstByte, Passes, is_byte};

use bstr::ByteSlice;
use pipe_model::{Rec, front};
use std::marker::Model;
use std::simd::prelude::*;

/// A string to look for, seen as the list of its bytes. A short one is looked for by its rarest byte, which is chosen
/// when the value is made.
#[derive(Drop)]
pub struct Sought {
    text: Rec,
    /// The place of its rarest byte.
    rare: usize,
}

impl Model for Sought {
    ghost use Rattle.std.specs.Prelude.{◌<◌, ℕ, List, length};

    ghost Value = { List ℕ };

    ghost view = { λ sought. sought.text };

    ghost invariant = { λ sought. 0 < length sought.text → sought.rare < length sought.text };
}

/// The longest string that is looked for by a byte. Where all bytes but one are those of the record, each place is
/// compared, so a long one is left to the library, whose worst case is linear.
const LONGEST: usize = 32;

impl Sought {
    ghost use Rattle.std.specs.Prelude.{◌≡◌, ◌+◌, ◌≤◌, length, IfSome};
    ghost use Rattle.pipe_model.specs.Search.{holds};
    ghost use Rattle.stage_steps.specs.Awaits.{IsClear};
    ghost use Rattle.stage_steps.specs.Strings.{IsFirstPlace};

    /// The string of these bytes.
    pub fn new(text: Rec) -> Sought
        ensures { result ≡ text }
    {
        let rare = rarest(text.bytes());
        Sought { text, rare }
    }

    /// The first place, counted from 0, where the string stands in the part.
    #[inline(always)]
    pub fn find(&self, part: &[u8]) -> Option<usize>
        ensures first { IsFirstPlace self.now part.now result }
        ensures within { IfSome result (λ k. k + length self.now ≤ length part.now) }
    {
        let text = self.text.bytes();
        if text.len() == 1 {
            return find_byte(part, text);
        }
        if text.is_empty() || text.len() > LONGEST {
            return part.find(text);
        }
        find_by_byte(part, text, self.rare)
    }

    /// So many bytes at the front of a part, at most this many, don't hold the string; they may be fewer than might be told.
    pub fn clear(&self, part: &[u8], most: usize) -> usize
        ensures clear { IsClear self.now part.now result }
        ensures within { result ≤ most }
    {
        let near = front(part, most);
        match self.find(near) {
            None => near.len(),
            Some(place) => place,
        }
    }

    /// Whether the string stands in the part.
    #[inline(always)]
    pub fn is_in(&self, part: &[u8]) -> bool
        ensures { result ≡ holds self.now part.now }
    {
        self.find(part).is_some()
    }
}

// How rare a byte is in texts, by its class.
fn rarity(byte: u8) -> u8 {
    match byte {
        b' ' | b'a' | b'e' | b'i' | b'o' | b'u' => 0,
        b'a'..=b'z' => 1,
        b'0'..=b'9' => 2,
        b'E' | b'T' => 3,
        b'A' | b'I' | b'N' | b'O' | b'S' => 4,
        b'A'..=b'Z' => 5,
        b'!'..=b'~' => 6,
        _ => 7,
    }
}

// The place of the first of its rarest bytes.
fn rarest(text: &[u8]) -> usize
    ensures { 0 < length text.now → result < length text.now }
{
    let mut rare = 0;
    let mut most = 0;
    for (place, byte) in text.iter().enumerate() {
        let rarity = rarity(*byte);
        if rarity > most {
            rare = place;
            most = rarity;
        }
    }
    rare
}

/// How many bytes a vector holds. A part shorter than this is looked along four bytes at a time.
const LANES: usize = 16;

/// From this length on a part is left to the library. It looks along 128 bytes at a time, and along a part below 32 byte by
/// byte.
const LONG: usize = 128;

// The first place of a byte in a part.
#[inline(always)]
fn place_of(part: &[u8], byte: u8) -> Option<usize>
    ensures { IsFirstByte (is_byte byte) part.now result }
{
    if part.len() < LANES {
        place_near(part, byte)
    } else if part.len() < LONG {
        place_by_lanes(part, byte)
    } else {
        part.find_byte(byte)
    }
}

// Bit k tells whether lane k is the byte.
#[inline(always)]
fn marks(lanes: u8x16, byte: u8) -> u64
    ensures { result ≡ mask_l (map (is_byte byte) lanes) }
{
    lanes.simd_eq(u8x16::splat(byte)).to_bitmask()
}

// The first place of a byte among those of a vector's length, from a place on.
#[inline(always)]
fn place_in_lanes(part: &[u8], from: usize, byte: u8) -> Option<usize>
    requires { from + 16 ≤ length part.now }
    ensures { IsFirst (Passes (is_byte byte) part.now) from (from + 16) result }
{
    let marked = marks(u8x16::from_slice(&part[from..]), byte);
    if marked == 0 {
        return None;
    }
    Some(from + marked.trailing_zeros() as usize)
}

// The first place of a byte in a part that fills a vector. The last vector may begin at bytes that were looked at.
fn place_by_lanes(part: &[u8], byte: u8) -> Option<usize>
    requires { 16 ≤ length part.now }
    ensures { IsFirstByte (is_byte byte) part.now result }
{
    let mut at = 0;
    while at + LANES < part.len() {
        match place_in_lanes(part, at, byte) {
            Some(place) => return Some(place),
            None => at += LANES,
        }
    }
    place_in_lanes(part, part.len() - LANES, byte)
}

// The first place of a byte in a short part.
fn place_near(part: &[u8], byte: u8) -> Option<usize>
    ensures { IsFirstByte (is_byte byte) part.now result }
{
    let mut at = 0;
    while at + 4 <= part.len() {
        let four = &part[at..at + 4];
        if four[0] == byte || four[1] == byte || four[2] == byte || four[3] == byte {
            break;
        }
        at += 4;
    }
    while at < part.len() {
        if part[at] == byte {
            return Some(at);
        }
        at += 1;
    }
    None
}

// The same for a string of one byte, which isn't compared again.
#[inline(always)]
fn find_byte(part: &[u8], text: &[u8]) -> Option<usize>
    requires { length text.now ≡ 1 }
    ensures { FindsNeedle part.now text.now 0 result }
{
    place_of(part, text[0])
}

// The same by its byte at a place: where the string stands, that byte stands so far behind.
fn find_by_byte(part: &[u8], text: &[u8], rare: usize) -> Option<usize>
    requires { rare < length text.now }
    ensures { FindsNeedle part.now text.now 0 result }
{
    let byte = text[rare];
    let mut from = 0;
    while from + rare < part.len() {
        let rest = &part[from + rare..];
        match place_of(rest, byte) {
            None => return None,
            Some(ahead) => {
                let place = from + ahead;
                let behind = &part[place..];
                if behind.starts_with_str(text) {
                    return Some(place);
                }
                from = place + 1;
            }
        }
    }
    None
}
