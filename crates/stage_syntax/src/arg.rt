ghost use Rattle.std.specs.Prelude.{◌≡◌, ◌≤◌, length, get_or};
ghost use Rattle.stage_syntax.specs.Arg.{IsArg, ArgText};

use std::marker::Model;

/// The text of a stage's arguments: its bytes, whether each is plain, its place in the specification, and the place just after
/// the stage's text. It is seen as three lists and a number.
#[derive(Drop)]
pub struct Arg {
    bytes: Vec<u8>,
    plain: Vec<bool>,
    places: Vec<u32>,
    end: u32,
}

impl Model for Arg {
    ghost use Rattle.stage_syntax.specs.Arg.{ArgText};

    ghost Value = { ArgText };

    ghost view = { λ arg. record { bytes = arg.bytes.items; plain = arg.plain.items; places = arg.places.items; end = arg.end } };
}

impl Arg {
    /// The argument text of these bytes, each plain or not and at its place, in a stage whose text ends just before a place. It
    /// takes no memory.
    pub fn from_parts(bytes: Vec<u8>, plain: Vec<bool>, places: Vec<u32>, end: u32) -> Arg
        ensures { result ≡ record { bytes = bytes.items; plain = plain.items; places = places.items; end = end } }
    {
        Arg {
            bytes,
            plain,
            places,
            end,
        }
    }

    /// The bytes, without what makes some of them not plain.
    pub fn bytes(&self) -> &[u8]
        ensures { result.now ≡ self.now.bytes }
    {
        &self.bytes
    }

    /// The place just after the stage's text.
    pub fn end(&self) -> u32
        ensures { result ≡ self.now.end }
    {
        self.end
    }

    /// The place of byte `at`, or the place just after the stage's text for any other number.
    pub fn place(&self, at: usize) -> u32
        ensures { result ≡ get_or self.now.places at self.now.end }
    {
        match self.places.get(at) {
            Some(place) => *place,
            None => self.end,
        }
    }
}
