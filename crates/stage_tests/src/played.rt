ghost use Rattle.std.specs.Prelude.{◌≤◌, length, IfOk};
ghost use Rattle.stage_table.specs.BuiltIn.{HasFewPlaces};

use pipe_model::{Kind, Net, NoMemory, Out, Rec, Seen, Strand, Want, first_word};
use stage_steps::{Listed, Lists, Planned, Plans, Stage};
use stage_syntax::{Arg, kind_of};
use stage_table::{BuiltIn, make_all};
use std::alloc::Global;
use std::process::Abort;
use std::test::Fail;

// A record that comes to a stage on an input.
#[derive(Drop)]
struct Arrival {
    input: u16,
    text: Rec,
    is_seen: bool,
    is_taken: bool,
}

/// What a stage is played with: the records that come to it, in the order in which they are there, how many records each of
/// its outputs takes, what DAM's other strands are told of the first one, and what the stage did.
#[derive(Drop)]
pub(crate) struct Scene {
    arrivals: Vec<Arrival>,
    // A digit for each output, or `*` where it takes all.
    rooms: Vec<u8>,
    pub(crate) is_primed: bool,
    done: Vec<u8>,
}

impl Scene {
    /// Each record of a text is an input's digit and what stands before a `;`, with `~` for a line feed.
    pub(crate) fn new(alloc: Global, arrivals: &str, outputs: &str) -> Result<Scene, NoMemory> {
        Ok(Scene {
            arrivals: arrivals_of(alloc, arrivals)?,
            rooms: Vec::from_slice(alloc, outputs.as_bytes())?,
            is_primed: true,
            done: Vec::new(alloc),
        })
    }

    /// One more record comes on input 0.
    pub(crate) fn add(&mut self, text: Rec) -> Result<(), NoMemory> {
        self.arrivals.push(coming(b'0', text))?;
        Ok(())
    }

    /// What a stage did: `1abc;` puts the record `abc` on output 1, which is refused with `!1;`, and `-0;` takes the record of
    /// input 0. Behind `#` stands the text that it kept, and behind `=` the code with which it ended.
    pub(crate) fn done(&self) -> &[u8] {
        &self.done
    }

    // What comes of what is asked for.
    fn answer(&mut self, want: &Want) -> Result<Seen, NoMemory> {
        Ok(match want {
            Want::Commit(level) => Seen::Up(*level, 0),
            Want::Read(input) => match see(&mut self.arrivals, Some(*input)) {
                Some(input) => Seen::Saw(input),
                None => Seen::SawEnd(*input),
            },
            Want::Any => match see(&mut self.arrivals, None) {
                Some(input) => Seen::Saw(input),
                None => Seen::SawAllEnd,
            },
            Want::Gate => match see(&mut self.arrivals, None) {
                Some(input) => Seen::Saw(input),
                None => Seen::SawEnd(0),
            },
            Want::Take(input) => {
                take(&mut self.arrivals, *input);
                note(&mut self.done, b'-', *input, b"")?;
                Seen::Took(*input)
            }
            Want::Write(output, out) => self.write(*output, out)?,
            Want::Primed => Seen::Primed(self.is_primed),
            Want::Issue(_) | Want::Join(_) | Want::Cut(_) | Want::Done(_) => Seen::Ended(0),
        })
    }

    // What comes of a write.
    fn write(&mut self, output: u16, out: &Out) -> Result<Seen, NoMemory> {
        if !has_room(&mut self.rooms, output) {
            note(&mut self.done, b'!', output, b"")?;
            return Ok(Seen::Refused(output));
        }
        note_put(&mut self.done, output, written(&self.arrivals, out))?;
        Ok(Seen::Put(output))
    }
}

// A record that comes on the input of this digit.
fn coming(digit: u8, text: Rec) -> Arrival {
    Arrival {
        input: digit.wrapping_sub(b'0') as u16,
        text,
        is_seen: false,
        is_taken: false,
    }
}

fn arrivals_of(alloc: Global, text: &str) -> Result<Vec<Arrival>, NoMemory> {
    let mut arrivals = Vec::new(alloc);
    for item in text.split(';') {
        if let Some((digit, rest)) = item.as_bytes().split_first() {
            let mut bytes = Vec::new(alloc);
            for byte in rest {
                bytes.push(if *byte == b'~' { b'\n' } else { *byte })?;
            }
            arrivals.push(coming(*digit, Rec::from_vec(bytes)))?;
        }
    }
    Ok(arrivals)
}

// Sees the first record that isn't taken, of this input or of any, and tells of which it is.
fn see(arrivals: &mut [Arrival], of: Option<u16>) -> Option<u16> {
    for arrival in arrivals {
        if !arrival.is_taken && (of.is_none() || of == Some(arrival.input)) {
            arrival.is_seen = true;
            return Some(arrival.input);
        }
    }
    None
}

// Takes the record of an input that was seen and isn't taken.
fn take(arrivals: &mut [Arrival], input: u16) {
    for arrival in arrivals {
        if arrival.input == input && arrival.is_seen {
            arrival.is_taken = true;
        }
    }
}

// The record of an input that was seen last.
fn seen_last(arrivals: &[Arrival], input: u16) -> &[u8] {
    let mut last: &[u8] = &[];
    for arrival in arrivals {
        if arrival.input == input && arrival.is_seen {
            last = arrival.text.bytes();
        }
    }
    last
}

// The bytes of a record that is written.
fn written<'a>(arrivals: &'a [Arrival], out: &'a Out) -> &'a [u8] {
    match out {
        Out::Same(input) => seen_last(arrivals, *input),
        Out::Fresh(rec) => rec.bytes(),
    }
}

// The bytes that a stage is told with an event.
fn told(arrivals: &[Arrival], seen: Seen, is_looking: bool) -> &[u8] {
    match seen {
        Seen::Saw(input) if is_looking => seen_last(arrivals, input),
        _ => &[],
    }
}

// Whether an output takes one more record, which takes its room.
fn has_room(rooms: &mut [u8], output: u16) -> bool {
    match rooms.get_mut(output as usize) {
        Some(room) => match *room {
            b'*' => true,
            b'1'..=b'9' => {
                *room = room.wrapping_sub(1);
                true
            }
            _ => false,
        },
        None => false,
    }
}

// Notes what was done with a stream.
fn note(done: &mut Vec<u8>, what: u8, stream: u16, bytes: &[u8]) -> Result<(), NoMemory> {
    done.push(what)?;
    note_put(done, stream, bytes)
}

// Notes a record that was put on an output.
fn note_put(done: &mut Vec<u8>, output: u16, bytes: &[u8]) -> Result<(), NoMemory> {
    done.push(b'0'.wrapping_add((output % 10) as u8))?;
    note_text(done, bytes)?;
    done.push(b';')?;
    Ok(())
}

// Notes bytes, with `~` for a line feed.
fn note_text(done: &mut Vec<u8>, bytes: &[u8]) -> Result<(), NoMemory> {
    for byte in bytes {
        done.push(if *byte == b'\n' { b'~' } else { *byte })?;
    }
    Ok(())
}

/// The kind of a stage that isn't first in its pipeline.
pub(crate) fn kind_by(alloc: Global, words: &str) -> Result<Kind, Fail> {
    let (name, text) = first_word(words.as_bytes());
    let arg = Arg::from_parts(
        Vec::from_slice(alloc, text)?,
        Vec::new(alloc),
        Vec::new(alloc),
        0,
    );
    Ok(kind_of(alloc, name, &arg, false)?)
}

// Whether each stream is connected: one isn't at a `-`.
fn connected(alloc: Global, streams: &str) -> Result<Vec<bool>, NoMemory> {
    let mut flags = Vec::new(alloc);
    for stream in streams.as_bytes() {
        flags.push(*stream != b'-')?;
    }
    Ok(flags)
}

// The strand of a stage.
fn strand_of(
    alloc: Global,
    kind: Kind,
    part: u16,
    has_input: &[bool],
    has_output: &[bool],
) -> Result<Strand, NoMemory>
    requires inputs { length has_input.now ≤ 64 }
    requires outputs { length has_output.now ≤ 64 }
    ensures { IfOk result HasFewPlaces }
{
    Strand::of_part(alloc, 0, part, kind, has_input, has_output)
}

// The stages of a net that has this strand alone. They come in a `Vec`, since a stage by itself is dear to prove about.
#[tactic(auto, using(crate::proofs::Lone::lone_few))]
fn stages_in(alloc: Global, strand: Strand) -> Result<Vec<BuiltIn>, NoMemory>
    requires { HasFewPlaces strand }
{
    let mut strands = Vec::new(alloc);
    strands.push(strand)?;
    let net = Net::new(strands, Vec::new(alloc));
    make_all(alloc, &net)
}

/// The fresh strand of a stage, with these inputs and outputs, as the one of a net.
pub(crate) fn stages_of(
    rt: &impl Abort,
    alloc: Global,
    kind: Kind,
    part: u16,
    inputs: &str,
    outputs: &str,
) -> Result<Vec<BuiltIn>, NoMemory> {
    let has_input = connected(alloc, inputs)?;
    let has_output = connected(alloc, outputs)?;
    assert!(rt; has_input.len() <= 64);
    assert!(rt; has_output.len() <= 64);
    let strand = strand_of(alloc, kind, part, &has_input, &has_output)?;
    stages_in(alloc, strand)
}

/// What can be played: a stage that may be told any event.
pub(crate) trait Playable {
    fn begin(&self) -> Want;

    fn tell(&mut self, alloc: Global, seen: Seen, bytes: &[u8]) -> Result<Want, NoMemory>;

    /// Whether it is told the bytes of records.
    fn is_looking(&self) -> bool {
        false
    }

    /// The text that it kept.
    fn kept_text(&self) -> &[u8] {
        &[]
    }
}

impl Playable for BuiltIn {
    fn begin(&self) -> Want {
        self.first()
    }

    fn tell(&mut self, alloc: Global, seen: Seen, bytes: &[u8]) -> Result<Want, NoMemory> {
        self.resume(alloc, seen, bytes)
    }

    fn is_looking(&self) -> bool {
        self.looks()
    }

    fn kept_text(&self) -> &[u8] {
        self.kept()
    }
}

impl<L: Lists> Playable for Listed<L> {
    fn begin(&self) -> Want {
        self.first()
    }

    fn tell(&mut self, alloc: Global, seen: Seen, bytes: &[u8]) -> Result<Want, NoMemory> {
        self.resume(alloc, seen, bytes)
    }
}

impl<P: Plans> Playable for Planned<P> {
    fn begin(&self) -> Want {
        self.first()
    }

    fn tell(&mut self, alloc: Global, seen: Seen, bytes: &[u8]) -> Result<Want, NoMemory> {
        self.resume(alloc, seen, bytes)
    }
}

/// Plays a stage from its first want to its end, or for a thousand wants.
pub(crate) fn play<S: Playable>(
    alloc: Global,
    stage: &mut S,
    scene: &mut Scene,
) -> Result<(), NoMemory> {
    let mut want = stage.begin();
    for _ in 0..1000 {
        if let Want::Done(code) = want {
            note_end(alloc, &mut scene.done, stage.kept_text(), code)?;
            break;
        }
        let seen = scene.answer(&want)?;
        let bytes = told(&scene.arrivals, seen, stage.is_looking());
        want = stage.tell(alloc, seen, bytes)?;
    }
    Ok(())
}

/// Plays each of some stages.
pub(crate) fn play_all(
    alloc: Global,
    stages: &mut [BuiltIn],
    scene: &mut Scene,
) -> Result<(), NoMemory> {
    for stage in stages {
        play(alloc, stage, scene)?;
    }
    Ok(())
}

// Notes the text that a stage kept, and its code.
fn note_end(alloc: Global, done: &mut Vec<u8>, kept: &[u8], code: i32) -> Result<(), NoMemory> {
    if !kept.is_empty() {
        done.push(b'#')?;
        note_text(done, kept)?;
    }
    let code = format!(in alloc; "={code}")?;
    done.extend_from_slice(code.as_bytes())?;
    Ok(())
}
