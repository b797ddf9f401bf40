ghost use Rattle.std.specs.Prelude.{◌≡◌, ◌↔◌, IsTrue, IsErrAnd};
ghost use Rattle.std.specs.Io.{ReadsAtMost, WritesAtMost};
ghost use Rattle.std.specs.Io.KnownBytes.{ReadConsumes, WriteAppends};
ghost use Rattle.std.specs.IoError.{error_kind};
ghost use Rattle.outside.specs.Device.{device};
ghost use Rattle.outside.specs.Streams.{read_told, write_told};

use crate::sink::{Sink, WriteAnswer};
use crate::source::{ReadAnswer, Source};
use std::io::{self, ErrorKind, Read, Write};
use std::marker::Model;

/// How often a call that a signal interrupted is made once more, before it counts as a fault.
pub(crate) const TRIES: u32 = 1000;

/// A source over a reader, which has left what the reader has left, where that tells it.
/// A read of no byte is the end, and an error is a fault. A read that a signal interrupted is made once more, a
/// thousand times at most.
#[derive(Debug, Drop)]
pub struct StdSource<R: Read> {
    reader: R,
    faults: u64,
}

impl<R: Read> Model for StdSource<R> {
    ghost use Rattle.outside.specs.Device.{Device, device};

    ghost Value = { Device };

    ghost view = { λ source. device (R.remaining source.reader) source.faults };
}

impl<R: Read> StdSource<R> {
    /// A source over this reader, with no fault.
    pub fn new(reader: R) -> StdSource<R>
        ensures { result ≡ device (R.remaining reader) 0 }
    {
        StdSource { reader, faults: 0 }
    }

    /// The reader, which has left what the source has left.
    pub fn into_inner(self) -> R
        ensures { R.remaining result ≡ self.bytes }
    {
        self.reader
    }
}

impl<R: Read> Source for StdSource<R> {
    ghost left = { λ source. source.bytes };

    ghost faults = { λ source. source.faults };

    fn read(&mut self, room: &mut [u8]) -> ReadAnswer {
        let answer = read_answer(read_uninterrupted(&mut self.reader, room));
        if answer == ReadAnswer::Failed {
            self.faults = self.faults.saturating_add(1);
        }
        answer
    }

    fn faults(&self) -> u64 {
        self.faults
    }
}

/// A sink over a writer, to which was written what the writer holds, where that tells it.
/// A write that takes no byte is a fault, as an error is. A write that a signal interrupted is made once more, a
/// thousand times at most. Nothing flushes the writer, so it should keep no bytes back.
#[derive(Debug, Drop)]
pub struct StdSink<W: Write> {
    writer: W,
    faults: u64,
}

impl<W: Write> Model for StdSink<W> {
    ghost use Rattle.outside.specs.Device.{Device, device};

    ghost Value = { Device };

    ghost view = { λ sink. device (W.contents sink.writer) sink.faults };
}

impl<W: Write> StdSink<W> {
    /// A sink over this writer, with no fault.
    pub fn new(writer: W) -> StdSink<W>
        ensures { result ≡ device (W.contents writer) 0 }
    {
        StdSink { writer, faults: 0 }
    }

    /// The writer, which holds what was written on the sink.
    pub fn into_inner(self) -> W
        ensures { W.contents result ≡ self.bytes }
    {
        self.writer
    }
}

impl<W: Write> Sink for StdSink<W> {
    ghost written = { λ sink. sink.bytes };

    ghost faults = { λ sink. sink.faults };

    fn write(&mut self, piece: &[u8]) -> WriteAnswer {
        let answer = write_answer(write_uninterrupted(&mut self.writer, piece));
        if answer == WriteAnswer::Failed {
            self.faults = self.faults.saturating_add(1);
        }
        answer
    }

    fn faults(&self) -> u64 {
        self.faults
    }
}

// What a reader's answer is told as.
fn read_answer(given: io::Result<usize>) -> ReadAnswer
    ensures { result ≡ read_told given }
{
    match given {
        Ok(0) => ReadAnswer::End,
        Ok(count) => ReadAnswer::Bytes(count),
        Err(_) => ReadAnswer::Failed,
    }
}

// What a writer's answer is told as.
fn write_answer(given: io::Result<usize>) -> WriteAnswer
    ensures { result ≡ write_told given }
{
    match given {
        Ok(0) | Err(_) => WriteAnswer::Failed,
        Ok(count) => WriteAnswer::Took(count),
    }
}

// One read, made once more where a signal interrupts it.
fn read_uninterrupted<R: Read>(reader: &mut R, room: &mut [u8]) -> io::Result<usize>
    ensures bound { ReadsAtMost result room.new }
    ensures bytes { ReadConsumes (R.remaining reader.old) (R.remaining reader.new) result room.new }
{
    for _ in 0..TRIES {
        let given = reader.read(room);
        if !is_interrupted(&given) {
            return given;
        }
    }
    reader.read(room)
}

// One write, made once more where a signal interrupts it.
fn write_uninterrupted<W: Write>(writer: &mut W, piece: &[u8]) -> io::Result<usize>
    ensures bound { WritesAtMost result piece.now }
    ensures bytes { WriteAppends (W.contents writer.old) (W.contents writer.new) result piece.now }
{
    for _ in 0..TRIES {
        let given = writer.write(piece);
        if !is_interrupted(&given) {
            return given;
        }
    }
    writer.write(piece)
}

// Whether a signal came before anything was moved.
fn is_interrupted(given: &io::Result<usize>) -> bool
    ensures { IsTrue result ↔ IsErrAnd given.now (λ error. error_kind error ≡ ErrorKind.Interrupted) }
{
    given
        .as_ref()
        .is_err_and(|error| error.kind() == ErrorKind::Interrupted)
}
