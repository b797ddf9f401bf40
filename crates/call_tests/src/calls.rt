//! The program's call, and what tests give it.
ghost use Rattle.std.specs.Prelude.{◌≤◌};

use outside::{Gate, MemShelf, MemSink, MemSource, Shelf, Sink, Source};
use pipe_cli::pipe_main;
use pipe_model::Rec;
use std::alloc::Global;
use std::sync::Wait;
use std::test::Fail;
use std::thread::Threads;

/// A source, a sink for the output, one for the text, and files.
#[derive(Drop)]
pub(crate) struct Around<I: Source, O: Sink, F: Shelf> {
    pub(crate) input: I,
    pub(crate) output: O,
    pub(crate) diag: O,
    pub(crate) shelf: F,
}

// More bytes than a text has, or than a test writes.
const TEXT: usize = 128;

// A source of these bytes, which gives so many a call and fails at the call of this number.
fn source(alloc: Global, input: &[u8], piece: usize, fails: u32) -> Result<MemSource, Fail>
    requires { 1 ≤ piece }
{
    let bytes = Rec::from_slice(alloc, input)?;
    Ok(MemSource::new(bytes, piece, [fails].to_vec(alloc)?))
}

// A sink that takes so many bytes a call, and fails at the call of this number.
fn sink(alloc: Global, piece: usize, fails: u32) -> Result<MemSink, Fail>
    requires { 1 ≤ piece }
{
    Ok(MemSink::new(alloc, TEXT, piece, [fails].to_vec(alloc)?)?)
}

/// What is in memory: input that is given so many bytes a call, as output is taken, and no file. A text is taken in one call.
pub(crate) fn in_memory(
    alloc: Global,
    input: &[u8],
    piece: usize,
) -> Result<Around<MemSource, MemSink, MemShelf>, Fail>
    requires { 1 ≤ piece }
{
    failing(alloc, input, piece, [0; 4])
}

/// The same, of which the reads, the writes, the tellings of a text and the calls of files of these numbers fail, counted from 1.
pub(crate) fn failing(
    alloc: Global,
    input: &[u8],
    piece: usize,
    fails: [u32; 4],
) -> Result<Around<MemSource, MemSink, MemShelf>, Fail>
    requires { 1 ≤ piece }
{
    let [reads, writes, tells, files] = fails;
    Ok(Around {
        input: source(alloc, input, piece, reads)?,
        output: sink(alloc, piece, writes)?,
        diag: sink(alloc, TEXT, tells)?,
        shelf: MemShelf::new(alloc, [files].to_vec(alloc)?),
    })
}

/// The status of the call with these words, as a number.
pub(crate) fn call<R: Threads + Wait + Sync, I: Source, O: Sink, F: Shelf, G: Gate + Sync>(
    rt: &R,
    alloc: Global,
    words: &[&str],
    around: &mut Around<I, O, F>,
    gate: &G,
) -> Result<u8, Fail> {
    let mut owned = Vec::new(alloc);
    for word in words {
        owned.push(String::from_str(alloc, word)?)?;
    }
    let status = pipe_main(
        rt,
        alloc,
        &owned,
        &mut around.input,
        &mut around.output,
        &mut around.diag,
        &mut around.shelf,
        gate,
    );
    Ok(status.number())
}
