//! The program `pipe`: its words, its standard streams and the files of its folder, handed to the one call that does the work.
#![tactic(auto)]

ghost use Rattle.std.specs.Prelude.{map, None};
ghost use Rattle.std.specs.String.{string_bytes};
ghost use Rattle.outside.specs.Device.{device};
ghost use Rattle.call_meaning.specs.Devices.{outside, store};
ghost use Rattle.call_meaning.specs.Answer.{Answers};

use outside::{FolderShelf, OpenGate, StdSink, StdSource};
use pipe_cli::{Status, pipe_main};
use std::alloc::{AllocError, Global};
use std::env;
use std::io::{ErrorKind, Read, Write};
use std::process::ExitCode;
use std::rt::{Env, Files};
use std::sync::Wait;
use std::thread::Threads;

// The words after the program's name. A word that isn't UTF-8 makes the command line faulty, as does no word at all.
fn words(rt: &(impl AllocGlobal + Env)) -> Result<Vec<String>, AllocError> {
    match env::args(rt) {
        Ok(args) => args.skip(1).collect(rt.alloc()),
        Err(error) if error.kind() == ErrorKind::OutOfMemory => Err(AllocError),
        Err(_) => Ok(Vec::new(rt.alloc())),
    }
}

// Does what the words say with these streams, the files of the folder where the program runs and an open gate, and gives back the objects
// that were made of them, which tell what is left and written, and how many calls failed.
fn call<'a, Rt: Threads + Wait + Files + Sync, I: Read, O: Write, D: Write>(
    rt: &'a Rt,
    alloc: Global,
    words: &[String],
    input: I,
    output: O,
    diag: D,
) -> (
    Status,
    StdSource<I>,
    StdSink<O>,
    StdSink<D>,
    FolderShelf<'a, Rt>,
)
    ensures { Answers (map (λ word. string_bytes word) words.now) (outside (device (I.remaining input) 0) (device (O.contents output) 0) (store None 0 0))
        (outside result.1 result.2 (store None result.4.faults result.4.wants)) (device (D.contents diag) 0) result.3 result.0 }
{
    let mut source = StdSource::new(input);
    let mut sink = StdSink::new(output);
    let mut texts = StdSink::new(diag);
    let mut shelf = FolderShelf::new(rt);
    let status = pipe_main(
        rt,
        alloc,
        words,
        &mut source,
        &mut sink,
        &mut texts,
        &mut shelf,
        &OpenGate,
    );
    (status, source, sink, texts, shelf)
}

fn main(rt: HostRuntime) -> ExitCode {
    let alloc = rt.alloc();
    let Ok(words) = words(&rt) else {
        let _ = eprintln!(rt; "out of memory");
        return ExitCode::from(Status::NoMemory.number());
    };
    let (status, _, _, _, _) = call(&rt, alloc, &words, rt.stdin(), rt.stdout(), rt.stderr());
    ExitCode::from(status.number())
}
