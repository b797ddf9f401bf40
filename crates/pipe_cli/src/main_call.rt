ghost use Rattle.std.specs.Prelude.{map};
ghost use Rattle.std.specs.String.{string_bytes};
ghost use Rattle.outside.specs.Device.{device};
ghost use Rattle.call_meaning.specs.Devices.{outside, store};
ghost use Rattle.call_meaning.specs.Answer.{Answers, Decides, Reports};
ghost use Rattle.call_streams.specs.Texts.{IsTelling};

use crate::check_call::check_call;
use crate::lint_call::lint_call;
use crate::run_call::run_call;
use crate::sample_call::sample_call;
use crate::sets_call::sets_call;
use call_meaning::{Call, Status, called};
use call_streams::{Told, tell, write_all};
use outside::{Gate, Shelf, Sink, Source};
use std::alloc::Global;
use std::sync::Wait;
use std::thread::Threads;

/// Does what the words after the program's name say, and tells a status other than `Zero` as a text on `diag`.
///
/// A run reads `input` and the files of `shelf` that its stages read, writes `output`, replaces the files that its stages replace and then,
/// where a file is named for it, the one of its journal. It reads its words first, then the specification, then the files in the order of
/// their stages, then the input, where a CONSOLE reads it, runs, makes all texts, then writes the output, replaces the files in the order of
/// the bytes of their names and the journal's last, and tells the status. After a fault of the output no file is replaced; after one of the
/// shelf the files before are. A check fetches the journal before the files, plays it instead of a run, and writes what it is. A lint and
/// the sample read nothing. A gate that isn't always open is entered before the work on each record that a stage saw.
pub fn pipe_main<Rt: Threads + Wait + Sync, I: Source, O: Sink, E: Sink, F: Shelf, G: Gate + Sync>(
    rt: &Rt,
    alloc: Global,
    words: &[String],
    input: &mut I,
    output: &mut O,
    diag: &mut E,
    shelf: &mut F,
    gate: &G,
) -> Status
    ensures answers { Answers (map (λ word. string_bytes word) words.now)
        (outside (device (I.left input.old) (I.faults input.old)) (device (O.written output.old) (O.faults output.old)) (store (F.files shelf.old) (F.faults shelf.old) (F.wants shelf.old)))
        (outside (device (I.left input.new) (I.faults input.new)) (device (O.written output.new) (O.faults output.new)) (store (F.files shelf.new) (F.faults shelf.new) (F.wants shelf.new)))
        (device (E.written diag.old) (E.faults diag.old)) (device (E.written diag.new) (E.faults diag.new))
        result }
{
    let told = run(rt, alloc, words, input, output, shelf, gate);
    report(told, diag)
}

// Does what the words say, apart from telling the outcome.
fn run<Rt: Threads + Wait + Sync, I: Source, O: Sink, F: Shelf, G: Gate + Sync>(
    rt: &Rt,
    alloc: Global,
    words: &[String],
    input: &mut I,
    output: &mut O,
    shelf: &mut F,
    gate: &G,
) -> Told
    ensures decides { Decides (map (λ word. string_bytes word) words.now)
        (outside (device (I.left input.old) (I.faults input.old)) (device (O.written output.old) (O.faults output.old)) (store (F.files shelf.old) (F.faults shelf.old) (F.wants shelf.old)))
        (outside (device (I.left input.new) (I.faults input.new)) (device (O.written output.new) (O.faults output.new)) (store (F.files shelf.new) (F.faults shelf.new) (F.wants shelf.new)))
        result.outcome }
    ensures text { IsTelling result }
{
    let call = match called(alloc, words) {
        Ok(call) => call,
        Err(outcome) => return tell(alloc, outcome),
    };
    match call {
        Call::Run {
            net,
            workers,
            steps,
            trace,
        } => run_call(
            rt, alloc, net, steps, workers, trace, input, output, shelf, gate,
        ),
        Call::Check { net, name } => check_call(alloc, net, name, input, output, shelf),
        Call::Lint { net } => lint_call(alloc, &net, output),
        Call::Sample {
            net,
            lines,
            workers,
            steps,
        } => sample_call(rt, alloc, net, lines, steps, workers, output, gate),
        Call::Sets {
            name,
            workers,
            steps,
        } => sets_call(rt, alloc, name, steps, workers, input, output, shelf, gate),
    }
}

// Tells an outcome that has a text. Where that fails, the status is a write fault.
fn report<E: Sink>(told: Told, diag: &mut E) -> Status
    requires { IsTelling told }
    ensures { Reports told.outcome result (device (E.written diag.old) (E.faults diag.old)) (device (E.written diag.new) (E.faults diag.new)) }
{
    match write_all(diag, told.text.bytes()) {
        Ok(()) => told.outcome.status(),
        Err(_) => Status::WriteFault,
    }
}
