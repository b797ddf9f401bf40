ghost use Rattle.std.specs.Prelude.{◌≡◌, ◌≢◌, false, IfErr, IfOk, [], map};
ghost use Rattle.std.specs.String.{string_bytes};
ghost use Rattle.clap.specs.Words.{app_of, fault_of, found_of, matches_of, rows_of, rule_of};
ghost use Rattle.call_words.specs.Command.{app, flag, IsFaulty, option};

use crate::command::WordsFault;
use clap::error::ErrorKind;
use clap::{Arg, ArgAction, ArgMatches, Command};
use pipe_model::NoMemory;
use std::alloc::Global;

// What clap reads in the words.
pub fn matches_of<'a>(alloc: Global, words: &'a [String]) -> Result<ArgMatches<'a>, WordsFault>
    ensures read { IfOk result (λ matches. fault_of app (map (λ word. string_bytes word) words.now) ≡ []) }
    ensures rows { IfOk result (λ matches. rows_of (found_of matches) ≡ matches_of app (map (λ word. string_bytes word) words.now)) }
    ensures refused { IfErr result (λ fault. fault ≡ WordsFault.Usage → IsFaulty (fault_of app (map (λ word. string_bytes word) words.now))) }
{
    let command = command(alloc)?;
    match command.try_get_matches_from(words) {
        Ok(matches) => Ok(matches),
        Err(error) => Err(fault_of_kind(error.kind())),
    }
}

// Want of memory stays what it is; any other kind is a fault of the words.
fn fault_of_kind(kind: ErrorKind) -> WordsFault
    ensures memory { kind ≡ ErrorKind.OutOfMemory → result ≡ WordsFault.NoMemory }
    ensures usage { kind ≢ ErrorKind.OutOfMemory → result ≡ WordsFault.Usage }
{
    match kind {
        ErrorKind::OutOfMemory => WordsFault::NoMemory,
        _ => WordsFault::Usage,
    }
}

// The program's command line: one optional positional, six options and a flag.
fn command<'a>(alloc: Global) -> Result<Command<'a>, NoMemory>
    ensures { IfOk result (λ command. app_of command ≡ app) }
{
    let bare = Command::new(alloc, "pipe")
        .disable_help_flag(true)
        .no_binary_name(true);
    let spec = bare.arg(Arg::new(alloc, "spec"))?;
    let workers = spec.arg(option(alloc, "workers"))?;
    let steps = workers.arg(option(alloc, "steps"))?;
    let trace = steps.arg(option(alloc, "trace"))?;
    let check = trace.arg(option(alloc, "check"))?;
    let sample = check.arg(option(alloc, "sample"))?;
    let sets = sample.arg(option(alloc, "sets"))?;
    Ok(sets.arg(flag(alloc, "lint"))?)
}

// An option of this name, with one value.
fn option<'a>(alloc: Global, name: &'a str) -> Arg<'a>
    ensures rule { rule_of result ≡ option name.entry.now }
    ensures own { result.global ≡ false }
{
    Arg::new(alloc, name).long(name)
}

// An option of this name, without a value.
fn flag<'a>(alloc: Global, name: &'a str) -> Arg<'a>
    ensures rule { rule_of result ≡ flag name.entry.now }
    ensures own { result.global ≡ false }
{
    Arg::new(alloc, name).long(name).action(ArgAction::SetTrue)
}
