ghost use Rattle.std.specs.Prelude.{IfOk};
ghost use Rattle.clap.specs.Words.{first_value, found_of};
ghost use Rattle.call_words.specs.Command.{IsWithinRanges, check_of, demanded, given_by, lint_of, run_of, sample_of, sets_of};
ghost use Rattle.call_words.specs.Gives.{Gives};

use crate::command::{Command, WordsFault};
use crate::values::{is_on, lines_in, name_if, name_in, set_steps_in, steps_in, workers_in};
use clap::ArgMatches;
use pipe_model::Rec;
use std::alloc::Global;

// The command of what the words give.
pub fn demanded(alloc: Global, matches: &ArgMatches<'_>) -> Result<Command, WordsFault>
    ensures command { Gives (demanded (given_by (first_value (found_of matches.now)))) result }
    ensures few { IfOk result IsWithinRanges }
{
    if is_on(matches.get_str("lint")) {
        return lint(alloc, matches);
    }
    match (
        matches.get_str("spec"),
        matches.get_str("check"),
        matches.get_str("sample"),
        matches.get_str("sets"),
    ) {
        (Some(spec), None, None, None) => run(alloc, spec, matches),
        (Some(spec), Some(name), None, None) => check(alloc, spec, name, matches),
        (None, None, Some(lines), None) => sample(lines, matches),
        (None, None, None, Some(name)) => sets(alloc, name, matches),
        _ => Err(WordsFault::Usage),
    }
}

// The run of a specification.
fn run(alloc: Global, spec: &str, matches: &ArgMatches<'_>) -> Result<Command, WordsFault>
    ensures command { Gives (run_of spec.now (given_by (first_value (found_of matches.now)))) result }
    ensures few { IfOk result IsWithinRanges }
{
    let workers = workers_in(matches.get_str("workers")).ok_or(WordsFault::Usage)?;
    let steps = steps_in(matches.get_str("steps")).ok_or(WordsFault::Usage)?;
    let trace = name_if(alloc, matches.get_str("trace"))?;
    let spec = Rec::from_slice(alloc, spec.as_bytes())?;
    Ok(Command::Run {
        spec,
        workers,
        steps,
        trace,
    })
}

// The check of a journal.
fn check(
    alloc: Global,
    spec: &str,
    name: &str,
    matches: &ArgMatches<'_>,
) -> Result<Command, WordsFault>
    ensures command { Gives (check_of spec.now name.now (given_by (first_value (found_of matches.now)))) result }
    ensures few { IfOk result IsWithinRanges }
{
    if matches.get_str("workers").is_some()
        || matches.get_str("steps").is_some()
        || matches.get_str("trace").is_some()
    {
        return Err(WordsFault::Usage);
    }
    let name = name_in(alloc, name)?;
    let spec = Rec::from_slice(alloc, spec.as_bytes())?;
    Ok(Command::Check { spec, name })
}

// The lint of a specification.
fn lint(alloc: Global, matches: &ArgMatches<'_>) -> Result<Command, WordsFault>
    ensures command { Gives (lint_of (given_by (first_value (found_of matches.now)))) result }
    ensures few { IfOk result IsWithinRanges }
{
    if matches.get_str("workers").is_some()
        || matches.get_str("steps").is_some()
        || matches.get_str("trace").is_some()
        || matches.get_str("check").is_some()
        || matches.get_str("sample").is_some()
        || matches.get_str("sets").is_some()
    {
        return Err(WordsFault::Usage);
    }
    let spec = matches.get_str("spec").ok_or(WordsFault::Usage)?;
    let spec = Rec::from_slice(alloc, spec.as_bytes())?;
    Ok(Command::Lint { spec })
}

// The sample of so many lines.
fn sample(lines: &str, matches: &ArgMatches<'_>) -> Result<Command, WordsFault>
    ensures command { Gives (sample_of lines.now (given_by (first_value (found_of matches.now)))) result }
    ensures few { IfOk result IsWithinRanges }
{
    if matches.get_str("trace").is_some() {
        return Err(WordsFault::Usage);
    }
    let lines = lines_in(lines).ok_or(WordsFault::Usage)?;
    let workers = workers_in(matches.get_str("workers")).ok_or(WordsFault::Usage)?;
    let steps = steps_in(matches.get_str("steps")).ok_or(WordsFault::Usage)?;
    Ok(Command::Sample {
        lines,
        workers,
        steps,
    })
}

// The sets of a file.
fn sets(alloc: Global, name: &str, matches: &ArgMatches<'_>) -> Result<Command, WordsFault>
    ensures command { Gives (sets_of name.now (given_by (first_value (found_of matches.now)))) result }
    ensures few { IfOk result IsWithinRanges }
{
    let None = matches.get_str("trace") else {
        return Err(WordsFault::Usage);
    };
    let workers = workers_in(matches.get_str("workers")).ok_or(WordsFault::Usage)?;
    let steps = set_steps_in(matches.get_str("steps")).ok_or(WordsFault::Usage)?;
    let name = name_in(alloc, name)?;
    Ok(Command::Sets {
        name,
        workers,
        steps,
    })
}
