//! From the words to the command that they are.
ghost use Rattle.std.specs.Prelude.{◌≡◌, IfOk};
ghost use Rattle.clap.specs.Words.{found_of, rows_of};
ghost use Rattle.sb_words.specs.Answers.{Answers};
ghost use Rattle.sb_words.specs.Command.{command_of, check_in, batch_in, run_in, audit_in, demo_in, demo_from};
ghost use Rattle.sb_words.specs.Forms.{texts};
ghost use Rattle.sb_words.specs.Limits.{IsWithin};

use crate::clap_command::{find_audit, find_batch, find_check, find_demo, find_run};
use crate::matches::{required, value};
use crate::numbers::number;
use crate::services::services;
use crate::settings::{MOST_WORKERS, chunk, settings, shards};
use crate::{Command, WordsError};
use clap::ArgMatches;
use std::alloc::Global;

// The records of a generated log.
const MOST_GENERATED: u64 = 1_048_576;

/// The command that the words of a command line are, without the program's own name; `Usage` exactly where they are
/// none. A command's numbers are within their limits, and its services have different names.
pub fn words(alloc: Global, words: &[String]) -> Result<Command, WordsError>
    ensures command { Answers (command_of (texts words.now)) result }
    ensures limits { IfOk result IsWithin }
{
    read(alloc, words)
}

fn read(alloc: Global, words: &[String]) -> Result<Command, WordsError>
    ensures { Answers (command_of (texts words.now)) result }
{
    let [command, words @ ..] = words else {
        return Err(WordsError::Usage);
    };
    match command.as_str() {
        "check" => read_check(alloc, words),
        "batch" => read_batch(alloc, words),
        "run" => read_run(alloc, words),
        "audit" => read_audit(alloc, words),
        "demo" => read_demo(alloc, words),
        _ => Err(WordsError::Usage),
    }
}

#[tactic(auto, unfolding(crate::specs::Command::check_in))]
fn read_check(alloc: Global, words: &[String]) -> Result<Command, WordsError>
    ensures { Answers (check_in (texts words.now)) result }
{
    let matches = find_check(alloc, words)?;
    let program = required(alloc, &matches, "program")?;
    Ok(Command::Check { program })
}

#[tactic(auto, unfolding(crate::specs::Command::batch_in))]
fn read_batch(alloc: Global, words: &[String]) -> Result<Command, WordsError>
    ensures { Answers (batch_in (texts words.now)) result }
{
    let matches = find_batch(alloc, words)?;
    let program = required(alloc, &matches, "program")?;
    let log = required(alloc, &matches, "log")?;
    let services = services(alloc, &matches)?;
    Ok(Command::Batch {
        program,
        log,
        services,
    })
}

#[tactic(auto, unfolding(crate::specs::Command::run_in))]
fn read_run(alloc: Global, words: &[String]) -> Result<Command, WordsError>
    ensures { Answers (run_in (texts words.now)) result }
{
    let matches = find_run(alloc, words)?;
    let program = required(alloc, &matches, "program")?;
    let log = required(alloc, &matches, "log")?;
    let script = required(alloc, &matches, "script")?;
    let services = services(alloc, &matches)?;
    let Some(settings) = settings(&matches) else {
        return Err(WordsError::Usage);
    };
    Ok(Command::Run {
        program,
        log,
        script,
        services,
        settings,
    })
}

#[tactic(auto, unfolding(crate::specs::Command::audit_in))]
fn read_audit(alloc: Global, words: &[String]) -> Result<Command, WordsError>
    ensures { Answers (audit_in (texts words.now)) result }
{
    let matches = find_audit(alloc, words)?;
    let program = required(alloc, &matches, "program")?;
    let log = required(alloc, &matches, "log")?;
    let script = required(alloc, &matches, "script")?;
    let transcript = required(alloc, &matches, "transcript")?;
    let services = services(alloc, &matches)?;
    let Some(chunk) = chunk(&matches) else {
        return Err(WordsError::Usage);
    };
    let Some(shards) = shards(&matches) else {
        return Err(WordsError::Usage);
    };
    Ok(Command::Audit {
        program,
        log,
        script,
        transcript,
        services,
        chunk,
        shards,
    })
}

#[tactic(auto, unfolding(crate::specs::Command::demo_in))]
fn read_demo(alloc: Global, words: &[String]) -> Result<Command, WordsError>
    ensures { Answers (demo_in (texts words.now)) result }
{
    let matches = find_demo(alloc, words)?;
    match read_numbers(&matches) {
        Some(command) => Ok(command),
        None => Err(WordsError::Usage),
    }
}

#[tactic(auto, unfolding(crate::specs::Command::demo_from))]
fn read_numbers(matches: &ArgMatches<'_>) -> Option<Command>
    ensures { result ≡ demo_from (rows_of (found_of matches.now)) }
{
    let seed = number(0, u64::MAX, value(matches, "seed")?)?;
    let records = number(0, MOST_GENERATED, value(matches, "records")?)?;
    let workers = number(0, MOST_WORKERS, value(matches, "workers")?)?;
    Some(Command::Demo {
        seed,
        records,
        workers: workers as u32,
    })
}
