//! The `clap` command of each form of words, and what it finds in them.
ghost use Rattle.std.specs.Prelude.{◌≡◌, true, false, IfOk, fold, map};
ghost use Rattle.clap.specs.Words.{app_of, is_simple_and_free, rule_of, with_rule};
ghost use Rattle.sb_words.specs.Forms.{audit_form, bare, batch_form, check_form, demo_form, flag, option, positional, run_form, service_words, texts};
ghost use Rattle.sb_words.specs.Found.{Finds};

use crate::WordsError;
use clap::error::ErrorKind;
use clap::{Arg, ArgAction, ArgMatches, Command};
use std::alloc::{AllocError, Global};

// A required word.
fn positional<'a>(alloc: Global, id: &'a str) -> Arg<'a>
    ensures rule { rule_of result ≡ positional id.entry.now }
    ensures local { result.global ≡ false }
{
    Arg::new(alloc, id).required(true)
}

// Any number of service words.
fn service_words<'a>(alloc: Global) -> Arg<'a>
    ensures rule { rule_of result ≡ service_words }
    ensures local { result.global ≡ false }
{
    Arg::new(alloc, "services").action(ArgAction::Append)
}

// An option with one value.
fn option<'a>(alloc: Global, name: &'a str) -> Arg<'a>
    ensures rule { rule_of result ≡ option name.entry.now }
    ensures local { result.global ≡ false }
{
    Arg::new(alloc, name).long(name)
}

fn flag<'a>(alloc: Global, name: &'a str) -> Arg<'a>
    ensures rule { rule_of result ≡ flag name.entry.now }
    ensures local { result.global ≡ false }
{
    Arg::new(alloc, name).long(name).action(ArgAction::SetTrue)
}

fn bare<'a>(alloc: Global, name: &'a str) -> Command<'a>
    ensures { app_of result ≡ bare name.entry.now }
{
    Command::new(alloc, name)
        .no_binary_name(true)
        .disable_help_flag(true)
        .disable_version_flag(true)
}

fn with_positionals<'a>(
    alloc: Global,
    command: Command<'a>,
    ids: &[&'a str],
) -> Result<Command<'a>, AllocError>
    ensures { IfOk result (λ c. app_of c
        ≡ fold with_rule (app_of command.entry) (map (λ id. positional id.now) ids.now)) }
{
    let mut command = command;
    for id in ids {
        command = command.arg(positional(alloc, id))?;
    }
    Ok(command)
}

fn with_options<'a>(
    alloc: Global,
    command: Command<'a>,
    names: &[&'a str],
) -> Result<Command<'a>, AllocError>
    ensures { IfOk result (λ c. app_of c
        ≡ fold with_rule (app_of command.entry) (map (λ name. option name.now) names.now)) }
{
    let mut command = command;
    for name in names {
        command = command.arg(option(alloc, name))?;
    }
    Ok(command)
}

// `check PROGRAM`.
fn check_command<'a>(alloc: Global) -> Result<Command<'a>, AllocError>
    ensures { IfOk result (λ c. app_of c ≡ check_form) }
{
    with_positionals(alloc, bare(alloc, "check"), &["program"])
}

// `batch PROGRAM LOG` and service words.
fn batch_command<'a>(alloc: Global) -> Result<Command<'a>, AllocError>
    ensures { IfOk result (λ c. app_of c ≡ batch_form) }
{
    with_positionals(alloc, bare(alloc, "batch"), &["program", "log"])?.arg(service_words(alloc))
}

// `run PROGRAM LOG SCRIPT`, service words and options.
fn run_command<'a>(alloc: Global) -> Result<Command<'a>, AllocError>
    ensures { IfOk result (λ c. app_of c ≡ run_form) }
{
    let files = ["program", "log", "script"];
    let options = ["workers", "shards", "chunk", "cache", "every", "keep"];
    let command = with_positionals(alloc, bare(alloc, "run"), &files)?;
    let command = command.arg(service_words(alloc))?;
    let command = with_options(alloc, command, &options)?;
    command.arg(flag(alloc, "publisher"))
}

// `audit PROGRAM LOG SCRIPT TRANSCRIPT`, service words and options.
fn audit_command<'a>(alloc: Global) -> Result<Command<'a>, AllocError>
    ensures { IfOk result (λ c. app_of c ≡ audit_form) }
{
    let files = ["program", "log", "script", "transcript"];
    let options = ["shards", "chunk"];
    let command = with_positionals(alloc, bare(alloc, "audit"), &files)?;
    let command = command.arg(service_words(alloc))?;
    with_options(alloc, command, &options)
}

// `demo SEED RECORDS WORKERS`.
fn demo_command<'a>(alloc: Global) -> Result<Command<'a>, AllocError>
    ensures { IfOk result (λ c. app_of c ≡ demo_form) }
{
    with_positionals(alloc, bare(alloc, "demo"), &["seed", "records", "workers"])
}

/// What `check` finds in the words behind it.
pub fn find_check<'a>(alloc: Global, words: &'a [String]) -> Result<ArgMatches<'a>, WordsError>
    ensures { Finds check_form (texts words.entry.now) result }
{
    parse(check_command(alloc)?, words)
}

/// What `batch` finds in the words behind it.
pub fn find_batch<'a>(alloc: Global, words: &'a [String]) -> Result<ArgMatches<'a>, WordsError>
    ensures { Finds batch_form (texts words.entry.now) result }
{
    parse(batch_command(alloc)?, words)
}

/// What `run` finds in the words behind it.
pub fn find_run<'a>(alloc: Global, words: &'a [String]) -> Result<ArgMatches<'a>, WordsError>
    ensures { Finds run_form (texts words.entry.now) result }
{
    parse(run_command(alloc)?, words)
}

/// What `audit` finds in the words behind it.
pub fn find_audit<'a>(alloc: Global, words: &'a [String]) -> Result<ArgMatches<'a>, WordsError>
    ensures { Finds audit_form (texts words.entry.now) result }
{
    parse(audit_command(alloc)?, words)
}

/// What `demo` finds in the words behind it.
pub fn find_demo<'a>(alloc: Global, words: &'a [String]) -> Result<ArgMatches<'a>, WordsError>
    ensures { Finds demo_form (texts words.entry.now) result }
{
    parse(demo_command(alloc)?, words)
}

// What the command finds in the words.
#[tactic(auto, unfolding(crate::specs::Forms::rows_in))]
fn parse<'a>(command: Command<'a>, words: &'a [String]) -> Result<ArgMatches<'a>, WordsError>
    requires { is_simple_and_free (app_of command) ≡ true }
    ensures { Finds (app_of command.entry) (texts words.entry.now) result }
{
    match command.try_get_matches_from(words) {
        Ok(matches) => Ok(matches),
        Err(error) => match error.kind() {
            ErrorKind::OutOfMemory => Err(WordsError::NoMemory),
            _ => Err(WordsError::Usage),
        },
    }
}
