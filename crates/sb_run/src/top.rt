//! The top call.
ghost use Rattle.std.specs.Prelude.{◌≡◌, ◌≤◌, ◌==◌, ◌&&◌, not, Some};
ghost use Rattle.sb_io.specs.Faults.{Rose};
ghost use Rattle.sb_run.specs.Call.{texts, Ends, NamesFaultOf, Refuses, LeavesOf, Keeps};
ghost use Rattle.sb_run.specs.Due.{Due, IsDue, is_served};
ghost use Rattle.sb_words.specs.Command.{command_of};
ghost use Rattle.sb_words.specs.Limits.{IsWithin};

use crate::batch::batch_command;
use crate::check::check_command;
use crate::ending::{put_refusal, put_unserved, put_usage};
use crate::live::run_command;
use sb_io::{Shelf, Sink};
use sb_load::Refusal;
use sb_words::{Command, Settings, WordsError};
use std::alloc::Global;
use std::random::RandomSource;
use std::thread::Threads;

/// Does what the words of a command line say, without the program's own name: reads the files that they name from the
/// shelf, and writes to the sink. The answer is the status: 0 done, 2 no command, 3 a fault of the shelf, 4 a fault of
/// the sink, 5 want of memory, 6 a program that isn't accepted, 7 a log that isn't, 8 a script that isn't, 9 a service that
/// isn't. A refusal's line is written, but at 4.
pub fn summingbird<R: Threads + RandomSource + Sync, H: Shelf, K: Sink>(
    rt: &R,
    alloc: Global,
    words: &[String],
    shelf: &mut H,
    sink: &mut K,
) -> u8
    // Where the shelf tells its files, the call does what is due, but for faults and want of memory.
    ensures exact { (due : Due) → IsDue (H.content shelf.old) (command_of (texts words.now)) due
        → Ends due (K.written sink.old) (K.written sink.new) result }

    // Whatever the shelf tells: the cause of a fault, and of each refusal with its line.
    ensures shelf { result ≡ 3 → NamesFaultOf (command_of (texts words.now)) (H.faults shelf.old)
        (H.faults shelf.new) (K.written sink.old) (K.written sink.new) }
    ensures sink { result ≡ 4 → Rose (K.faults sink.old) (K.faults sink.new) }
    ensures refusals { Refuses (command_of (texts words.now)) (H.faults shelf.old)
        (H.faults shelf.new) result (K.written sink.old) (K.written sink.new) }

    // What the call leaves of the shelf, and of the sink's count.
    ensures frame { LeavesOf (command_of (texts words.now)) (H.content shelf.old)
        (H.content shelf.new) (H.faults shelf.old) (H.faults shelf.new) }
    ensures later { K.faults sink.old ≤ K.faults sink.new }
{
    match sb_words::words(alloc, words) {
        Ok(command) => carry_out(rt, alloc, shelf, sink, &command),
        Err(WordsError::Usage) => put_usage(sink),
        Err(WordsError::NoMemory) => put_refusal(sink, &Refusal::NoMemory),
    }
}

// Does what a command says.
fn carry_out<R: Threads + RandomSource + Sync, H: Shelf, K: Sink>(
    rt: &R,
    alloc: Global,
    shelf: &mut H,
    sink: &mut K,
    command: &Command,
) -> u8
    requires within { IsWithin command.now }
    ensures { Keeps (Some command.now) (H.content shelf.old) (H.content shelf.new)
        (H.faults shelf.old) (H.faults shelf.new) (K.written sink.old) (K.written sink.new)
        (K.faults sink.old) (K.faults sink.new) result }
{
    if !is_served(command) {
        return put_unserved(sink);
    }
    match command {
        Command::Check { .. } => check_command(alloc, command, shelf, sink),
        Command::Batch { .. } => batch_command(rt, alloc, command, shelf, sink),
        _ => run_command(rt, alloc, command, shelf, sink),
    }
}

fn is_served(command: &Command) -> bool
    ensures { result ≡ is_served command.now }
{
    match command {
        Command::Check { .. } | Command::Batch { .. } => true,
        Command::Run { settings, .. } => are_served(settings),
        Command::Audit { .. } | Command::Demo { .. } => false,
    }
}

// A run without workers and publisher.
fn are_served(settings: &Settings) -> bool
    ensures { result ≡ (settings.now.workers == 0 && not settings.now.publisher) }
{
    settings.workers == 0 && !settings.publisher
}
