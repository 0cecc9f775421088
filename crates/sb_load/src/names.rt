//! The names of a command's files.
ghost use Rattle.std.specs.Prelude.{◌≡◌, None, IfSome};
ghost use Rattle.sb_load.specs.Commands.{program_name};
ghost use Rattle.sb_load.specs.Steps.{AreNames};

use sb_text::Text;
use sb_words::Command;

/// The files that a command names; what it doesn't read is none.
#[derive(Clone, Copy)]
pub struct Names<'a> {
    pub program: &'a Text,
    pub services: &'a [(Text, Text)],
    pub log: Option<&'a Text>,
    pub script: Option<&'a Text>,
    /// The records of a chunk, where the log is divided.
    pub chunk: Option<u64>,
}

/// The names of the files of a command; none where it reads no program.
pub fn names_of(command: &Command) -> Option<Names<'_>>
    ensures names { IfSome result (AreNames command.now) }
    ensures none { result ≡ None → program_name command.now ≡ None }
{
    match command {
        Command::Check { program } => Some(Names {
            program,
            services: &[],
            log: None,
            script: None,
            chunk: None,
        }),
        Command::Batch {
            program,
            log,
            services,
        } => Some(Names {
            program,
            services: services.as_slice(),
            log: Some(log),
            script: None,
            chunk: None,
        }),
        Command::Run {
            program,
            log,
            script,
            services,
            settings,
        } => Some(Names {
            program,
            services: services.as_slice(),
            log: Some(log),
            script: Some(script),
            chunk: Some(settings.chunk),
        }),
        Command::Audit {
            program,
            log,
            script,
            services,
            chunk,
            ..
        } => Some(Names {
            program,
            services: services.as_slice(),
            log: Some(log),
            script: Some(script),
            chunk: Some(*chunk),
        }),
        Command::Demo { .. } => None,
    }
}
