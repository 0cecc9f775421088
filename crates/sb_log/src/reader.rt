//! A log's records, one after the other.
ghost use Rattle.std.specs.Prelude.{◌≡◌, ◌<◌, IfOk, IfSome, length};
ghost use Rattle.sb_text.specs.Lines.{line_view};
ghost use Rattle.sb_check.specs.CheckedView.{checked_of};
ghost use Rattle.sb_check.specs.Log.{log_of, records_of};
ghost use Rattle.sb_log.specs.PieceLines.{IsPiece, line_behind, lines_behind, piece_lines};
ghost use Rattle.sb_log.specs.Reader.{GivesNext, left_of, lines_left, program_of};
ghost use Rattle.sb_log.specs.Reading.{AreGood, InBatch, SaysLine};

use crate::line_error::LineError;
use crate::pieces::{Piece, RECORD_LIMIT};
use crate::record::read_record;
use sb_check::{Checked, LogError};
use sb_text::{Line, Lines};
use sb_types::LogRecord;
use std::alloc::Global;
use std::mem::replace;

/// The records of a log, or of a piece of it, that are still to come. Each line is read when its record is asked for, and
/// no record is kept.
#[derive(Drop)]
pub struct Records<'a> {
    program: &'a Checked,
    lines: Lines<'a>,
    // How many lines of the log stand before the first of `lines`.
    before: u64,
    // How many records may still come.
    room: u64,
}

impl<'a> Records<'a> {
    /// The records of a whole text.
    pub fn new(program: &'a Checked, bytes: &'a [u8]) -> Self
        ensures program { program_of result ≡ checked_of program.now }
        ensures left { left_of result ≡ log_of (checked_of program.now) bytes.now }
    {
        Records {
            program,
            lines: Lines::new(bytes),
            before: 0,
            room: RECORD_LIMIT,
        }
    }

    /// The records of a piece of a text. A piece may have more than 1,048,576.
    pub fn of_piece(program: &'a Checked, piece: Piece<'a>) -> Self
        requires { IsPiece piece }
        ensures program { program_of result ≡ checked_of program.now }
        ensures left { left_of result ≡ records_of (checked_of program.now) (piece_lines piece.entry) }
    {
        Records {
            program,
            lines: Lines::new(piece.bytes),
            before: piece.before,
            room: piece.lines,
        }
    }

    /// The next record; none at the log's end. The error is the first bad line, with the first that is wrong with it, or
    /// `TooMany` exactly where no line is bad and there are more than 1,048,576: the lines past the limit are read too,
    /// when the record past the limit is asked for.
    pub fn next_record(&mut self, alloc: Global) -> Result<Option<LogRecord>, LogError>
        ensures program { program_of self.new ≡ program_of self.old }
        ensures next { GivesNext (left_of self.old) (left_of self.new) result }
        ensures batch { IfOk result (λ next. IfSome next (InBatch (program_of self.old).batching)) }
        ensures fewer { IfOk result (λ next.
            IfSome next (λ _. lines_left self.new < lines_left self.old)) }
    {
        let Some(line) = self.lines.next() else {
            return Ok(None);
        };
        let logged = read_line(alloc, self.program, self.before, line)?;
        if self.room == 0 {
            // A bad line decides before the number of lines.
            let rest = replace(&mut self.lines, Lines::new(&[]));
            read_rest(alloc, self.program, self.before, rest)?;
            return Err(LogError::TooMany);
        }
        self.room -= 1;
        Ok(Some(logged))
    }
}

// The record that a line says which stands behind so many others. No memory holds 2^64 lines.
fn read_line(
    alloc: Global,
    program: &Checked,
    before: u64,
    line: Line<'_>,
) -> Result<LogRecord, LogError>
    ensures says { SaysLine (checked_of program.now) (line_behind before (line_view line.entry))
        result }
    ensures batch { IfOk result (InBatch (checked_of program.now).batching) }
{
    let Some(number) = before.checked_add(line.number) else {
        return Err(LogError::NoMemory);
    };
    match read_record(alloc, program, Line { number, ..line }) {
        Ok(logged) => Ok(logged),
        Err(LineError::Bad(kind)) => Err(LogError::Line { line: number, kind }),
        Err(LineError::NoMemory) => Err(LogError::NoMemory),
    }
}

// Reads lines whose records are too many.
fn read_rest(
    alloc: Global,
    program: &Checked,
    before: u64,
    lines: Lines<'_>,
) -> Result<(), LogError>
    ensures { AreGood (records_of (checked_of program.now) (lines_behind before lines.entry)) result }
{
    for line in lines {
        read_line(alloc, program, before, line)?;
    }
    Ok(())
}
