//! Pieces of a text, of whole lines, which can be read side by side.
ghost use Rattle.std.specs.Prelude.{◌≡◌, ◌<◌, ◌++◌, nat_le, IfOk, length};
ghost use Rattle.sb_text.specs.Lines.{lines_of};
ghost use Rattle.sb_check.specs.Log.{most_records};
ghost use Rattle.sb_log.specs.PieceLines.{IsPiece, SplitsLines, piece_lines};

use sb_text::{Lines, NoMemory};
use std::alloc::AllocError;

const LF: u8 = b'\n';

/// The most lines of a log.
pub const RECORD_LIMIT: u64 = 1_048_576;

/// Whole lines of a text that stand one behind the other.
#[derive(Clone, Copy)]
pub struct Piece<'a> {
    /// How many lines of the text stand before them.
    pub before: u64,
    /// How many they are.
    pub lines: u64,
    pub bytes: &'a [u8],
}

impl<'a> Piece<'a> {
    /// A whole text.
    pub fn whole(bytes: &'a [u8]) -> Result<Piece<'a>, NoMemory>
        ensures piece { IfOk result IsPiece }
        ensures lines { IfOk result (λ piece. piece_lines piece ≡ lines_of bytes.now) }
    {
        Ok(Piece {
            before: 0,
            lines: count_lines(bytes)?,
            bytes,
        })
    }

    /// Whether a log may have so many lines.
    pub fn fits(&self) -> bool
        ensures { result ≡ nat_le self.now.lines most_records }
    {
        self.lines <= RECORD_LIMIT
    }

    /// The lines up to the first LF behind so many bytes, and those that follow; all of them and none where there is no such
    /// LF.
    pub fn split(self, size: usize) -> Result<(Piece<'a>, Piece<'a>), NoMemory>
        requires { IsPiece self }
        ensures first { IfOk result (λ both. IsPiece both.0) }
        ensures second { IfOk result (λ both. IsPiece both.1) }
        ensures lines { IfOk result (λ both. piece_lines both.0 ++ piece_lines both.1
            ≡ piece_lines self.entry) }
    {
        let Piece {
            before,
            lines,
            bytes,
        } = self;
        let (first, second) = first_piece(bytes, size);
        let count = count_lines(first)?;
        let behind = before.checked_add(count).ok_or(AllocError)?;
        let first = Piece {
            before,
            lines: count,
            bytes: first,
        };
        let second = Piece {
            before: behind,
            lines: lines.saturating_sub(count),
            bytes: second,
        };
        Ok((first, second))
    }
}

// The lines up to the first LF behind so many bytes, and those that follow; all of them where there is no such LF.
fn first_piece(bytes: &[u8], size: usize) -> (&[u8], &[u8])
    ensures lines { SplitsLines bytes.now result.0.now result.1.now }
    ensures fewer { 0 < length bytes.now → length result.1.now < length bytes.now }
{
    for at in size..bytes.len() {
        if bytes[at] == LF {
            return bytes.split_at(at + 1);
        }
    }
    (bytes, &[])
}

// The number of lines. No memory holds 2^64 of them.
fn count_lines(bytes: &[u8]) -> Result<u64, NoMemory>
    ensures { IfOk result (λ count. count ≡ length (lines_of bytes.now)) }
{
    let mut count: u64 = 0;
    for _ in Lines::new(bytes) {
        count = count.checked_add(1).ok_or(AllocError)?;
    }
    Ok(count)
}
