//! The columns of a line, one after the other.
ghost use Rattle.std.specs.Prelude.{◌≡◌, ◌==◌, ◌≤◌, filter, length};
ghost use Rattle.sb_text.specs.Columns.{columns_of, pieces};

use crate::splitting::split_once;
use std::marker::Model;

const TAB: u8 = b'\t';

/// The columns of a line, from the first on: what stands between its tabs, or between other separators. A line has one
/// column more than separators.
#[derive(Drop)]
pub struct Columns<'a> {
    separator: u8,
    rest: Option<&'a [u8]>,
}

impl<'a> Model for Columns<'a> {
    ghost use Rattle.std.specs.Prelude.{List, ℕ};
    ghost use Rattle.sb_text.specs.Columns.{columns_left};

    ghost Value = { List (List ℕ) };

    ghost view = { λ s. columns_left s.separator s.rest };
}

impl<'a> Columns<'a> {
    /// The columns of a line without its LF.
    pub fn new(line: &'a [u8]) -> Self
        ensures { result ≡ columns_of line.now }
    {
        Columns::separated_by(line, TAB)
    }

    /// The columns of a line without its LF, where this byte stands between them.
    pub fn separated_by(line: &'a [u8], separator: u8) -> Self
        ensures { result ≡ pieces separator line.now }
    {
        Columns {
            separator,
            rest: Some(line),
        }
    }

    /// The number of columns that are left.
    pub fn left(&self) -> usize
        ensures { result ≡ length self.now }
    {
        match self.rest {
            Some(rest) => count_columns(rest, self.separator),
            None => 0,
        }
    }
}

fn count_columns(line: &[u8], separator: u8) -> usize
    ensures { result ≡ length (pieces separator line.now) }
{
    count_separators(line, separator) + 1
}

fn count_separators(line: &[u8], separator: u8) -> usize
    ensures count { result ≡ length (filter (λ byte. byte == separator) line.now) }
    ensures bound { result ≤ length line.now }
{
    line.iter().filter(|byte| **byte == separator).count()
}

impl<'a> Iterator for Columns<'a> {
    ghost use Rattle.std.specs.Iterator.{YieldsFirstRef, item_count};

    type Item = &'a [u8];

    ghost next_gives = { YieldsFirstRef (λ s. s) };

    ghost remaining = { item_count (λ s. s) };

    fn next(&mut self) -> Option<&'a [u8]> {
        let line = self.rest?;
        match split_once(line, self.separator) {
            Some((column, rest)) => {
                self.rest = Some(rest);
                Some(column)
            }
            None => {
                self.rest = None;
                Some(line)
            }
        }
    }
}
