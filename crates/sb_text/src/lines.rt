//! The lines of a text, one after the other.
ghost use Rattle.std.specs.Prelude.{◌≡◌};
ghost use Rattle.sb_text.specs.Lines.{lines_of};

use crate::splitting::split_once;
use std::marker::Model;

const LF: u8 = b'\n';

/// A line of a text, without its LF.
#[derive(Clone, Copy)]
pub struct Line<'a> {
    /// The line's number, from 1.
    pub number: u64,
    pub bytes: &'a [u8],
    /// Whether an LF ends it. Only a text's last line may lack it.
    pub ended: bool,
}

/// The lines of a text, from the first on. Each is lent from the text, and none is copied.
#[derive(Drop)]
pub struct Lines<'a> {
    next: u64,
    rest: &'a [u8],
}

impl<'a> Model for Lines<'a> {
    ghost use Rattle.std.specs.Prelude.{List, ◌+◌, ◌<◌, ◌^◌, length};
    ghost use Rattle.sb_text.specs.Lines.{Line as LineOf, lines_from};

    ghost Value = { List LineOf };

    ghost view = { λ s. lines_from s.next s.rest.now };

    // So that the number of a line fits.
    ghost invariant = { λ s. s.next + length s.rest.now < 2 ^ 64 };
}

impl<'a> Lines<'a> {
    /// The lines of these bytes.
    pub fn new(bytes: &'a [u8]) -> Self
        ensures { result ≡ lines_of bytes.now }
    {
        Lines {
            next: 1,
            rest: bytes,
        }
    }
}

impl<'a> Iterator for Lines<'a> {
    ghost use Rattle.std.specs.Iterator.{YieldsFirstBy, item_count};
    ghost use Rattle.sb_text.specs.Lines.{line_view};

    type Item = Line<'a>;

    ghost next_gives = { YieldsFirstBy line_view (λ s. s) };

    ghost remaining = { item_count (λ s. s) };

    fn next(&mut self) -> Option<Line<'a>> {
        if self.rest.is_empty() {
            return None;
        }
        let (number, text) = (self.next, self.rest);
        self.next = number + 1;
        match split_once(text, LF) {
            Some((bytes, rest)) => {
                self.rest = rest;
                Some(Line {
                    number,
                    bytes,
                    ended: true,
                })
            }
            None => {
                self.rest = &[];
                Some(Line {
                    number,
                    bytes: text,
                    ended: false,
                })
            }
        }
    }
}
