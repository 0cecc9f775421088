//! Lines of contents: `| TEXT` once, `N| TEXT` N times, `A..B| TEXT` for each number from A to B.

use anyhow::{Context, Result, bail};
use sb_text::write_u64;
use std::alloc::Global;

// What stands before the next byte of a line's text.
#[derive(Clone, Copy)]
enum Before {
    Byte,
    Backslash,
    FirstDigit,
    SecondDigit(u8),
}

/// Whether the line is one of contents.
pub fn is_contents(line: &str) -> bool {
    match line.split_once('|') {
        Some((numbers, _)) => numbers
            .bytes()
            .all(|byte| byte.is_ascii_digit() || byte == b'.'),
        None => false,
    }
}

/// Appends what a line of contents says.
pub fn append_contents(alloc: Global, line: &str, out: &mut Vec<u8>) -> Result<()> {
    let (numbers, text) = line.split_once('|').context("no line of contents")?;
    let text = text.strip_prefix(' ').unwrap_or(text);
    let (first, last) = match numbers.split_once("..") {
        Some((first, last)) => (number_of(first)?, number_of(last)?),
        None if numbers.is_empty() => (1, 1),
        None => (1, number_of(numbers)?),
    };
    for number in u64::from(first)..u64::from(last) + 1 {
        append_line(alloc, text, number, out)?;
    }
    Ok(())
}

/// A number below 2^32.
pub fn number_of(text: &str) -> Result<u32> {
    match text.parse::<u32>() {
        Ok(number) => Ok(number),
        Err(_) => bail!("a number was expected"),
    }
}

/// Appends a line's text with an LF, or with none where it ends in a single backslash. `\#` stands for the number.
pub fn append_line(alloc: Global, text: &str, number: u64, out: &mut Vec<u8>) -> Result<()> {
    let mut before = Before::Byte;
    for byte in text.bytes() {
        before = match before {
            Before::Byte if byte == b'\\' => Before::Backslash,
            Before::Byte => push(out, byte)?,
            Before::Backslash if byte == b'#' => {
                write_u64(alloc, out, number)?;
                Before::Byte
            }
            Before::Backslash if byte == b'x' => Before::FirstDigit,
            Before::Backslash => push(out, escaped(byte)?)?,
            Before::FirstDigit => Before::SecondDigit(digit_of(byte)?),
            Before::SecondDigit(first) => push(out, first << 4 | digit_of(byte)?)?,
        };
    }
    match before {
        Before::Byte => out.push(b'\n')?,
        Before::Backslash => {}
        _ => bail!("two digits are wanted behind \\x"),
    }
    Ok(())
}

fn push(out: &mut Vec<u8>, byte: u8) -> Result<Before> {
    out.push(byte)?;
    Ok(Before::Byte)
}

// The byte that stands behind a backslash.
fn escaped(letter: u8) -> Result<u8> {
    match letter {
        b't' => Ok(b'\t'),
        b'n' => Ok(b'\n'),
        b'r' => Ok(b'\r'),
        b'\\' => Ok(b'\\'),
        _ => bail!("no such escape"),
    }
}

fn digit_of(digit: u8) -> Result<u8> {
    match digit {
        b'0'..=b'9' => Ok(digit - b'0'),
        b'a'..=b'f' => Ok(digit - b'a' + 10),
        _ => bail!("no hexadecimal digit"),
    }
}
