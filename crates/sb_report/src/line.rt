//! Lines of a transcript.
ghost use Rattle.std.specs.Prelude.{◌≡◌, ◌∷◌, ◌++◌, ◌<◌, codes, decimal, length, take, OnOk, OnErr};
ghost use Rattle.sb_text.specs.Ranges.{ranges_text};
ghost use Rattle.sb_report.specs.Report.{row_text};
ghost use Rattle.sb_check.specs.CheckedView.{checked_of};
ghost use Rattle.sb_report.specs.Transcript.{line_text, store_name, value_text, cover_text, asked_text, refused_text, NamesStore};

use crate::rows::push_row_front;
use sb_check::Checked;
use sb_text::{NoMemory, Ranges, Text, write_u64};
use std::alloc::Global;

/// A line of a transcript. Keys and values are the texts that are printed.
#[derive(Drop)]
pub enum TranscriptLine {
    /// The value of a key over the published batches and the chunks of the cover; `published` is at most 65,536.
    Read {
        store: u32,
        key: Text,
        value: Text,
        published: u64,
        floor: u64,
        cover: Ranges,
    },
    /// The value up to a batch.
    Asof {
        batch: u64,
        store: u32,
        key: Text,
        value: Text,
        published: u64,
        floor: u64,
        cover: Ranges,
    },
    /// No value: the batch that was asked for isn't told apart from later ones below the floor.
    Expired {
        store: u32,
        key: Text,
        asked: u64,
        floor: u64,
    },
    /// The chunks that are known to be flushed.
    Flushed {
        chunks: Ranges,
    },
    /// How many chunks were worked, and which.
    Worked {
        count: u64,
        chunks: Ranges,
    },
    /// The number of published batches.
    Published {
        published: u64,
    },
    /// The floor, below which batches are summed up.
    Floor {
        floor: u64,
    },
    /// The floor isn't raised: it was asked to pass the published batches.
    Refused {
        asked: u64,
        published: u64,
    },
    /// All chunks are worked, and the report follows.
    Drained,
    /// A row of the report.
    Row {
        store: u32,
        key: Text,
        value: Text,
    },
    End,
}

/// Writes a line with its LF at the end of `out`, with the names of the program's stores. A refusal leaves `out` as it was.
pub fn write_line(
    alloc: Global,
    c: &Checked,
    line: &TranscriptLine,
    out: &mut Vec<u8>,
) -> Result<(), NoMemory>
    requires { NamesStore (length (checked_of c.now).declared.stores) line.now }
    ensures ok { OnOk result (out.new.items
        ≡ out.old.items ++ line_text (store_name (checked_of c.now).declared) line.now) }
    ensures err { OnErr result (out.new.items ≡ out.old.items) }
{
    let before = out.len();
    match push_line(alloc, c, line, out) {
        Ok(()) => Ok(()),
        Err(e) => {
            out.truncate(before);
            Err(e)
        }
    }
}

// Each `push_` stops in the middle where it finds no memory; what stood before is there still.
fn push_line(
    alloc: Global,
    c: &Checked,
    line: &TranscriptLine,
    out: &mut Vec<u8>,
) -> Result<(), NoMemory>
    requires { NamesStore (length (checked_of c.now).declared.stores) line.now }
    ensures ok { OnOk result (out.new.items
        ≡ out.old.items ++ line_text (store_name (checked_of c.now).declared) line.now) }
    ensures front { take (length out.old.items) out.new.items ≡ out.old.items }
{
    match line {
        TranscriptLine::Read {
            store,
            key,
            value,
            published,
            floor,
            cover,
        } => {
            out.extend_from_slice(b"read ")?;
            push_value(name_of(c, *store), key, value, out)?;
            push_cover(alloc, *published, *floor, cover, out)
        }
        TranscriptLine::Asof {
            batch,
            store,
            key,
            value,
            published,
            floor,
            cover,
        } => {
            push_number(alloc, b"asof ", *batch, out)?;
            out.push(b' ')?;
            push_value(name_of(c, *store), key, value, out)?;
            push_cover(alloc, *published, *floor, cover, out)
        }
        TranscriptLine::Expired {
            store,
            key,
            asked,
            floor,
        } => {
            push_expired(name_of(c, *store), key, out)?;
            push_asked(alloc, *asked, *floor, out)
        }
        TranscriptLine::Flushed { chunks } => push_chunks(b"flushed ", chunks, out),
        TranscriptLine::Worked { count, chunks } => {
            push_number(alloc, b"worked ", *count, out)?;
            push_chunks(b" ", chunks, out)
        }
        TranscriptLine::Published { published } => {
            push_last_number(alloc, b"published ", *published, out)
        }
        TranscriptLine::Floor { floor } => push_last_number(alloc, b"floor ", *floor, out),
        TranscriptLine::Refused { asked, published } => {
            push_refused(alloc, *asked, *published, out)
        }
        TranscriptLine::Drained => out.extend_from_slice(b"drained\n"),
        TranscriptLine::Row { store, key, value } => {
            push_row(name_of(c, *store), key, value, out)
        }
        TranscriptLine::End => out.extend_from_slice(b"end\n"),
    }
}

fn name_of(c: &Checked, store: u32) -> &Text
    requires { store < length (checked_of c.now).declared.stores }
    ensures { result.now ≡ store_name (checked_of c.now).declared store }
{
    &c.stores()[store as usize].name
}

// A word, and a number behind it.
fn push_number(alloc: Global, word: &[u8], number: u64, out: &mut Vec<u8>) -> Result<(), NoMemory>
    ensures ok { OnOk result (out.new.items ≡ out.old.items ++ (word.now ++ decimal number)) }
    ensures front { take (length out.old.items) out.new.items ≡ out.old.items }
{
    out.extend_from_slice(word)?;
    write_u64(alloc, out, number)
}

// A word, and a number behind it, to the end of the line.
fn push_last_number(
    alloc: Global,
    word: &[u8],
    number: u64,
    out: &mut Vec<u8>,
) -> Result<(), NoMemory>
    ensures ok { OnOk result (out.new.items
        ≡ out.old.items ++ (word.now ++ (decimal number ++ codes "\n"))) }
    ensures front { take (length out.old.items) out.new.items ≡ out.old.items }
{
    push_number(alloc, word, number, out)?;
    out.extend_from_slice(b"\n")
}

// A word, and chunks behind it, to the end of the line.
fn push_chunks(word: &[u8], chunks: &Ranges, out: &mut Vec<u8>) -> Result<(), NoMemory>
    ensures ok { OnOk result (out.new.items
        ≡ out.old.items ++ (word.now ++ (ranges_text chunks.now ++ codes "\n"))) }
    ensures front { take (length out.old.items) out.new.items ≡ out.old.items }
{
    out.extend_from_slice(word)?;
    chunks.text(out)?;
    out.extend_from_slice(b"\n")
}

fn push_value(store: &Text, key: &Text, value: &Text, out: &mut Vec<u8>) -> Result<(), NoMemory>
    ensures ok { OnOk result (out.new.items
        ≡ out.old.items ++ value_text store.now key.now value.now) }
    ensures front { take (length out.old.items) out.new.items ≡ out.old.items }
{
    out.extend_from_slice(store.as_bytes())?;
    out.push(b' ')?;
    out.extend_from_slice(key.as_bytes())?;
    out.push(b' ')?;
    out.extend_from_slice(value.as_bytes())
}

// The numbers and the chunks by which a value was read.
fn push_cover(
    alloc: Global,
    published: u64,
    floor: u64,
    cover: &Ranges,
    out: &mut Vec<u8>,
) -> Result<(), NoMemory>
    ensures ok { OnOk result (out.new.items
        ≡ out.old.items ++ cover_text published floor cover.now) }
    ensures front { take (length out.old.items) out.new.items ≡ out.old.items }
{
    push_number(alloc, b" p=", published, out)?;
    push_number(alloc, b" f=", floor, out)?;
    push_chunks(b" c=", cover, out)
}

fn push_expired(store: &Text, key: &Text, out: &mut Vec<u8>) -> Result<(), NoMemory>
    ensures ok { OnOk result (out.new.items
        ≡ out.old.items ++ (codes "expired " ++ (store.now ++ 32 ∷ key.now))) }
    ensures front { take (length out.old.items) out.new.items ≡ out.old.items }
{
    out.extend_from_slice(b"expired ")?;
    out.extend_from_slice(store.as_bytes())?;
    out.push(b' ')?;
    out.extend_from_slice(key.as_bytes())
}

// The batch that was asked for and the floor above it.
fn push_asked(alloc: Global, asked: u64, floor: u64, out: &mut Vec<u8>) -> Result<(), NoMemory>
    ensures ok { OnOk result (out.new.items ≡ out.old.items ++ asked_text asked floor) }
    ensures front { take (length out.old.items) out.new.items ≡ out.old.items }
{
    push_number(alloc, b" asked=", asked, out)?;
    push_last_number(alloc, b" f=", floor, out)
}

fn push_refused(
    alloc: Global,
    asked: u64,
    published: u64,
    out: &mut Vec<u8>,
) -> Result<(), NoMemory>
    ensures ok { OnOk result (out.new.items
        ≡ out.old.items ++ (codes "refused expire" ++ refused_text asked published)) }
    ensures front { take (length out.old.items) out.new.items ≡ out.old.items }
{
    out.extend_from_slice(b"refused expire")?;
    push_above(alloc, asked, published, out)
}

// The floor that was asked for and the published batches below it.
fn push_above(alloc: Global, asked: u64, published: u64, out: &mut Vec<u8>) -> Result<(), NoMemory>
    ensures ok { OnOk result (out.new.items ≡ out.old.items ++ refused_text asked published) }
    ensures front { take (length out.old.items) out.new.items ≡ out.old.items }
{
    push_number(alloc, b" asked=", asked, out)?;
    push_last_number(alloc, b" p=", published, out)
}

fn push_row(store: &Text, key: &Text, value: &Text, out: &mut Vec<u8>) -> Result<(), NoMemory>
    ensures ok { OnOk result (out.new.items
        ≡ out.old.items ++ row_text store.now key.now value.now) }
    ensures front { take (length out.old.items) out.new.items ≡ out.old.items }
{
    push_row_front(store, key, out)?;
    out.extend_from_slice(value.as_bytes())?;
    out.extend_from_slice(b"\n")
}
