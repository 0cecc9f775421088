//! Scripts: what their lines ask.
ghost use Rattle.std.specs.Prelude.{◌≡◌, ◌<◌, ℕ, [], ◌∷◌, ◌+◌, map, length, Some, None, IfOk, IfSome, option_map, if◌then◌else◌, slice_get};
ghost use Rattle.std.specs.List.{AllByRecursion};
ghost use Rattle.sb_check.specs.CheckedView.{checked_of};
ghost use Rattle.sb_check.specs.Declarations.{store_of};
ghost use Rattle.sb_check.specs.Names.{found};
ghost use Rattle.sb_text.specs.Decimal.{natural};
ghost use Rattle.sb_text.specs.Lines.{line_view};
ghost use Rattle.sb_types.specs.TyView.{type_of};
ghost use Rattle.sb_report.specs.declared.script.Ask.{Ask as AskOf};
ghost use Rattle.sb_report.specs.Script.{ReadsScript, AsksOf, script_of, ask_of, ask_in, key_in, read_in, asof_in, look_in, number_in, is_text_of};

use sb_check::{Checked, StoreDecl};
use sb_text::{Columns, Line, Lines, NoMemory, Text, read_u64};
use sb_types::{Ty, read_front};
use std::alloc::{AllocError, Global};
use thiserror::Error;

const BLANK: u8 = b' ';

// A script has at most so many lines.
const LINE_LIMIT: u64 = 65_536;

// The greatest number that a line says, but for a batch.
const NUMBER_LIMIT: u64 = 65_536;

// The greatest batch.
const LAST_BATCH: u64 = 65_535;

/// What a line of a script asks.
#[derive(Drop)]
pub enum Ask {
    /// The sum of a key of a store. The key is its text.
    Read { store: u32, key: Text },
    /// The sum up to a batch, which is at most 65,535.
    Asof { batch: u64, store: u32, key: Text },
    /// Which chunks are known to be flushed.
    Look,
    /// To work at most so many of the chunks that are left.
    Work { most: u64 },
    /// To publish the batches below this one.
    Publish { upto: u64 },
    /// To sum up the batches below this one, so that none of them is told apart any more.
    Expire { floor: u64 },
}

/// Why a script isn't read: its first bad line, from 1, or want of memory.
#[derive(Clone, Copy, Debug, PartialEq, Eq, Error)]
pub enum ScriptError {
    #[error("line {line} of the script asks nothing")]
    BadLine { line: u64 },
    #[error("out of memory")]
    NoMemory,
}

impl From<NoMemory> for ScriptError {
    ghost use Rattle.std.specs.Prelude.{◌≡◌};
    ghost use Rattle.sb_report.specs.declared.script.ScriptError.TheVariants.{NoMemory as no_memory};

    ghost from_gives = { λ _ e. e ≡ no_memory };

    fn from(_: NoMemory) -> ScriptError {
        ScriptError::NoMemory
    }
}

/// The asks of a script for the stores of a program. Keys are given by their texts.
pub fn read_script(alloc: Global, c: &Checked, bytes: &[u8]) -> Result<Vec<Ask>, ScriptError>
    ensures read { ReadsScript (script_of (checked_of c.now).declared bytes.now) result }
    ensures stores { IfOk result (λ asks.
        AllByRecursion (AsksOf (length (checked_of c.now).declared.stores)) asks.items) }
{
    read_lines(alloc, c, bytes)
}

fn read_lines(alloc: Global, c: &Checked, bytes: &[u8]) -> Result<Vec<Ask>, ScriptError>
    ensures { ReadsScript (script_of (checked_of c.now).declared bytes.now) result }
{
    let mut asks = Vec::new(alloc);
    for line in Lines::new(bytes) {
        let Some(ask) = read_line(alloc, c, line)? else {
            return Err(ScriptError::BadLine { line: line.number });
        };
        asks.push(ask).map_err(|_| ScriptError::NoMemory)?;
    }
    Ok(asks)
}

fn read_line(alloc: Global, c: &Checked, line: Line<'_>) -> Result<Option<Ask>, NoMemory>
    ensures { IfOk result (λ ask. ask
        ≡ ask_of (checked_of c.now).declared (line_view line.entry)) }
{
    if !line.ended || line.number > LINE_LIMIT {
        return Ok(None);
    }
    let mut words = Columns::separated_by(line.bytes, BLANK);
    read_words(alloc, c, &mut words)
}

fn read_words(alloc: Global, c: &Checked, words: &mut Columns<'_>) -> Result<Option<Ask>, NoMemory>
    ensures { IfOk result (λ ask. ask ≡ ask_in (checked_of c.now).declared words.old) }
{
    let Some(word) = words.next() else {
        return Ok(None);
    };
    if word == b"read".as_slice() {
        return read_read(alloc, c, words);
    }
    if word == b"asof".as_slice() {
        return read_asof(alloc, c, words);
    }
    if word == b"look".as_slice() {
        return Ok(read_look(words));
    }
    if word == b"work".as_slice() {
        return Ok(read_number(words).map(|most| Ask::Work { most }));
    }
    if word == b"publish".as_slice() {
        return Ok(read_number(words).map(|upto| Ask::Publish { upto }));
    }
    if word == b"expire".as_slice() {
        return Ok(read_number(words).map(|floor| Ask::Expire { floor }));
    }
    Ok(None)
}

// What stands behind `read`.
fn read_read(alloc: Global, c: &Checked, words: &mut Columns<'_>) -> Result<Option<Ask>, NoMemory>
    ensures { IfOk result (λ ask. ask ≡ read_in (checked_of c.now).declared words.old) }
{
    match read_key(alloc, c, words)? {
        Some((store, key)) => Ok(Some(Ask::Read { store, key })),
        None => Ok(None),
    }
}

// What stands behind `asof`.
fn read_asof(alloc: Global, c: &Checked, words: &mut Columns<'_>) -> Result<Option<Ask>, NoMemory>
    ensures { IfOk result (λ ask. ask ≡ asof_in (checked_of c.now).declared words.old) }
{
    let Some(batch) = words.next() else {
        return Ok(None);
    };
    let Some(batch) = read_up_to(batch, LAST_BATCH) else {
        return Ok(None);
    };
    match read_key(alloc, c, words)? {
        Some((store, key)) => Ok(Some(Ask::Asof { batch, store, key })),
        None => Ok(None),
    }
}

// What stands behind `look`.
fn read_look(words: &mut Columns<'_>) -> Option<Ask>
    ensures { result ≡ look_in words.old }
{
    match words.next() {
        Some(_) => None,
        None => Some(Ask::Look),
    }
}

// A store's number and the text of one of its keys.
fn read_key(
    alloc: Global,
    c: &Checked,
    words: &mut Columns<'_>,
) -> Result<Option<(u32, Text)>, NoMemory>
    ensures { IfOk result (λ key. key ≡ key_in (checked_of c.now).declared words.old) }
{
    let Some(name) = words.next() else {
        return Ok(None);
    };
    let Some(key) = words.next() else {
        return Ok(None);
    };
    if words.next().is_some() {
        return Ok(None);
    }
    find_key(alloc, c, name, key)
}

fn find_key(
    alloc: Global,
    c: &Checked,
    name: &[u8],
    key: &[u8],
) -> Result<Option<(u32, Text)>, NoMemory>
    ensures { IfOk result (λ found. found
        ≡ key_in (checked_of c.now).declared (name.now ∷ key.now ∷ [])) }
{
    let Some((at, store)) = find_store(c.stores(), name) else {
        return Ok(None);
    };
    match text_of_key(alloc, &store.key, key)? {
        Some(key) => Ok(Some((number_of(at)?, key))),
        None => Ok(None),
    }
}

// The store of a name, with its place among the stores.
fn find_store<'a>(stores: &'a [StoreDecl], name: &[u8]) -> Option<(usize, &'a StoreDecl)>
    ensures { option_map (λ s. (s.0, store_of s.1.now)) result
        ≡ found (λ s. s.name) name.now (map store_of stores.now) }
{
    for (at, store) in stores.iter().enumerate() {
        if name == store.name.as_bytes() {
            return Some((at, store));
        }
    }
    None
}

// No memory holds 2^32 stores.
fn number_of(at: usize) -> Result<u32, NoMemory>
    ensures { IfOk result (λ number. number ≡ at) }
{
    u32::try_from(at).map_err(|_| AllocError)
}

// What stands behind `work`, `publish` and `expire`.
fn read_number(words: &mut Columns<'_>) -> Option<u64>
    ensures { (ask : ℕ → AskOf) → option_map ask result ≡ number_in ask words.old }
{
    let word = words.next()?;
    if words.next().is_some() {
        return None;
    }
    read_up_to(word, NUMBER_LIMIT)
}

fn read_up_to(bytes: &[u8], limit: u64) -> Option<u64>
    ensures { result ≡ natural limit bytes.now }
{
    let number = read_u64(bytes)?;
    if number <= limit { Some(number) } else { None }
}

// The key's text, where it is that of a value of the type. Texts of values are UTF-8, so what isn't is none.
fn text_of_key(alloc: Global, ty: &Ty, key: &[u8]) -> Result<Option<Text>, NoMemory>
    ensures { IfOk result (λ text. text
        ≡ (if is_text_of (type_of ty.now) key.now then Some key.now else
        None)) }
{
    match read_front(alloc, ty, key)? {
        Some((_, [])) => Ok(Some(copy_text(alloc, key)?)),
        _ => Ok(None),
    }
}

// The bytes as a text. What isn't UTF-8 is no value's text and doesn't come here.
fn copy_text(alloc: Global, bytes: &[u8]) -> Result<Text, NoMemory>
    ensures { IfOk result (λ text. text ≡ bytes.now) }
{
    Text::from_bytes(bytes.to_vec(alloc)?).ok_or(AllocError)
}
