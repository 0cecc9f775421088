//! A row: a call, or one call for each of its cases, and what it has to give.

use std::alloc::{AllocError, Global};

/// A file of the shelf, or one that several rows share.
#[derive(Drop)]
pub struct File {
    pub name: String,
    pub bytes: Vec<u8>,
}

impl File {
    /// An empty file.
    pub fn new(alloc: Global, name: &str) -> Result<File, AllocError> {
        Ok(File {
            name: String::from_str(alloc, name)?,
            bytes: Vec::new(alloc),
        })
    }
}

/// A call of a row's own: its words or one of its files, and its output where that isn't the row's.
#[derive(Drop)]
pub struct Case {
    pub file: File,
    pub output: Option<Vec<u8>>,
}

/// The words and files of a call, its faults, and the status and the bytes that it has to give.
#[derive(Drop)]
pub struct Row {
    pub title: String,
    pub words: Vec<String>,
    pub files: Vec<File>,
    /// None, where the row is a single call.
    pub cases: Vec<Case>,
    /// The fetches of the shelf that fail, from 1.
    pub failing_fetches: Vec<u64>,
    /// The puts of the sink that fail, from 1.
    pub failing_puts: Vec<u64>,
    pub status: u8,
    pub output: Vec<u8>,
}

impl Row {
    /// A row without words and files, which wants status 0 and no output.
    pub fn new(alloc: Global, title: &str) -> Result<Row, AllocError> {
        Ok(Row {
            title: String::from_str(alloc, title)?,
            words: Vec::new(alloc),
            files: Vec::new(alloc),
            cases: Vec::new(alloc),
            failing_fetches: Vec::new(alloc),
            failing_puts: Vec::new(alloc),
            status: 0,
            output: Vec::new(alloc),
        })
    }
}

/// The words of a line, which stand between blanks.
pub fn words_of(alloc: Global, line: &str) -> Result<Vec<String>, AllocError> {
    let mut words = Vec::new(alloc);
    for word in line.split_whitespace() {
        words.push(String::from_str(alloc, word)?)?;
    }
    Ok(words)
}
