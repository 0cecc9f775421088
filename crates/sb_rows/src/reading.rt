//! Rows are read line by line: a heading, then fields, each with a value or with lines of contents below it.

use crate::contents::{append_contents, append_line, is_contents, number_of};
use crate::row::{Case, File, Row, words_of};
use anyhow::{Context, Result, bail};
use std::alloc::Global;
use std::mem;

// What the lines of contents belong to.
#[derive(Drop)]
enum Block {
    Nothing,
    Shared(File),
    File(File),
    Output(Vec<u8>),
    Session { script: File, output: Vec<u8> },
    Cases { name: String, last: Option<Case> },
}

/// What was read of a text of rows.
#[derive(Drop)]
pub struct Reader {
    alloc: Global,
    shared: Vec<File>,
    row: Option<Row>,
    block: Block,
}

impl Reader {
    /// Before the first line.
    pub fn new(alloc: Global) -> Reader {
        Reader {
            alloc,
            shared: Vec::new(alloc),
            row: None,
            block: Block::Nothing,
        }
    }

    /// Reads a line. A heading ends the row before it, and answers it.
    pub fn read_line(&mut self, line: &str) -> Result<Option<Row>> {
        if line.is_empty() || line.starts_with('#') {
            return Ok(None);
        }
        if let Some(heading) = line.strip_prefix("== ") {
            let row = self.finish()?;
            self.open_heading(heading)?;
            return Ok(row);
        }
        if let Some(asked) = line.strip_prefix("> ") {
            self.append_asked(asked)?;
        } else if is_contents(line) {
            self.append(line)?;
        } else {
            self.close_block()?;
            self.read_field(line)?;
        }
        Ok(None)
    }

    /// The row that was being read.
    pub fn finish(&mut self) -> Result<Option<Row>> {
        self.close_block()?;
        Ok(mem::replace(&mut self.row, None))
    }

    fn open_heading(&mut self, heading: &str) -> Result<()> {
        match heading.split_once(' ') {
            Some(("row", title)) => self.row = Some(Row::new(self.alloc, title)?),
            Some(("file", name)) => self.block = Block::Shared(File::new(self.alloc, name)?),
            _ => bail!("a heading is a row's or a file's"),
        }
        Ok(())
    }

    // Gives what was read to what it belongs to.
    fn close_block(&mut self) -> Result<()> {
        match mem::replace(&mut self.block, Block::Nothing) {
            Block::Nothing => Ok(()),
            Block::Shared(file) => self.push_shared(file),
            Block::File(file) => self.push_file(file),
            Block::Output(output) => self.set_output(output),
            Block::Session { script, output } => {
                self.push_file(script)?;
                self.set_output(output)
            }
            Block::Cases { name, last } => {
                drop(name);
                self.push_case(last)
            }
        }
    }

    fn push_shared(&mut self, file: File) -> Result<()> {
        self.shared.push(file)?;
        Ok(())
    }

    fn push_file(&mut self, file: File) -> Result<()> {
        self.current()?.files.push(file)?;
        Ok(())
    }

    fn set_output(&mut self, output: Vec<u8>) -> Result<()> {
        self.current()?.output = output;
        Ok(())
    }

    fn push_case(&mut self, case: Option<Case>) -> Result<()> {
        if let Some(case) = case {
            self.current()?.cases.push(case)?;
        }
        Ok(())
    }

    fn current(&mut self) -> Result<&mut Row> {
        self.row.as_mut().context("a row's heading comes first")
    }

    // A line of contents. In a session and behind a case it is one of the output.
    fn append(&mut self, line: &str) -> Result<()> {
        let out = match &mut self.block {
            Block::Shared(file) => &mut file.bytes,
            Block::File(file) => &mut file.bytes,
            Block::Output(output) => output,
            Block::Session { output, .. } => output,
            Block::Cases { last, .. } => {
                let case = last.as_mut().context("a case comes first")?;
                case.output.get_or_insert(Vec::new(self.alloc))
            }
            Block::Nothing => bail!("contents of nothing"),
        };
        append_contents(self.alloc, line, out)
    }

    // A line behind `>`: an ask of a session, or a case.
    fn append_asked(&mut self, line: &str) -> Result<()> {
        let alloc = self.alloc;
        match &mut self.block {
            Block::Session { script, .. } => append_line(alloc, line, 1, &mut script.bytes),
            Block::Cases { name, last } => {
                let mut file = File::new(alloc, name.as_str())?;
                append_line(alloc, line, 1, &mut file.bytes)?;
                let case = Case { file, output: None };
                let before = mem::replace(last, Some(case));
                self.push_case(before)
            }
            _ => bail!("asked outside of a session"),
        }
    }

    fn read_field(&mut self, line: &str) -> Result<()> {
        if let Some((name, shared)) = line.split_once(" = ") {
            return self.add_shared(name, shared);
        }
        let alloc = self.alloc;
        let (field, value) = line.split_once(':').context("no field")?;
        match field {
            "words" => self.current()?.words = words_of(alloc, value)?,
            "status" => self.current()?.status = status_of(value.trim())?,
            "fail-fetch" => {
                let call = number_of(value.trim())?;
                self.current()?.failing_fetches.push(u64::from(call))?;
            }
            "fail-put" => {
                let call = number_of(value.trim())?;
                self.current()?.failing_puts.push(u64::from(call))?;
            }
            _ => self.open_block(field)?,
        }
        Ok(())
    }

    fn open_block(&mut self, field: &str) -> Result<()> {
        let alloc = self.alloc;
        self.block = match field.strip_prefix("each ") {
            Some(name) => Block::Cases {
                name: String::from_str(alloc, name)?,
                last: None,
            },
            None if field == "output" => Block::Output(Vec::new(alloc)),
            None if field == "session" => Block::Session {
                script: File::new(alloc, "script")?,
                output: Vec::new(alloc),
            },
            None => Block::File(File::new(alloc, field)?),
        };
        Ok(())
    }

    // Adds a copy of a file that rows share.
    fn add_shared(&mut self, name: &str, shared: &str) -> Result<()> {
        let mut file = File::new(self.alloc, name)?;
        let same = self.shared.iter().find(|file| file.name.as_str() == shared);
        let content = same.context("no such file above")?;
        file.bytes.extend_from_slice(&content.bytes)?;
        self.push_file(file)
    }
}

fn status_of(text: &str) -> Result<u8> {
    match text.parse::<u8>() {
        Ok(status) => Ok(status),
        Err(_) => bail!("a status is a number below 256"),
    }
}
