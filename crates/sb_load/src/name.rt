//! Names of stores and services that are kept without an allocation.
ghost use Rattle.std.specs.Prelude.{◌≡◌, ◌≤◌, length, IfOk};

use arrayvec::ArrayString;
use sb_text::{NoMemory, Text};
use std::alloc::AllocError;
use std::marker::Model;
use std::str::from_utf8;

/// A name of a program: at most 64 bytes, in a fixed room. Contracts see its bytes.
#[derive(Drop)]
pub struct Name {
    text: ArrayString<64>,
}

impl Model for Name {
    ghost use Rattle.std.specs.Prelude.{◌≤◌, List, ℕ, length};

    ghost Value = { List ℕ };

    ghost view = { λ n. n.text.bytes };

    ghost invariant = { λ n. length n.text.bytes ≤ 64 };
}

impl Name {
    /// The name that a text is. No name of a program has more than 64 bytes; a longer text is answered as want of memory.
    pub fn new(text: &Text) -> Result<Name, NoMemory>
        ensures { IfOk result (λ name. name ≡ text.now) }
    {
        let Ok(text) = from_utf8(text.as_bytes()) else {
            return Err(AllocError);
        };
        name_of(text)
    }

    /// An equal name. Takes no memory.
    pub fn copy(&self) -> Name
        ensures { result ≡ self.now }
    {
        Name { text: self.text }
    }

    /// The name's text.
    pub fn as_str(&self) -> &str
        ensures value { result.now ≡ self.now }
        ensures length { length result.now ≤ 64 }
    {
        self.text.as_str()
    }
}

fn name_of(text: &str) -> Result<Name, NoMemory>
    ensures { IfOk result (λ name. name ≡ text.now) }
{
    match ArrayString::from(text) {
        Ok(text) => Ok(Name { text }),
        Err(_) => Err(AllocError),
    }
}
