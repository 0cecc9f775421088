//! The texts of keys.
ghost use Rattle.std.specs.Prelude.{◌≡◌, IfOk};
ghost use Rattle.sb_types.specs.Text.{value_text};
ghost use Rattle.sb_types.specs.ValView.{value_of};

use sb_text::{NoMemory, Text};
use sb_types::{Val, text};
use std::alloc::{AllocError, Global};

/// The text of a key.
pub fn key_text(alloc: Global, key: &Val) -> Result<Text, NoMemory>
    ensures { IfOk result (λ text. text ≡ value_text (value_of key.now)) }
{
    // A text with nothing to escape is copied as it is.
    if let Val::Text(key) = key {
        return key.copy(alloc)?.escaped(alloc);
    }
    let mut bytes = Vec::new(alloc);
    text(alloc, key, &mut bytes)?;
    text_of(bytes)
}

/// The text that these bytes are. Texts of values and of sums are UTF-8; bytes that aren't are answered as want of memory.
pub fn text_of(bytes: Vec<u8>) -> Result<Text, NoMemory>
    ensures { IfOk result (λ text. text ≡ bytes.items) }
{
    Text::from_bytes(bytes).ok_or(AllocError)
}
