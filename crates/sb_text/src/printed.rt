//! Texts as they are printed.
ghost use Rattle.std.specs.Prelude.{◌≡◌, IsUtf8, IfOk};
ghost use Rattle.std.specs.Fmt.{signed_decimal};
ghost use Rattle.sb_text.specs.Escape.{escaped};

use crate::escaping::is_plain_text;
use crate::{NoMemory, Text, escape};
use std::alloc::Global;

impl Text {
    /// The text's escaped form. A text with nothing to escape is given back as it is, and takes no memory.
    pub fn escaped(self, alloc: Global) -> Result<Text, NoMemory>
        ensures value { IfOk result (λ text. text ≡ escaped self) }
    {
        if is_plain_text(self.as_bytes()) {
            return Ok(self);
        }
        let mut bytes = Vec::new(alloc);
        escape(alloc, &mut bytes, self.as_bytes())?;
        Ok(text_of(bytes))
    }

    /// The number's canonical decimal.
    pub fn from_i64(alloc: Global, number: i64) -> Result<Text, NoMemory>
        ensures value { IfOk result (λ text. text ≡ signed_decimal number) }
    {
        Ok(Text::from_string(number.to_string(alloc)?))
    }
}

// The text that the bytes are known to be.
fn text_of(bytes: Vec<u8>) -> Text
    requires { IsUtf8 bytes.items }
    ensures { result ≡ bytes.items }
{
    match Text::from_bytes(bytes) {
        Some(text) => text,
        None => unreachable!(),
    }
}
