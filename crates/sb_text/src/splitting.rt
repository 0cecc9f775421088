//! Bytes split at the first separator.
ghost use Rattle.std.specs.Prelude.{◌≡◌, ◌++◌, ◌∷◌, MatchOption};
ghost use Rattle.sb_text.specs.Columns.{Lacks};

/// What stands before the first separator, and what follows it; `None` where there is no separator.
pub(crate) fn split_once(bytes: &[u8], separator: u8) -> Option<(&[u8], &[u8])>
    ensures { MatchOption result (Lacks separator bytes.now)
        (λ parts. Lacks separator parts.0.now
        × (bytes.now ≡ parts.0.now ++ separator ∷ parts.1.now)) }
{
    for (at, byte) in bytes.iter().enumerate() {
        if *byte == separator {
            return Some((&bytes[..at], &bytes[at + 1..]));
        }
    }
    None
}
