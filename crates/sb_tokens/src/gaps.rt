//! What stands between tokens: blanks and comments.
ghost use Rattle.std.specs.Prelude.{◌≡◌, ℕ, ◌+◌, ◌≤◌, drop, length};
ghost use Rattle.sb_tokens.specs.Lexed.{is_blank, lexed_from, BeginsNoGap};

const LF: u8 = b'\n';

/// The number of bytes before the next token.
pub(crate) fn gap_length(bytes: &[u8]) -> usize
    ensures value { (offset : ℕ) → lexed_from offset bytes.now
        ≡ lexed_from (offset + result) (drop result bytes.now) }
    ensures whole { BeginsNoGap (drop result bytes.now) }
    ensures bound { result ≤ length bytes.now }
{
    let mut in_comment = false;
    for (at, byte) in bytes.iter().enumerate() {
        if in_comment {
            in_comment = *byte != LF;
        } else if *byte == b'#' {
            in_comment = true;
        } else if !is_blank(*byte) {
            return at;
        }
    }
    bytes.len()
}

fn is_blank(byte: u8) -> bool
    ensures { result ≡ is_blank byte }
{
    matches!(byte, b' ' | b'\t' | b'\n' | b'\r')
}
