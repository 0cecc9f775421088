//! The names of services.
ghost use Rattle.std.specs.Prelude.{◌≡◌};
ghost use Rattle.sb_tokens.specs.Word.{is_letter, is_letter_or_digit, are_word_bytes, is_name};
ghost use Rattle.std.specs.List.{list_all};

use sb_tokens::Keyword;

const NAME_LIMIT: usize = 64;

/// Whether the bytes are a NAME.
pub fn is_name(bytes: &[u8]) -> bool
    ensures { result ≡ is_name bytes.now }
{
    are_word_bytes(bytes) && bytes.len() <= NAME_LIMIT && Keyword::from_bytes(bytes).is_none()
}

fn are_word_bytes(bytes: &[u8]) -> bool
    ensures { result ≡ are_word_bytes bytes.now }
{
    match bytes {
        [] => false,
        [first, rest @ ..] => is_letter(*first) && are_letters_or_digits(rest),
    }
}

fn are_letters_or_digits(bytes: &[u8]) -> bool
    ensures { result ≡ list_all is_letter_or_digit bytes.now }
{
    for byte in bytes {
        if !is_letter_or_digit(*byte) {
            return false;
        }
    }
    true
}

fn is_letter(byte: u8) -> bool
    ensures { result ≡ is_letter byte }
{
    byte.is_ascii_alphabetic() || byte == b'_'
}

fn is_letter_or_digit(byte: u8) -> bool
    ensures { result ≡ is_letter_or_digit byte }
{
    is_letter(byte) || byte.is_ascii_digit()
}
