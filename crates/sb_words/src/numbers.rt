//! Numbers among the words.
ghost use Rattle.std.specs.Prelude.{◌≡◌, ◌≤◌, IfSome, option_map};
ghost use Rattle.sb_words.specs.Settings.{number, setting};

use sb_text::read_u64;

/// The number from `least` to `most` that the text spells as a canonical decimal.
pub fn number(least: u64, most: u64, text: &str) -> Option<u64>
    ensures value { result ≡ number least most text.now }
    ensures bound { IfSome result (λ n. n ≤ most) }
{
    let number = read_u64(text.as_bytes())?;
    if number < least || number > most {
        return None;
    }
    Some(number)
}

/// The number of an option, and its default where it isn't given.
pub fn setting(least: u64, most: u64, default: u64, text: Option<&str>) -> Option<u64>
    requires { default ≤ most }
    ensures value { result ≡ setting least most default (option_map (λ t. t.now) text.entry) }
    ensures bound { IfSome result (λ n. n ≤ most) }
{
    match text {
        Some(text) => number(least, most, text),
        None => Some(default),
    }
}
