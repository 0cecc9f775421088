//! What a parse found, by the ids of the arguments.
ghost use Rattle.std.specs.Prelude.{◌≡◌, map, option_map};
ghost use Rattle.clap.specs.Words.{all_of, first_of, found_of, rows_of};
ghost use Rattle.sb_words.specs.Answers.{Answers};
ghost use Rattle.sb_words.specs.Found.{is_set};

use crate::WordsError;
use clap::ArgMatches;
use sb_text::Text;
use std::alloc::Global;

/// The first value of an argument.
pub fn value<'a>(matches: &ArgMatches<'a>, id: &str) -> Option<&'a str>
    ensures { option_map (λ text. text.now) result
        ≡ first_of id.now (rows_of (found_of matches.now)) }
{
    matches.get_str(id)
}

/// All values of an argument.
pub fn values<'m, 'a>(matches: &'m ArgMatches<'a>, id: &str) -> Option<&'m [&'a str]>
    ensures { option_map (λ values. map (λ text. text.now) values.now) result
        ≡ all_of id.now (rows_of (found_of matches.now)) }
{
    matches.get_strs(id)
}

/// The value of an argument that has to be given, as a text of its own.
pub fn required(alloc: Global, matches: &ArgMatches<'_>, id: &str) -> Result<Text, WordsError>
    ensures { Answers (first_of id.now (rows_of (found_of matches.now))) result }
{
    match value(matches, id) {
        Some(text) => Ok(Text::from_string(String::from_str(alloc, text)?)),
        None => Err(WordsError::Usage),
    }
}

/// Whether a flag is given.
pub fn is_set(matches: &ArgMatches<'_>, name: &str) -> bool
    ensures { result ≡ is_set (first_of name.now (rows_of (found_of matches.now))) }
{
    match value(matches, name) {
        Some(text) => text == "true",
        None => false,
    }
}
