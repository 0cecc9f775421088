//! Service words.
ghost use Rattle.std.specs.Prelude.{◌≡◌, Some, map, option_map};
ghost use Rattle.std.specs.List.{list_any};
ghost use Rattle.std.specs.Str.{bytes_eq};
ghost use Rattle.sb_words.specs.Answers.{Answers};
ghost use Rattle.clap.specs.Words.{found_of, rows_of};
ghost use Rattle.sb_words.specs.Services.{file_in, files_in, have_distinct_names, services_in};

use crate::matches::values;
use crate::names::is_name;
use crate::{Files, WordsError};
use clap::ArgMatches;
use sb_laws::Items;
use sb_text::Text;
use std::alloc::Global;

/// The services and files of the service words that a parse found.
pub fn services(alloc: Global, matches: &ArgMatches<'_>) -> Result<Files, WordsError>
    ensures { Answers (services_in (rows_of (found_of matches.now))) result }
{
    match values(matches, "services") {
        Some(words) => read_services(alloc, words),
        None => Ok(Items::new(alloc)),
    }
}

fn read_services(alloc: Global, words: &[&str]) -> Result<Files, WordsError>
    ensures { Answers (files_in (map (λ word. word.now) words.now)) result }
{
    let mut files = Vec::new(alloc);
    for word in words {
        files
            .push(read_file(alloc, word)?)
            .map_err(|_| WordsError::NoMemory)?;
    }
    if !have_distinct_names(&files) {
        return Err(WordsError::Usage);
    }
    Ok(Items::from_vec(files))
}

fn read_file(alloc: Global, word: &str) -> Result<(Text, Text), WordsError>
    ensures { Answers (file_in word.now) result }
{
    let Some((name, file)) = cut(word) else {
        return Err(WordsError::Usage);
    };
    let name = Text::from_string(String::from_str(alloc, name)?);
    let file = Text::from_string(String::from_str(alloc, file)?);
    Ok((name, file))
}

// The name and the file of a service word.
fn cut(word: &str) -> Option<(&str, &str)>
    ensures { option_map (λ parts. (parts.0.now, parts.1.now)) result ≡ file_in word.now }
{
    let (name, file) = word.split_once('=')?;
    if file.is_empty() || !is_name(name.as_bytes()) {
        return None;
    }
    Some((name, file))
}

fn have_distinct_names(files: &[(Text, Text)]) -> bool
    ensures { result ≡ have_distinct_names files.now }
{
    let mut rest = files;
    while let [file, others @ ..] = rest {
        if has_name(others, &file.0) {
            return false;
        }
        rest = others;
    }
    true
}

fn has_name(files: &[(Text, Text)], name: &Text) -> bool
    ensures { result ≡ list_any (λ file. bytes_eq file.0 name.now) files.now }
{
    for file in files {
        if file.0.as_bytes() == name.as_bytes() {
            return true;
        }
    }
    false
}
