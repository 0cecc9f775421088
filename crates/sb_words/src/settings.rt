//! The options of `run` and `audit`.
ghost use Rattle.std.specs.Prelude.{◌≡◌, option_map};
ghost use Rattle.clap.specs.Words.{found_of, rows_of};
ghost use Rattle.sb_words.specs.Settings.{chunk_in, keep_in, settings_in, shards_in};

use crate::Settings;
use crate::matches::{is_set, value};
use crate::numbers::{number, setting};
use clap::ArgMatches;

/// The most threads that work, of `demo` too.
pub const MOST_WORKERS: u64 = 16;

const MOST_SHARDS: u64 = 64;

const MOST_RECORDS_OF_A_CHUNK: u64 = 1_048_576;

const MOST_CACHED: u64 = 65_536;

const MOST_CHUNKS_BETWEEN: u64 = 65_536;

const MOST_KEPT: u64 = 65_536;

/// The number of `--shards`, at most 64.
pub fn shards(matches: &ArgMatches<'_>) -> Option<u32>
    ensures { result ≡ shards_in (rows_of (found_of matches.now)) }
{
    let shards = setting(1, MOST_SHARDS, 8, value(matches, "shards"))?;
    Some(shards as u32)
}

/// The number of `--chunk`.
pub fn chunk(matches: &ArgMatches<'_>) -> Option<u64>
    ensures { result ≡ chunk_in (rows_of (found_of matches.now)) }
{
    setting(1, MOST_RECORDS_OF_A_CHUNK, 256, value(matches, "chunk"))
}

/// The options of `run`; `None` where one is no number within its limits, or `--keep` stands without `--publisher`.
#[tactic(auto, unfolding(crate::specs::Settings::settings_in))]
pub fn settings(matches: &ArgMatches<'_>) -> Option<Settings>
    ensures { result ≡ settings_in (rows_of (found_of matches.now)) }
{
    let workers = setting(0, MOST_WORKERS, 4, value(matches, "workers"))?;
    let shards = shards(matches)?;
    let chunk = chunk(matches)?;
    let cache = setting(1, MOST_CACHED, 1024, value(matches, "cache"))?;
    let every = setting(1, MOST_CHUNKS_BETWEEN, 4, value(matches, "every"))?;
    let publisher = is_set(matches, "publisher");
    let keep = keep(publisher, value(matches, "keep"))?;
    Some(Settings {
        workers: workers as u32,
        shards,
        chunk,
        cache: cache as u32,
        every,
        publisher,
        keep,
    })
}

// The number of `--keep`, which is given only beside `--publisher`; the outer `None` where it may not be given, or is no
// number within its limits.
fn keep(publisher: bool, text: Option<&str>) -> Option<Option<u64>>
    ensures { result ≡ keep_in publisher (option_map (λ t. t.now) text.entry) }
{
    match text {
        None => Some(None),
        Some(_) if !publisher => None,
        Some(text) => Some(Some(number(0, MOST_KEPT, text)?)),
    }
}
