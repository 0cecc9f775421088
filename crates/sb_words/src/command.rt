//! Commands, with the names of their files.
use sb_laws::Items;
use sb_text::Text;

/// Service words: the name of each service, and the name of its file. No two have one name where words give them.
pub type Files = Items<(Text, Text)>;

/// The options of `run`.
#[derive(Clone, Copy, PartialEq, Eq)]
pub struct Settings {
    /// Threads that work, 0 to 16.
    pub workers: u32,
    /// Shards of a store, 1 to 64.
    pub shards: u32,
    /// Records of a chunk, 1 to 1,048,576.
    pub chunk: u64,
    /// Sums that a cache holds, 1 to 65,536.
    pub cache: u32,
    /// Chunks between two flushes, 1 to 65,536.
    pub every: u64,
    /// Whether a thread publishes the batches.
    pub publisher: bool,
    /// Batches that the publisher keeps, 0 to 65,536; given only with `publisher`.
    pub keep: Option<u64>,
}

/// A command.
#[derive(Drop)]
pub enum Command {
    /// Prints the program as it is understood.
    Check {
        program: Text,
    },
    /// Prints the report of a log.
    Batch {
        program: Text,
        log: Text,
        services: Files,
    },
    /// Answers a script over a log.
    Run {
        program: Text,
        log: Text,
        script: Text,
        services: Files,
        settings: Settings,
    },
    /// Judges the transcript of a run.
    Audit {
        program: Text,
        log: Text,
        script: Text,
        transcript: Text,
        services: Files,
        /// Records of a chunk, 1 to 1,048,576.
        chunk: u64,
        /// 1 to 64.
        shards: u32,
    },
    /// Runs over a generated log.
    Demo {
        seed: u64,
        /// 0 to 1,048,576.
        records: u64,
        /// 0 to 16.
        workers: u32,
    },
}
