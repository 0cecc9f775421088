//! How a command ends: its status, and the line of a refusal.
ghost use Rattle.std.specs.Prelude.{◌≡◌, ◌≤◌, ◌⊎◌, Err};
ghost use Rattle.sb_io.specs.Faults.{Rose};
ghost use Rattle.sb_io.specs.declared.sink.SinkError.TheVariants as failed;
ghost use Rattle.sb_load.specs.Refusals.{refusal_answer};
ghost use Rattle.sb_run.specs.Due.{usage_answer, unserved_answer};
ghost use Rattle.sb_run.specs.Endings.{EndsPut, PutEnds};

use sb_io::{Sink, SinkError};
use sb_load::Refusal;

/// The status of a command that put what it had to: 0, or 4 where the sink failed, or 5 where it wanted memory, whose
/// line is put.
pub fn status_of<K: Sink>(sink: &mut K, put: Result<(), SinkError>) -> u8
    ensures ends { EndsPut put (K.written sink.old) (K.written sink.new) result }
    ensures later { K.faults sink.old ≤ K.faults sink.new }
    ensures sink { result ≡ 4 → (put ≡ Err failed.Failed)
        ⊎ Rose (K.faults sink.old) (K.faults sink.new) }
{
    match put {
        Ok(()) => 0,
        Err(SinkError::Failed) => 4,
        Err(SinkError::NoMemory) => put_refusal(sink, &Refusal::NoMemory),
    }
}

/// Puts the line of a refusal.
pub fn put_refusal<K: Sink>(sink: &mut K, refusal: &Refusal) -> u8
    ensures ends { PutEnds (refusal_answer refusal.now) (K.written sink.old) (K.written sink.new)
        result }
    ensures later { K.faults sink.old ≤ K.faults sink.new }
    ensures sink { result ≡ 4 → Rose (K.faults sink.old) (K.faults sink.new) }
{
    match sink.put(refusal.line().as_str().as_bytes()) {
        Ok(()) => refusal.status(),
        Err(SinkError::Failed) => 4,
        Err(SinkError::NoMemory) => 5,
    }
}

/// Puts the line of words that are no command.
pub fn put_usage<K: Sink>(sink: &mut K) -> u8
    ensures ends { PutEnds usage_answer (K.written sink.old) (K.written sink.new) result }
    ensures later { K.faults sink.old ≤ K.faults sink.new }
    ensures sink { result ≡ 4 → Rose (K.faults sink.old) (K.faults sink.new) }
{
    put_of_words(sink, b"error 2 usage\n")
}

/// Puts the line of a command that isn't served yet.
pub fn put_unserved<K: Sink>(sink: &mut K) -> u8
    ensures ends { PutEnds unserved_answer (K.written sink.old) (K.written sink.new) result }
    ensures later { K.faults sink.old ≤ K.faults sink.new }
    ensures sink { result ≡ 4 → Rose (K.faults sink.old) (K.faults sink.new) }
{
    put_of_words(sink, b"error 2 notyet\n")
}

fn put_of_words<K: Sink>(sink: &mut K, line: &[u8]) -> u8
    ensures ends { PutEnds (record { status = 2; bytes = line.now }) (K.written sink.old)
        (K.written sink.new) result }
    ensures later { K.faults sink.old ≤ K.faults sink.new }
    ensures sink { result ≡ 4 → Rose (K.faults sink.old) (K.faults sink.new) }
{
    match sink.put(line) {
        Ok(()) => 2,
        Err(SinkError::Failed) => 4,
        Err(SinkError::NoMemory) => 5,
    }
}
