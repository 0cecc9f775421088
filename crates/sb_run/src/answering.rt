//! What a run writes: a line for each ask, and then the report.
ghost use Rattle.std.specs.Prelude.{◌≡◌, ◌<◌, ◌≤◌, ◌+◌, ◌++◌, ℕ, [], ◌∷◌, length, IsTrue, IfOk, OnOk};
ghost use Rattle.std.specs.FinMap.{is_sorted};
ghost use Rattle.std.specs.List.{AllByRecursion, flat_map};
ghost use Rattle.sb_check.specs.CheckedView.{checked_of};
ghost use Rattle.sb_feed.specs.Jobs.{AreValid};
ghost use Rattle.sb_feed.specs.Keys.{key_order};
ghost use Rattle.sb_feed.specs.Places.{Places};
ghost use Rattle.sb_io.specs.Sink.{Appends, HasSinkCause};
ghost use Rattle.sb_kind.specs.ElementText.{element_text};
ghost use Rattle.sb_kind.specs.declared.agg.Agg.{Agg};
ghost use Rattle.sb_report.specs.Report.{fold_text};
ghost use Rattle.sb_report.specs.Script.{AsksOf};
ghost use Rattle.sb_report.specs.Transcript.{line_text, store_name, NamesStore};
ghost use Rattle.sb_report.specs.declared.script.Ask.TheVariants as ask;
ghost use Rattle.sb_run.specs.Answering.{progress, online, runner_row, IsOverFeed, Serves};
ghost use Rattle.sb_run.specs.Run.{Run, good_value, report_text};
ghost use Rattle.sb_run.specs.ScriptOutput.{after, answer_line, cover_at, lines_text, script_lines, start, run_text};

use sb_check::Checked;
use sb_feed::{Cut, KeyBytes, RowList};
use sb_io::{Sink, SinkError};
use sb_kind::{Agg, Kind, text};
use sb_plan::{OnlineRunner, text_of};
use sb_report::{Ask, TranscriptLine, write_line, write_row};
use sb_session::Session;
use sb_text::{NoMemory, Ranges, Text};
use std::alloc::Global;
use std::random::RandomSource;
use std::thread::Threads;

// The batch for which a plain read asks.
const LAST_BATCH: u64 = 65_535;

/// Answers the asks of a run over a feed of a program, drains its session and reports, each line in one put.
pub fn answer_all<R: Threads + RandomSource + Sync, K: Sink>(
    rt: &R,
    alloc: Global,
    sink: &mut K,
    c: &Checked,
    feed: &OnlineRunner,
    cut: Cut,
    asks: Vec<Ask>,
) -> Result<(), SinkError>
    ghost run: { Run Agg }
    requires serves { Serves (checked_of c.now) feed.now cut run }
    requires records { cut.records ≡ length feed.now.records }
    requires stores { AllByRecursion (AsksOf (length (checked_of c.now).declared.stores))
        asks.items }
    ensures ok { OnOk result (Appends (run_text run asks.items) (K.written sink.old) (K.written
        sink.new)) }
    ensures cause { HasSinkCause (K.faults sink.old) (K.faults sink.new) result }
{
    let Ok(mut session) = session_over(alloc, feed, cut) else {
        return Err(SinkError::NoMemory);
    };
    put_script(rt, alloc, sink, c, feed, &mut session, asks)?;
    put_line(alloc, sink, c, &TranscriptLine::Drained)?;
    put_report(alloc, sink, c, feed, session)?;
    put_line(alloc, sink, c, &TranscriptLine::End)
}

// Answers the asks in a session that begins.
fn put_script<R: Threads + RandomSource + Sync, K: Sink>(
    rt: &R,
    alloc: Global,
    sink: &mut K,
    c: &Checked,
    feed: &OnlineRunner,
    session: &mut Session<Agg>,
    asks: Vec<Ask>,
) -> Result<(), SinkError>
    ghost run: { Run Agg }
    requires serves { Serves (checked_of c.now) feed.now session.old.cut run }
    requires over { IsOverFeed feed.now session.old }
    requires stores { AllByRecursion (AsksOf (length (checked_of c.now).declared.stores))
        asks.items }
    requires begins { progress session.old ≡ start }
    ensures ok { OnOk result (Appends (lines_text (store_name (checked_of c.now).declared)
        (script_lines run start asks.items)) (K.written sink.old) (K.written sink.new)) }
    ensures over { OnOk result (IsOverFeed feed.now session.new) }
    ensures cut { OnOk result (session.new.cut ≡ session.old.cut) }
    ensures cause { HasSinkCause (K.faults sink.old) (K.faults sink.new) result }
{
    put_answers(rt, alloc, sink, c, feed, session, asks)
}

fn session_over(alloc: Global, feed: &OnlineRunner, cut: Cut) -> Result<Session<Agg>, NoMemory>
    requires records { cut.records ≡ length feed.now.records }
    ensures over { IfOk result (IsOverFeed feed.now) }
    ensures cut { IfOk result (λ session. session.cut ≡ cut) }
    ensures start { IfOk result (λ session. progress session ≡ start) }
{
    Session::new(alloc, feed, cut)
}

fn put_answers<R: Threads + RandomSource + Sync, K: Sink>(
    rt: &R,
    alloc: Global,
    sink: &mut K,
    c: &Checked,
    feed: &OnlineRunner,
    session: &mut Session<Agg>,
    asks: Vec<Ask>,
) -> Result<(), SinkError>
    ghost run: { Run Agg }
    requires serves { Serves (checked_of c.now) feed.now session.old.cut run }
    requires over { IsOverFeed feed.now session.old }
    requires stores { AllByRecursion (AsksOf (length (checked_of c.now).declared.stores))
        asks.items }
    ensures ok { OnOk result (Appends (lines_text (store_name (checked_of c.now).declared)
        (script_lines run (progress session.old) asks.items)) (K.written sink.old)
        (K.written sink.new)) }
    ensures over { OnOk result (IsOverFeed feed.now session.new) }
    ensures cut { OnOk result (session.new.cut ≡ session.old.cut) }
    ensures cause { HasSinkCause (K.faults sink.old) (K.faults sink.new) result }
{
    for ask in asks {
        put_answer(rt, alloc, sink, c, feed, session, ask)?;
    }
    Ok(())
}

fn put_answer<R: Threads + RandomSource + Sync, K: Sink>(
    rt: &R,
    alloc: Global,
    sink: &mut K,
    c: &Checked,
    feed: &OnlineRunner,
    session: &mut Session<Agg>,
    ask: Ask,
) -> Result<(), SinkError>
    ghost run: { Run Agg }
    requires serves { Serves (checked_of c.now) feed.now session.old.cut run }
    requires over { IsOverFeed feed.now session.old }
    requires store { AsksOf (length (checked_of c.now).declared.stores) ask }
    ensures ok { OnOk result (Appends (line_text (store_name (checked_of c.now).declared)
        (answer_line run (progress session.old) ask)) (K.written sink.old) (K.written sink.new)) }
    ensures over { OnOk result (IsOverFeed feed.now session.new) }
    ensures after { OnOk result (progress session.new
        ≡ after run.places (progress session.old) ask) }
    ensures cut { OnOk result (session.new.cut ≡ session.old.cut) }
    ensures cause { HasSinkCause (K.faults sink.old) (K.faults sink.new) result }
{
    let line = answer(rt, alloc, c, feed, session, ask).map_err(|_| SinkError::NoMemory)?;
    put_line(alloc, sink, c, &line)
}

// The line of an ask.
fn answer<R: Threads + RandomSource + Sync>(
    rt: &R,
    alloc: Global,
    c: &Checked,
    feed: &OnlineRunner,
    session: &mut Session<Agg>,
    ask: Ask,
) -> Result<TranscriptLine, NoMemory>
    ghost run: { Run Agg }
    requires serves { Serves (checked_of c.now) feed.now session.old.cut run }
    requires over { IsOverFeed feed.now session.old }
    requires store { AsksOf (length (checked_of c.now).declared.stores) ask }
    ensures named { IfOk result (NamesStore (length (checked_of c.now).declared.stores)) }
    ensures line { IfOk result (λ line. line ≡ answer_line run (progress session.old) ask) }
    ensures over { OnOk result (IsOverFeed feed.now session.new) }
    ensures after { OnOk result (progress session.new
        ≡ after run.places (progress session.old) ask) }
    ensures cut { OnOk result (session.new.cut ≡ session.old.cut) }
{
    match ask {
        Ask::Read { store, key } => read(alloc, c, feed, session, store, key),
        Ask::Asof { batch, store, key } => asof(alloc, c, feed, session, batch, store, key),
        Ask::Look => Ok(TranscriptLine::Flushed {
            chunks: session.cover(alloc)?,
        }),
        Ask::Work { most } => work(alloc, c, feed, session, most),
        Ask::Publish { upto } => publish(rt, alloc, c, feed, session, upto),
        Ask::Expire { floor } => expire(alloc, feed, session, floor),
    }
}

fn read(
    alloc: Global,
    c: &Checked,
    feed: &OnlineRunner,
    session: &Session<Agg>,
    store: u32,
    key: Text,
) -> Result<TranscriptLine, NoMemory>
    ghost run: { Run Agg }
    requires serves { Serves (checked_of c.now) feed.now session.now.cut run }
    requires over { IsOverFeed feed.now session.now }
    requires store { store < length (checked_of c.now).declared.stores }
    ensures named { IfOk result (NamesStore (length (checked_of c.now).declared.stores)) }
    ensures line { IfOk result (λ line. line
        ≡ answer_line run (progress session.now) (ask.Read store key)) }
{
    let asked = KeyBytes { store, text: key };
    let (value, cover) = value_at(alloc, c, feed, session, &asked, LAST_BATCH)?;
    Ok(TranscriptLine::Read {
        store,
        key: asked.text,
        value,
        published: session.published(),
        floor: session.floor(),
        cover,
    })
}

fn asof(
    alloc: Global,
    c: &Checked,
    feed: &OnlineRunner,
    session: &Session<Agg>,
    batch: u64,
    store: u32,
    key: Text,
) -> Result<TranscriptLine, NoMemory>
    ghost run: { Run Agg }
    requires serves { Serves (checked_of c.now) feed.now session.now.cut run }
    requires over { IsOverFeed feed.now session.now }
    requires store { store < length (checked_of c.now).declared.stores }
    ensures named { IfOk result (NamesStore (length (checked_of c.now).declared.stores)) }
    ensures line { IfOk result (λ line. line
        ≡ answer_line run (progress session.now) (ask.Asof batch store key)) }
{
    let floor = session.floor();
    if batch.saturating_add(1) < floor {
        return Ok(TranscriptLine::Expired {
            store,
            key,
            asked: batch,
            floor,
        });
    }
    let asked = KeyBytes { store, text: key };
    let (value, cover) = value_at(alloc, c, feed, session, &asked, batch)?;
    Ok(TranscriptLine::Asof {
        batch,
        store,
        key: asked.text,
        value,
        published: session.published(),
        floor,
        cover,
    })
}

// The text of a key's value up to a batch, and the chunks by which it was read.
fn value_at(
    alloc: Global,
    c: &Checked,
    feed: &OnlineRunner,
    session: &Session<Agg>,
    key: &KeyBytes,
    upto: u64,
) -> Result<(Text, Ranges), NoMemory>
    ghost run: { Run Agg }
    requires serves { Serves (checked_of c.now) feed.now session.now.cut run }
    requires over { IsOverFeed feed.now session.now }
    requires store { key.now.store < length (checked_of c.now).declared.stores }
    requires open { session.now.floor ≤ upto + 1 }
    ensures value { IfOk result (λ read. read.0 ≡ good_value run key.now.store upto key.now.text
        session.now.published (cover_at (progress session.now))) }
    ensures cover { IfOk result (λ read. read.1 ≡ cover_at (progress session.now)) }
{
    let reading = session.read(alloc, feed, key, upto)?;
    let value = value_text(alloc, c, key.store, reading.value)?;
    Ok((value, reading.cover))
}

// The text of a sum of a store; no contribution is `()`.
fn value_text(alloc: Global, c: &Checked, store: u32, value: Option<Agg>) -> Result<Text, NoMemory>
    requires { store < length (checked_of c.now).declared.stores }
    ensures { IfOk result (λ text. text ≡ fold_text element_text value) }
{
    let mut bytes = Vec::new(alloc);
    push_value(alloc, &c.stores()[store as usize].kind, value, &mut bytes)?;
    text_of(bytes)
}

fn push_value(
    alloc: Global,
    kind: &Kind,
    value: Option<Agg>,
    out: &mut Vec<u8>,
) -> Result<(), NoMemory>
    ensures { OnOk result (out.new.items ≡ out.old.items ++ fold_text element_text value) }
{
    match value {
        Some(sum) => text(alloc, kind, &sum, out),
        None => out.extend_from_slice(b"()"),
    }
}

fn work(
    alloc: Global,
    c: &Checked,
    feed: &OnlineRunner,
    session: &mut Session<Agg>,
    most: u64,
) -> Result<TranscriptLine, NoMemory>
    ghost run: { Run Agg }
    requires serves { Serves (checked_of c.now) feed.now session.old.cut run }
    requires over { IsOverFeed feed.now session.old }
    ensures named { IfOk result (NamesStore (length (checked_of c.now).declared.stores)) }
    ensures line { IfOk result (λ line. line
        ≡ answer_line run (progress session.old) (ask.Work most)) }
    ensures over { OnOk result (IsOverFeed feed.now session.new) }
    ensures after { OnOk result (progress session.new
        ≡ after run.places (progress session.old) (ask.Work most)) }
    ensures cut { OnOk result (session.new.cut ≡ session.old.cut) }
{
    let chunks = session.work(alloc, feed, most)?;
    Ok(TranscriptLine::Worked {
        count: chunks.count(),
        chunks,
    })
}

fn publish<R: Threads + RandomSource + Sync>(
    rt: &R,
    alloc: Global,
    c: &Checked,
    feed: &OnlineRunner,
    session: &mut Session<Agg>,
    upto: u64,
) -> Result<TranscriptLine, NoMemory>
    ghost run: { Run Agg }
    requires serves { Serves (checked_of c.now) feed.now session.old.cut run }
    requires over { IsOverFeed feed.now session.old }
    ensures named { IfOk result (NamesStore (length (checked_of c.now).declared.stores)) }
    ensures line { IfOk result (λ line. line
        ≡ answer_line run (progress session.old) (ask.Publish upto)) }
    ensures over { OnOk result (IsOverFeed feed.now session.new) }
    ensures after { OnOk result (progress session.new
        ≡ after run.places (progress session.old) (ask.Publish upto)) }
    ensures cut { OnOk result (session.new.cut ≡ session.old.cut) }
{
    session.publish(rt, alloc, feed, upto)?;
    Ok(TranscriptLine::Published {
        published: session.published(),
    })
}

fn expire(
    alloc: Global,
    feed: &OnlineRunner,
    session: &mut Session<Agg>,
    floor: u64,
) -> Result<TranscriptLine, NoMemory>
    requires over { IsOverFeed feed.now session.old }
    ensures named { (stores : ℕ) → IfOk result (NamesStore stores) }
    ensures line { (run : Run Agg) → IfOk result (λ line. line
        ≡ answer_line run (progress session.old) (ask.Expire floor)) }
    ensures over { OnOk result (IsOverFeed feed.now session.new) }
    ensures after { (places : Places) → OnOk result (progress session.new
        ≡ after places (progress session.old) (ask.Expire floor)) }
    ensures cut { OnOk result (session.new.cut ≡ session.old.cut) }
{
    if session.expire(alloc, feed, floor)? {
        return Ok(TranscriptLine::Floor {
            floor: session.floor(),
        });
    }
    Ok(TranscriptLine::Refused {
        asked: floor,
        published: session.published(),
    })
}

// Puts a line.
fn put_line<K: Sink>(
    alloc: Global,
    sink: &mut K,
    c: &Checked,
    line: &TranscriptLine,
) -> Result<(), SinkError>
    requires named { NamesStore (length (checked_of c.now).declared.stores) line.now }
    ensures ok { OnOk result (Appends (line_text (store_name (checked_of c.now).declared) line.now)
        (K.written sink.old) (K.written sink.new)) }
    ensures cause { HasSinkCause (K.faults sink.old) (K.faults sink.new) result }
{
    let mut text = Vec::new(alloc);
    write_line(alloc, c, line, &mut text).map_err(|_| SinkError::NoMemory)?;
    sink.put(&text)
}

// Drains the session, and puts the report row by row.
fn put_report<K: Sink>(
    alloc: Global,
    sink: &mut K,
    c: &Checked,
    feed: &OnlineRunner,
    session: Session<Agg>,
) -> Result<(), SinkError>
    ghost run: { Run Agg }
    requires serves { Serves (checked_of c.now) feed.now session.cut run }
    requires over { IsOverFeed feed.now session }
    ensures ok { OnOk result (Appends (report_text run) (K.written sink.old) (K.written sink.new)) }
    ensures cause { HasSinkCause (K.faults sink.old) (K.faults sink.new) result }
{
    let Ok(rows) = session.drain(alloc, feed) else {
        return Err(SinkError::NoMemory);
    };
    put_rows(alloc, sink, feed, rows)?;
    Ok(())
}

fn put_rows<K: Sink>(
    alloc: Global,
    sink: &mut K,
    feed: &OnlineRunner,
    rows: RowList<Agg>,
) -> Result<(), SinkError>
    requires valid { AreValid (online feed.now) rows }
    ensures ok { OnOk result (Appends (flat_map (runner_row feed.now) rows) (K.written sink.old)
        (K.written sink.new)) }
    ensures rising { OnOk result (IsTrue (is_sorted key_order rows)) }
    ensures cause { HasSinkCause (K.faults sink.old) (K.faults sink.new) result }
{
    for (key, value) in rows.into_vec() {
        put_row(alloc, sink, feed, &key, &value)?;
    }
    Ok(())
}

fn put_row<K: Sink>(
    alloc: Global,
    sink: &mut K,
    feed: &OnlineRunner,
    key: &KeyBytes,
    value: &Agg,
) -> Result<(), SinkError>
    requires valid { AreValid (online feed.now) ((key.now, value.now) ∷ []) }
    ensures ok { OnOk result (Appends (runner_row feed.now (key.now, value.now))
        (K.written sink.old) (K.written sink.new)) }
    ensures cause { HasSinkCause (K.faults sink.old) (K.faults sink.new) result }
{
    let mut text = Vec::new(alloc);
    write_row(alloc, feed, key, value, &mut text).map_err(|_| SinkError::NoMemory)?;
    sink.put(&text)
}
