//! The lists of streams, and of lets.
ghost use Rattle.std.specs.Prelude.{◌≡◌, [], map, IfOk};
ghost use Rattle.sb_check.specs.Declarations.{let_of};
ghost use Rattle.sb_check.specs.Log.{logged_of};
ghost use Rattle.sb_meaning.specs.Streams.{at_of, stream_of, lets_of, list_at};
ghost use Rattle.sb_service.specs.Views.{view_service};

use crate::joins::joined;
use crate::merges::merged;
use crate::stages::{At, filtered, flat_mapped, mapped, records};
use sb_check::LetDecl;
use sb_service::Service;
use sb_terms::Flow;
use sb_text::NoMemory;
use sb_types::{LogRecord, copy};
use sqlite_items::Items;
use std::alloc::Global;

/// The list of a stream, where those of the lets before it are known.
pub fn stream(
    alloc: Global,
    flow: &Flow,
    log: &[LogRecord],
    services: &[Service],
    lets: &Items<Vec<At>>,
) -> Result<Vec<At>, NoMemory>
    ensures { IfOk result (λ out. map at_of out.items
        ≡ stream_of flow.now (map logged_of log.now) (map view_service services.now)
        (map (λ l. map at_of l.items) lets.now)) }
{
    match flow {
        Flow::Source(source) => records(alloc, *source, log),
        Flow::Let(number) => let_at(alloc, *number, lets),
        Flow::Merge(left, right) => {
            let left = stream(alloc, left.get(), log, services, lets)?;
            let right = stream(alloc, right.get(), log, services, lets)?;
            merged(alloc, left, right)
        }
        Flow::Map(before, by) => {
            let values = stream(alloc, before.get(), log, services, lets)?;
            mapped(alloc, by, &values)
        }
        Flow::Filter(before, by) => {
            let values = stream(alloc, before.get(), log, services, lets)?;
            filtered(alloc, by, values)
        }
        Flow::FlatMap(before, by) => {
            let values = stream(alloc, before.get(), log, services, lets)?;
            flat_mapped(alloc, by, &values)
        }
        Flow::Join(before, number) => {
            let values = stream(alloc, before.get(), log, services, lets)?;
            joined(alloc, *number, services, values)
        }
    }
}

fn let_at(alloc: Global, number: u64, lets: &Items<Vec<At>>) -> Result<Vec<At>, NoMemory>
    ensures { IfOk result (λ out. map at_of out.items
        ≡ list_at number (map (λ l. map at_of l.items) lets.now)) }
{
    match lets.get(number as usize) {
        Some(values) => copy_all(alloc, values),
        None => Ok(Vec::new(alloc)),
    }
}

fn copy_all(alloc: Global, values: &[At]) -> Result<Vec<At>, NoMemory>
    ensures { IfOk result (λ out. out.items ≡ values.now) }
{
    let mut out = Vec::with_capacity(alloc, values.len())?;
    for x in values {
        out.push((x.0, copy(alloc, &x.1)?))?;
    }
    Ok(out)
}

/// The lists of lets, each over those before it.
pub fn let_lists(
    alloc: Global,
    lets: &[LetDecl],
    log: &[LogRecord],
    services: &[Service],
) -> Result<Items<Vec<At>>, NoMemory>
    ensures { IfOk result (λ out. map (λ l. map at_of l.items) out
        ≡ lets_of (map logged_of log.now) (map view_service services.now) []
        (map (λ l. l.stream.flow) (map let_of lets.now))) }
{
    let mut out = Items::new(alloc);
    for bound in lets {
        let next = stream(alloc, &bound.stream.flow, log, services, &out)?;
        out.push(next)?;
    }
    Ok(out)
}
