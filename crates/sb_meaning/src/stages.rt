//! Stages of streams: each value in its place.
ghost use Rattle.std.specs.Prelude.{◌≡◌, ◌++◌, map, reverse, IfOk, OnOk};
ghost use Rattle.sb_check.specs.Log.{logged_of};
ghost use Rattle.sb_meaning.specs.Its.{it_value};
ghost use Rattle.sb_meaning.specs.Streams as spec;
ghost use Rattle.sb_meaning.specs.Streams.{at_of};
ghost use Rattle.sb_types.specs.ValView.{value_of};

use crate::evaluation::value;
use crate::it::It;
use crate::parts::{copy_fields, into_elements, truth_in};
use sb_terms::Term;
use sb_text::NoMemory;
use sb_types::{LogRecord, Val, Vals};
use std::alloc::Global;

/// A value at the position of the record that gave it.
pub type At = (u64, Val);

/// The records of a source.
pub fn records(alloc: Global, source: u64, log: &[LogRecord]) -> Result<Vec<At>, NoMemory>
    ensures { IfOk result (λ out. map at_of out.items
        ≡ spec.records source (map logged_of log.now)) }
{
    let mut out = Vec::new(alloc);
    for line in log {
        if u64::from(line.source) == source {
            out.push((line.position, copy_fields(alloc, &line.fields)?))?;
        }
    }
    Ok(out)
}

/// The value of the expression in the place of each value.
pub fn mapped(alloc: Global, term: &Term, values: &[At]) -> Result<Vec<At>, NoMemory>
    ensures { IfOk result (λ out. map at_of out.items
        ≡ spec.mapped term.now (map at_of values.now)) }
{
    let mut out = Vec::with_capacity(alloc, values.len())?;
    for x in values {
        out.push((x.0, value(alloc, term, It::Value(&x.1))?))?;
    }
    Ok(out)
}

/// The values of which the expression is true, moved.
pub fn filtered(alloc: Global, term: &Term, values: Vec<At>) -> Result<Vec<At>, NoMemory>
    ensures { IfOk result (λ out. map at_of out.items
        ≡ spec.filtered term.now (map at_of values.items)) }
{
    let mut out = Vec::new(alloc);
    for x in values {
        if is_true(alloc, term, It::Value(&x.1))? {
            out.push(x)?;
        }
    }
    Ok(out)
}

/// Whether the expression is true of the value.
pub fn is_true(alloc: Global, term: &Term, it: It<'_>) -> Result<bool, NoMemory>
    ensures { IfOk result (λ truth. truth ≡ spec.is_true term.now (it_value it.entry)) }
{
    let truth = value(alloc, term, it)?;
    Ok(truth_in(&truth))
}

/// The elements of each list in its place.
pub fn flat_mapped(alloc: Global, term: &Term, values: &[At]) -> Result<Vec<At>, NoMemory>
    ensures { IfOk result (λ out. map at_of out.items
        ≡ spec.flat_mapped term.now (map at_of values.now)) }
{
    let mut out = Vec::new(alloc);
    for x in values {
        let list = value(alloc, term, It::Value(&x.1))?;
        push_elements(alloc, x.0, list, &mut out)?;
    }
    Ok(out)
}

fn push_elements(alloc: Global, position: u64, list: Val, out: &mut Vec<At>) -> Result<(), NoMemory>
    ensures { OnOk result (map at_of out.new.items ≡ map at_of out.old.items
        ++ spec.elements_at position (value_of list)) }
{
    let mut turned = turned(alloc, into_elements(alloc, list))?;
    while let Some(element) = turned.pop() {
        out.push((position, element))?;
    }
    Ok(())
}

// Values from the last to the first, moved.
fn turned(alloc: Global, values: Vals) -> Result<Vec<Val>, NoMemory>
    ensures { IfOk result (λ turned. turned.items ≡ reverse values) }
{
    let mut left = values;
    let mut turned = Vec::with_capacity(alloc, left.len())?;
    while let Some(last) = left.pop() {
        turned.push(last)?;
    }
    Ok(turned)
}
