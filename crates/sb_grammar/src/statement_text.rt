//! Statements as text: their tokens, each with a space behind it.

ghost use Rattle.std.specs.Prelude.{◌≡◌, ◌++◌, codes, map, OnOk};
ghost use Rattle.sb_grammar.specs.Text as spec;

use crate::expression_text::push_expr;
use crate::expressions::Scalar;
use crate::programs::{FieldTree, Head, MonoTree, Stage, Statement, Stream};
use crate::type_text::{push_mono, scalar_text};
use crate::words::{comma_before, push_number, push_word};
use sb_text::{NoMemory, Text};
use std::alloc::Global;

/// Writes the batch head.
pub fn push_batch(
    alloc: Global,
    length: u64,
    minus: bool,
    from: u64,
    out: &mut Vec<u8>,
) -> Result<(), NoMemory>
    ensures { OnOk result (out.new.items ≡ out.old.items ++ spec.batch_text length minus from) }
{
    out.extend_from_slice(b"batch ")?;
    push_number(alloc, length, out)?;
    out.extend_from_slice(b"from ")?;
    out.extend_from_slice(minus_text(minus))?;
    push_number(alloc, from, out)
}

fn minus_text(minus: bool) -> &'static [u8]
    ensures { result.now ≡ spec.minus_text minus }
{
    if minus {
        b"- ".as_slice()
    } else {
        b"".as_slice()
    }
}

/// Writes a statement.
pub fn push_statement(
    alloc: Global,
    statement: &Statement,
    out: &mut Vec<u8>,
) -> Result<(), NoMemory>
    ensures { OnOk result (out.new.items ≡ out.old.items ++ spec.statement_text statement.now) }
{
    match statement {
        Statement::Source { name, fields } => {
            out.extend_from_slice(b"source ")?;
            push_word(alloc, name.as_bytes(), out)?;
            out.extend_from_slice(b"( ")?;
            push_fields(alloc, fields.as_slice(), out)?;
            out.extend_from_slice(b") ")
        }
        Statement::Service { name, key, value } => {
            push_named(alloc, b"service ".as_slice(), name, out)?;
            push_signature(*key, *value, out)
        }
        Statement::Let { name, stream } => {
            out.extend_from_slice(b"let ")?;
            push_word(alloc, name.as_bytes(), out)?;
            out.extend_from_slice(b"= ")?;
            push_stream(alloc, stream, out)
        }
        Statement::Store { name, stream, mono } => {
            push_named(alloc, b"store ".as_slice(), name, out)?;
            out.extend_from_slice(b"= ")?;
            push_stream(alloc, stream, out)?;
            push_sum(alloc, mono, out)
        }
    }
}

fn push_named(alloc: Global, word: &[u8], name: &Text, out: &mut Vec<u8>) -> Result<(), NoMemory>
    ensures { OnOk result (out.new.items ≡ out.old.items ++ (word.now ++ spec.word_text name.now)) }
{
    out.extend_from_slice(word)?;
    push_word(alloc, name.as_bytes(), out)
}

fn push_signature(key: Scalar, value: Scalar, out: &mut Vec<u8>) -> Result<(), NoMemory>
    ensures { OnOk result (out.new.items ≡ out.old.items
        ++ (codes "( " ++ (spec.scalar_text key
        ++ (codes "-> " ++ (spec.scalar_text value ++ codes ") "))))) }
{
    out.extend_from_slice(b"( ")?;
    out.extend_from_slice(scalar_text(key))?;
    out.extend_from_slice(b"-> ")?;
    out.extend_from_slice(scalar_text(value))?;
    out.extend_from_slice(b") ")
}

fn push_sum(alloc: Global, mono: &MonoTree, out: &mut Vec<u8>) -> Result<(), NoMemory>
    ensures { OnOk result (out.new.items ≡ out.old.items
        ++ (codes "| sumByKey " ++ spec.mono_text mono.now)) }
{
    out.extend_from_slice(b"| sumByKey ")?;
    push_mono(alloc, mono, out)
}

fn push_fields(alloc: Global, fields: &[FieldTree], out: &mut Vec<u8>) -> Result<(), NoMemory>
    ensures { OnOk result (out.new.items ≡ out.old.items
        ++ spec.listed (map spec.field_text fields.now)) }
{
    for (at, field) in fields.iter().enumerate() {
        out.extend_from_slice(comma_before(at))?;
        push_field(alloc, field, out)?;
    }
    Ok(())
}

fn push_field(alloc: Global, field: &FieldTree, out: &mut Vec<u8>) -> Result<(), NoMemory>
    ensures { OnOk result (out.new.items ≡ out.old.items ++ spec.field_text field.now) }
{
    push_word(alloc, field.name.as_bytes(), out)?;
    out.extend_from_slice(b": ")?;
    out.extend_from_slice(scalar_text(field.scalar))
}

#[cycle(stream_text)]
fn push_stream(alloc: Global, stream: &Stream, out: &mut Vec<u8>) -> Result<(), NoMemory>
    ensures { OnOk result (out.new.items ≡ out.old.items ++ spec.stream_text stream.now) }
{
    push_head(alloc, &stream.head, out)?;
    push_stages(alloc, stream.stages.as_slice(), out)
}

#[cycle(stream_text)]
fn push_head(alloc: Global, head: &Head, out: &mut Vec<u8>) -> Result<(), NoMemory>
    ensures { OnOk result (out.new.items ≡ out.old.items ++ spec.head_text head.now) }
{
    match head {
        Head::Name(name) => push_word(alloc, name.as_bytes(), out),
        Head::Merge(left, right) => {
            out.extend_from_slice(b"merge ( ")?;
            push_stream(alloc, left.get(), out)?;
            out.extend_from_slice(b", ")?;
            push_stream(alloc, right.get(), out)?;
            out.extend_from_slice(b") ")
        }
    }
}

fn push_stages(alloc: Global, stages: &[Stage], out: &mut Vec<u8>) -> Result<(), NoMemory>
    ensures { OnOk result (out.new.items ≡ out.old.items
        ++ spec.each_behind (codes "| ") (map spec.stage_text stages.now)) }
{
    for stage in stages {
        out.extend_from_slice(b"| ")?;
        push_stage(alloc, stage, out)?;
    }
    Ok(())
}

fn push_stage(alloc: Global, stage: &Stage, out: &mut Vec<u8>) -> Result<(), NoMemory>
    ensures { OnOk result (out.new.items ≡ out.old.items ++ spec.stage_text stage.now) }
{
    match stage {
        Stage::Map(expr) => {
            out.extend_from_slice(b"map ")?;
            push_expr(alloc, expr, out)
        }
        Stage::Filter(expr) => {
            out.extend_from_slice(b"filter ")?;
            push_expr(alloc, expr, out)
        }
        Stage::FlatMap(expr) => {
            out.extend_from_slice(b"flatMap ")?;
            push_expr(alloc, expr, out)
        }
        Stage::LeftJoin(name) => {
            out.extend_from_slice(b"leftJoin ")?;
            push_word(alloc, name.as_bytes(), out)
        }
    }
}
