//! Values and sums, read by their types and printed again as they stand.
use crate::expecting::equal;
use sb_kind::Kind;
use sb_text::{NoMemory, Text};
use sb_types::{Field, Mono, Ty};
use sqlite_items::{Boxed, Items};
use std::alloc::Global;
use std::process::Abort;
use std::test::Fail;

// The text of the value that a text spells; empty where it spells none.
fn value_again(alloc: Global, ty: &Ty, bytes: &[u8]) -> Result<Vec<u8>, NoMemory> {
    let mut out = Vec::new(alloc);
    if let Some(value) = sb_types::read(alloc, ty, bytes)? {
        sb_types::text(alloc, &value, &mut out)?;
    }
    Ok(out)
}

// The text of the element that a text spells; empty where it spells none.
fn sum_again(alloc: Global, mono: &Mono, elem: &Ty, bytes: &[u8]) -> Result<Vec<u8>, NoMemory> {
    let mut out = Vec::new(alloc);
    let Some(kind) = Kind::new(alloc, mono)? else {
        return Ok(out);
    };
    if let Some(element) = sb_kind::read(alloc, &kind, elem, bytes)? {
        sb_kind::text(alloc, &kind, &element, &mut out)?;
    }
    Ok(out)
}

fn pair_type(alloc: Global, left: Ty, right: Ty) -> Result<Ty, NoMemory> {
    Ok(Ty::Pair(Boxed::new(alloc, left)?, Boxed::new(alloc, right)?))
}

// A text with an int, if there is one.
fn counted_type(alloc: Global) -> Result<Ty, NoMemory> {
    pair_type(alloc, Ty::Text, Ty::Opt(Boxed::new(alloc, Ty::Int)?))
}

// A record with at most three such pairs.
fn record_type(alloc: Global) -> Result<Ty, NoMemory> {
    let of = Boxed::new(alloc, counted_type(alloc)?)?;
    let mut fields = Vec::new(alloc);
    fields.push(Field {
        name: Text::from_string(String::from_str(alloc, "t")?),
        ty: Ty::List { of, most: 3 },
    })?;
    Ok(Ty::Rec(Items::from_vec(fields)))
}

// Each of these texts spells a value, which prints so again.
fn are_values(rt: &impl Abort, alloc: Global, ty: &Ty, texts: &[&str]) -> Result<(), NoMemory> {
    for bytes in texts {
        let again = value_again(alloc, ty, bytes.as_bytes())?;
        equal(rt, again.as_slice(), bytes.as_bytes());
    }
    Ok(())
}

#[test]
fn values_are_read(rt: HostRuntime) -> Result<(), Fail> {
    let alloc = rt.alloc();
    are_values(&rt, alloc, &Ty::Int, &["0", "-7"])?;
    are_values(&rt, alloc, &Ty::Text, &["%", "a%2Cb"])?;
    are_values(&rt, alloc, &Ty::Bool, &["true", "false"])?;
    are_values(&rt, alloc, &counted_type(alloc)?, &["(a%2Cb,+3)", "(%,~)"])?;
    let texts = ["{[]}", "{[(a%7D,~),(%,+1)]}"].as_slice();
    are_values(&rt, alloc, &record_type(alloc)?, texts)?;
    equal(&rt, value_again(alloc, &Ty::Int, b"07")?.len(), 0);
    equal(&rt, value_again(alloc, &Ty::Int, b"7,")?.len(), 0);
    let longer = b"{[(a,~),(b,~),(c,~),(d,~)]}".as_slice();
    equal(
        &rt,
        value_again(alloc, &record_type(alloc)?, longer)?.len(),
        0,
    );
    Ok(())
}

// The sum that a text spells prints as this.
fn expect_sum(
    rt: &impl Abort,
    alloc: Global,
    mono: &Mono,
    elem: &Ty,
    texts: (&str, &str),
) -> Result<(), NoMemory> {
    let text = sum_again(alloc, mono, elem, texts.0.as_bytes())?;
    equal(rt, text.as_slice(), texts.1.as_bytes());
    Ok(())
}

#[test]
fn sums_are_read(rt: HostRuntime) -> Result<(), Fail> {
    let registers = "00000000000000000000000100000300";
    let rows = [
        (Mono::Sum, Ty::Int, ("-2", "-2")),
        (Mono::Min, Ty::Int, ("-7", "-7")),
        (Mono::Max, Ty::Int, ("5", "5")),
        (Mono::First, Ty::Text, ("a%20b", "a%20b")),
        (Mono::Last, Ty::Bool, ("true", "true")),
        (Mono::Concat, Ty::Int, ("[5,-7]", "[5,-7]")),
        (Mono::Set, Ty::Int, ("{-7,5}", "{-7,5}")),
        (Mono::Set, Ty::Int, ("{5,-7}", "")),
        (Mono::Set, Ty::Int, ("{5,5}", "")),
        (Mono::Cms(2, 1), Ty::Text, ("[2,2]", "[2,2]")),
        (Mono::Hll(4), Ty::Text, (registers, registers)),
    ];
    for (mono, elem, texts) in rows {
        expect_sum(&rt, rt.alloc(), &mono, &elem, texts)?;
    }
    Ok(())
}

// A map of pairs of these parts.
fn map_of_pairs(alloc: Global, left: Mono, right: Mono) -> Result<Mono, NoMemory> {
    let parts = Mono::Pair(Boxed::new(alloc, left)?, Boxed::new(alloc, right)?);
    Ok(Mono::Map(Boxed::new(alloc, parts)?))
}

#[test]
fn sums_of_parts_are_read(rt: HostRuntime) -> Result<(), Fail> {
    let alloc = rt.alloc();
    let top = "[(5,a%20b),(5,b)]";
    let scored = pair_type(alloc, Ty::Int, Ty::Text)?;
    expect_sum(&rt, alloc, &Mono::Top(2), &scored, (top, top))?;
    let numbers = pair_type(alloc, Ty::Int, Ty::Int)?;
    let entry = pair_type(alloc, Ty::Text, numbers)?;
    let map = "{100%25=([6],{6}),k=([5],{5})}";
    let mono = map_of_pairs(alloc, Mono::Concat, Mono::Set)?;
    expect_sum(&rt, alloc, &mono, &entry, (map, map))?;
    Ok(())
}
