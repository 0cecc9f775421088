//! Joins: each pair with what a service has at its key.
ghost use Rattle.std.specs.Prelude.{◌≡◌, map, IfOk, option_map};
ghost use Rattle.sb_meaning.specs.Streams as spec;
ghost use Rattle.sb_meaning.specs.Streams.{at_of};
ghost use Rattle.sb_service.specs.Rows.{row_of};
ghost use Rattle.sb_types.specs.ValView.{value_of};
ghost use Rattle.sb_service.specs.Views.{view_service};

use crate::operations::{paired, wrapped};
use crate::parts::halves_in;
use crate::stages::At;
use sb_service::Service;
use sb_text::NoMemory;
use sb_types::{Val, copy};
use std::alloc::Global;

/// Each pair with what the service of this number has at its key, if it has something. The pairs are moved.
pub fn joined(
    alloc: Global,
    number: u64,
    services: &[Service],
    values: Vec<At>,
) -> Result<Vec<At>, NoMemory>
    ensures { IfOk result (λ out. map at_of out.items
        ≡ spec.joined (spec.list_at number (map view_service services.now))
        (map at_of values.items)) }
{
    let mut out = Vec::with_capacity(alloc, values.len())?;
    for x in values {
        out.push((x.0, join(alloc, number, services, x.1)?))?;
    }
    Ok(out)
}

/// A pair with what the service of this number has at its key.
pub fn join(alloc: Global, number: u64, services: &[Service], value: Val) -> Result<Val, NoMemory>
    ensures { IfOk result (λ v. value_of v
        ≡ spec.join_with (spec.list_at number (map view_service services.now)) (value_of value)) }
{
    let (key, value) = halves_in(value);
    let row = row_at(alloc, number, services, &key)?;
    paired(alloc, key, paired(alloc, value, row)?)
}

fn row_at(alloc: Global, number: u64, services: &[Service], key: &Val) -> Result<Val, NoMemory>
    ensures { IfOk result (λ v. value_of v
        ≡ spec.option_value (row_of (value_of key.now)
        (spec.list_at number (map view_service services.now)))) }
{
    match sqlite_items::at(services, number as usize) {
        Some(service) => copy_option(alloc, service.get(key)),
        None => Ok(Val::Opt(None)),
    }
}

fn copy_option(alloc: Global, found: Option<&Val>) -> Result<Val, NoMemory>
    ensures { IfOk result (λ v. value_of v
        ≡ spec.option_value (option_map (λ f. value_of f.now) found.entry)) }
{
    match found {
        Some(value) => wrapped(alloc, copy(alloc, value)?),
        None => Ok(Val::Opt(None)),
    }
}
