//! Elements without parts at the front of the bytes.
ghost use Rattle.std.specs.Prelude.{◌≡◌, ◌-◌, nat_le, IfOk, option_map};
ghost use Rattle.std.specs.List.{list_all};
ghost use Rattle.sb_types.specs.TyView.{type_of};
ghost use Rattle.sb_kind.specs.Read.{found_of, made, leaf_front, number_front, val_front, hex_read, are_registers, registers_read};
ghost use Rattle.sb_kind.specs.declared.agg.Agg.{Sum, Min, Max, First, Last, Hll};

use crate::agg::Agg;
use hex::FromHexError;
use sb_laws::NoMemory;
use sb_sketch::{HllM, Registers};
use sb_text::read_i64;
use sb_types::{Ty, Val, split_leaf};
use std::alloc::{AllocError, Global};

/// A number.
pub fn read_number(bytes: &[u8]) -> Option<(i64, &[u8])>
    ensures { option_map found_of result ≡ number_front bytes.now }
{
    let (leaf, rest) = split_leaf(bytes);
    let number = read_i64(leaf)?;
    Some((number, rest))
}

/// A sum.
pub fn read_sum(bytes: &[u8]) -> Option<(Agg, &[u8])>
    ensures { option_map found_of result ≡ made Sum (number_front bytes.now) }
{
    let (number, rest) = read_number(bytes)?;
    Some((Agg::Sum(number), rest))
}

/// A least number.
pub fn read_least(bytes: &[u8]) -> Option<(Agg, &[u8])>
    ensures { option_map found_of result ≡ made Min (number_front bytes.now) }
{
    let (number, rest) = read_number(bytes)?;
    Some((Agg::Min(number), rest))
}

/// A greatest number.
pub fn read_greatest(bytes: &[u8]) -> Option<(Agg, &[u8])>
    ensures { option_map found_of result ≡ made Max (number_front bytes.now) }
{
    let (number, rest) = read_number(bytes)?;
    Some((Agg::Max(number), rest))
}

/// A value of a type.
pub fn read_value<'a>(
    alloc: Global,
    of: &Ty,
    bytes: &'a [u8],
) -> Result<Option<(Val, &'a [u8])>, NoMemory>
    ensures { IfOk result (λ read. option_map found_of read
        ≡ val_front (type_of of.now) bytes.now) }
{
    sb_types::read_front(alloc, of, bytes)
}

/// A first value.
pub fn read_first<'a>(
    alloc: Global,
    of: &Ty,
    bytes: &'a [u8],
) -> Result<Option<(Agg, &'a [u8])>, NoMemory>
    ensures { IfOk result (λ read. option_map found_of read
        ≡ made First (val_front (type_of of.now) bytes.now)) }
{
    match read_value(alloc, of, bytes)? {
        Some((value, rest)) => Ok(Some((Agg::First(value), rest))),
        None => Ok(None),
    }
}

/// A last value.
pub fn read_last<'a>(
    alloc: Global,
    of: &Ty,
    bytes: &'a [u8],
) -> Result<Option<(Agg, &'a [u8])>, NoMemory>
    ensures { IfOk result (λ read. option_map found_of read
        ≡ made Last (val_front (type_of of.now) bytes.now)) }
{
    match read_value(alloc, of, bytes)? {
        Some((value, rest)) => Ok(Some((Agg::Last(value), rest))),
        None => Ok(None),
    }
}

/// The registers of a HyperLogLog.
pub fn read_hll<'a>(
    hll: &HllM,
    alloc: Global,
    bytes: &'a [u8],
) -> Result<Option<(Agg, &'a [u8])>, NoMemory>
    ensures { IfOk result (λ read. option_map found_of read
        ≡ made Hll (leaf_front (registers_read hll.now) bytes.now)) }
{
    let (leaf, rest) = split_leaf(bytes);
    match registers_in(hll, alloc, leaf)? {
        Some(registers) => Ok(Some((Agg::Hll(Registers::from_vec(registers)), rest))),
        None => Ok(None),
    }
}

fn registers_in(hll: &HllM, alloc: Global, digits: &[u8]) -> Result<Option<Vec<u8>>, NoMemory>
    ensures { IfOk result (λ read. option_map (λ all. all.items) read
        ≡ registers_read hll.now digits.now) }
{
    match bytes_in(alloc, digits)? {
        Some(registers) if are_registers(hll, registers.as_slice()) => Ok(Some(registers)),
        _ => Ok(None),
    }
}

fn are_registers(hll: &HllM, registers: &[u8]) -> bool
    ensures { result ≡ are_registers hll.now registers.now }
{
    registers.len() == 1 << usize::from(hll.bits()) && are_at_most(registers, 65 - hll.bits())
}

fn are_at_most(registers: &[u8], most: u8) -> bool
    ensures { result ≡ list_all (λ n. nat_le n most) registers.now }
{
    for register in registers {
        if *register > most {
            return false;
        }
    }
    true
}

// The bytes that lower-case hexadecimal digits spell.
fn bytes_in(alloc: Global, digits: &[u8]) -> Result<Option<Vec<u8>>, NoMemory>
    ensures { IfOk result (λ read. option_map (λ bytes. bytes.items) read ≡ hex_read digits.now) }
{
    let bytes = match hex::decode(alloc, digits) {
        Ok(bytes) => bytes,
        Err(FromHexError::OutOfMemory) => return Err(AllocError),
        Err(_) => return Ok(None),
    };
    let again = hex::encode(alloc, bytes.as_slice())?;
    if again.as_bytes() == digits {
        Ok(Some(bytes))
    } else {
        Ok(None)
    }
}
