//! Canonical decimals, read and written.
ghost use Rattle.std.specs.Prelude.{◌≡◌, ℕ, ℤ, ◌-◌, ◌^◌, ◌<◌, ◌≤◌, ◌++◌, pos, Some, OnOk, OnErr, IfSome, FitsSigned, decimal, option_map, option_and_then};
ghost use Rattle.std.specs.Int.{w64};
ghost use Rattle.std.specs.Fmt.{signed_decimal};
ghost use Rattle.sb_text.specs.Decimal.{natural, number_after, integer, negative};

use crate::NoMemory;
use itoa::Buffer;
use std::alloc::Global;

/// The number that the bytes spell as a canonical decimal.
pub fn read_u64(bytes: &[u8]) -> Option<u64>
    ensures value { result ≡ natural (2 ^ 64 - 1) bytes.now }
    ensures spelled { IfSome result (λ n. bytes.now ≡ decimal n) }
    ensures every { (n : ℕ) → n < 2 ^ 64 → bytes.now ≡ decimal n → result ≡ Some n }
{
    read_natural(bytes, u64::MAX)
}

/// The number that the bytes spell as a canonical decimal, with `-` before a number below 0.
pub fn read_i64(bytes: &[u8]) -> Option<i64>
    ensures value { result ≡ integer bytes.now }
    ensures spelled { IfSome result (λ n. bytes.now ≡ signed_decimal n) }
    ensures every { (n : ℤ) → FitsSigned w64 n → bytes.now ≡ signed_decimal n → result ≡ Some n }
{
    read_integer(bytes)
}

/// Writes the number's canonical decimal at the end of `out`.
pub fn write_u64(_alloc: Global, out: &mut Vec<u8>, number: u64) -> Result<(), NoMemory>
    ensures ok { OnOk result (out.new.items ≡ out.old.items ++ decimal number) }
    ensures err { OnErr result (out.new.items ≡ out.old.items) }
{
    let mut buffer = Buffer::new();
    out.extend_from_slice(buffer.format(number).as_bytes())
}

/// Writes the number's canonical decimal at the end of `out`.
pub fn write_i64(_alloc: Global, out: &mut Vec<u8>, number: i64) -> Result<(), NoMemory>
    ensures ok { OnOk result (out.new.items ≡ out.old.items ++ signed_decimal number) }
    ensures err { OnErr result (out.new.items ≡ out.old.items) }
{
    let mut buffer = Buffer::new();
    out.extend_from_slice(buffer.format(number).as_bytes())
}

// The number up to `most` that the bytes spell as a canonical decimal.
pub(crate) fn read_natural(bytes: &[u8], most: u64) -> Option<u64>
    ensures value { result ≡ natural most bytes.now }
    ensures bound { IfSome result (λ number. number ≤ most) }
{
    match bytes {
        [] => None,
        [b'0'] => Some(0),
        [b'0', ..] => None,
        _ => read_digits(bytes, most),
    }
}

fn read_digits(digits: &[u8], most: u64) -> Option<u64>
    ensures value { result ≡ number_after most 0 digits.now }
    ensures bound { IfSome result (λ number. number ≤ most) }
{
    let mut number: u64 = 0;
    for digit in digits {
        if !digit.is_ascii_digit() {
            return None;
        }
        let next = 10 * u128::from(number) + u128::from(*digit - b'0');
        if next > u128::from(most) {
            return None;
        }
        number = next as u64;
    }
    Some(number)
}

fn read_integer(bytes: &[u8]) -> Option<i64>
    ensures { result ≡ integer bytes.now }
{
    match bytes {
        [b'-', digits @ ..] => negative_of(read_natural(digits, 1 << 63)?),
        _ => read_positive(bytes),
    }
}

fn read_positive(digits: &[u8]) -> Option<i64>
    ensures { result ≡ option_map pos (natural (2 ^ 63 - 1) digits.now) }
{
    let number = read_natural(digits, i64::MAX as u64)?;
    Some(number as i64)
}

// The number below 0 of this size.
fn negative_of(size: u64) -> Option<i64>
    requires { size ≤ 2 ^ 63 }
    ensures { result ≡ negative size }
{
    if size == 0 {
        return None;
    }
    Some(-1 - (size - 1) as i64)
}
