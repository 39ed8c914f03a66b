//! Numbers: from their bytes to their bits.

ghost use Rattle.std.specs.Prelude.{◌≡◌, ◌<◌, ◌≤◌, ◌+◌, ◌%◌, ◌^◌, ◌++◌, ◌==◌, replicate, position, slice_index_or, IfOk, OnOk, MatchOption};
ghost use Rattle.pe_verilog_read.specs.Numbers.{bit_of, bits_of, grown_of, value_of, is_unknown as unknown_is, digit_value as value_of_digit, digit_bits, digits_bits, fill_of, fitted, width_of, based as based_of, size_of, digits_of};
ghost use Rattle.pe_verilog_read.specs.Terminals.{is_skipped as skipped_is};

use pe_verilog_ast::Digit;
use sqlite_items::Items;
use std::alloc::{AllocError, Global};

/// How many bits a number may have. No more are asked for, since a text with such a number is refused before.
const MOST_BITS: u32 = 128;

/// How many bits a number without a size has.
const UNSIZED: u32 = 32;

/// The lowest bit of a value.
fn bit(value: u128) -> Digit
    ensures { result ≡ bit_of value }
{
    if value % 2 == 1 {
        Digit::One
    } else {
        Digit::Zero
    }
}

/// Adds so many of the lowest bits of a value.
fn add_bits(bits: &mut Items<Digit>, count: u32, value: u128) -> Result<(), AllocError>
    ensures { OnOk result (bits.new ≡ bits.old ++ bits_of count value) }
{
    let mut rest = value;
    for _ in 0..count {
        bits.push(bit(rest))?;
        rest /= 2;
    }
    Ok(())
}

/// Adds the digit so many times.
fn add_copies(bits: &mut Items<Digit>, count: u32, digit: Digit) -> Result<(), AllocError>
    ensures { OnOk result (bits.new ≡ bits.old ++ replicate count digit) }
{
    for _ in 0..count {
        bits.push(digit)?;
    }
    Ok(())
}

/// A size with one more digit.
fn grown(size: u32, byte: u8) -> u32
    requires { size ≤ 128 }
    ensures { result ≡ grown_of size byte }
{
    if byte == b'_' {
        size
    } else {
        10 * size + u32::from(byte.saturating_sub(b'0'))
    }
}

/// The value of a size, if it is one that a number may have.
fn size_value(digits: &[u8]) -> Option<u32>
    ensures { MatchOption result (Unit {0}) (λ n. (n ≡ value_of 0 digits.now) × (n ≤ 128)) }
{
    let mut size: u32 = 0;
    for byte in digits {
        size = grown(size, *byte);
        if size > MOST_BITS {
            return None;
        }
    }
    Some(size)
}

/// The size of a number, of what stands before its quote, if it is one that a number may have.
fn size(digits: &[u8]) -> Option<u32>
    ensures { MatchOption result (Unit {0}) (λ n. (n ≡ size_of digits.now) × (n ≤ 128)) }
{
    match digits {
        [] => Some(UNSIZED),
        digits => size_value(digits),
    }
}

/// A value with one more decimal digit, without what 128 bits do not hold.
fn grown_value(value: u128, byte: u8) -> u128
    ensures { result ≡ grown_of value byte % 2 ^ 128 }
{
    if byte == b'_' {
        value
    } else {
        value
            .wrapping_mul(10)
            .wrapping_add(u128::from(byte.saturating_sub(b'0')))
    }
}

/// The value of decimal digits, without what 128 bits do not hold.
fn value(digits: &[u8]) -> u128
    ensures { result ≡ value_of 0 digits.now % 2 ^ 128 }
{
    let mut value: u128 = 0;
    for byte in digits {
        value = grown_value(value, *byte);
    }
    value
}

fn is_unknown(byte: u8) -> bool
    ensures { result ≡ unknown_is byte }
{
    byte == b'x' || byte == b'X'
}

fn is_skipped(byte: u8) -> bool
    ensures { result ≡ skipped_is byte }
{
    byte == b'z' || byte == b'Z' || byte == b'?'
}

fn digit_value(byte: u8) -> u8
    ensures { result ≡ value_of_digit byte }
{
    if byte <= b'9' {
        byte.saturating_sub(b'0')
    } else if byte <= b'F' {
        byte.saturating_sub(b'A' - 10)
    } else {
        byte.saturating_sub(b'a' - 10)
    }
}

/// Adds the bits of a digit, which has so many.
fn add_digit(bits: &mut Items<Digit>, width: u32, byte: u8) -> Result<(), AllocError>
    ensures { OnOk result (bits.new ≡ bits.old ++ digit_bits width byte) }
{
    if byte == b'_' {
        Ok(())
    } else if is_unknown(byte) {
        add_copies(bits, width, Digit::X)
    } else if is_skipped(byte) {
        add_copies(bits, width, Digit::Skip)
    } else {
        add_bits(bits, width, u128::from(digit_value(byte)))
    }
}

/// The bits of digits that have so many each.
fn add_digits(alloc: Global, width: u32, digits: &[u8]) -> Result<Items<Digit>, AllocError>
    ensures { IfOk result (λ bits. bits ≡ digits_bits width digits.now) }
{
    let mut bits = Items::new(alloc);
    let mut left = digits;
    while let [rest @ .., last] = left {
        add_digit(&mut bits, width, *last)?;
        left = rest;
    }
    Ok(bits)
}

/// What stands to the left of digits.
fn fill(digits: &[u8]) -> Digit
    ensures { result ≡ fill_of digits.now }
{
    match digits {
        [first, ..] if is_unknown(*first) => Digit::X,
        [first, ..] if is_skipped(*first) => Digit::Skip,
        _ => Digit::Zero,
    }
}

/// The bit at a place, or another one past the end.
fn bit_at(bits: &[Digit], at: usize, other: Digit) -> Digit
    ensures { result ≡ slice_index_or bits.now at other }
{
    bits.get(at).copied().unwrap_or(other)
}

/// So many bits, cut or filled on the left.
fn fit(alloc: Global, size: u32, bits: &[Digit], fill: Digit) -> Result<Items<Digit>, AllocError>
    ensures { IfOk result (λ all. all ≡ fitted size bits.now fill) }
{
    let mut all = Items::new(alloc);
    for i in 0..size {
        all.push(bit_at(bits, i as usize, fill))?;
    }
    Ok(all)
}

/// The bits of decimal digits.
fn decimal(alloc: Global, size: u32, digits: &[u8]) -> Result<Items<Digit>, AllocError>
    requires { size ≤ 128 }
    ensures { IfOk result (λ bits. bits ≡ bits_of size (value_of 0 digits.now)) }
{
    let mut bits = Items::new(alloc);
    add_bits(&mut bits, size, value(digits))?;
    Ok(bits)
}

/// How many bits a digit has by the letter of its base.
fn width(letter: u8) -> u32
    ensures { result ≡ width_of letter }
{
    match letter {
        b'b' | b'B' => 1,
        b'o' | b'O' => 3,
        _ => 4,
    }
}

/// The bits of what stands behind a quote.
fn based(alloc: Global, size: u32, behind: &[u8]) -> Result<Items<Digit>, AllocError>
    requires { size ≤ 128 }
    ensures { IfOk result (λ bits. bits ≡ based_of size behind.now) }
{
    match behind {
        [] => Ok(Items::new(alloc)),
        [b'd' | b'D', digits @ ..] => decimal(alloc, size, digits),
        [letter, digits @ ..] => {
            let bits = add_digits(alloc, width(*letter), digits)?;
            fit(alloc, size, bits.as_slice(), fill(digits))
        }
    }
}

/// Where the quote of a number stands.
fn quote_of(bytes: &[u8]) -> Option<usize>
    ensures { result ≡ position (λ b. b == 39) bytes.now }
{
    bytes.iter().position(|byte| *byte == b'\'')
}

/// The bits of a number, the lowest first.
pub(crate) fn number(alloc: Global, bytes: &[u8]) -> Result<Items<Digit>, AllocError>
    ensures { IfOk result (λ bits. bits ≡ digits_of bytes.now) }
{
    match quote_of(bytes) {
        None => decimal(alloc, UNSIZED, bytes),
        Some(quote) => match size(&bytes[..quote]) {
            Some(size) => based(alloc, size, &bytes[quote + 1..]),
            None => Err(AllocError),
        },
    }
}
