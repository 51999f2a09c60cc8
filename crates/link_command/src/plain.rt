//! The parameters' values as tc prints them, brought into the form in which they are read.

ghost use Rattle.std.specs.Prelude.{◌≡◌, ◌<◌, ◌≤◌, ◌-◌, ◌^◌, IfOk, IfSome, length, map, min, option_map, string_bytes};
ghost use Rattle.packet_core.specs.Numerals.{numeral_of};
ghost use Rattle.link_command.specs.PlainWords.{awaited_after, bytes_of_unit, value_kind_of, packet_unit_of, decimal_part_of, plain_value, plain_words_of, point_time_of, time_unit_of, plain_value_of, whole_quotient, word_in};

use crate::counts::{digits_in_front, scaled, split_digits};
use packet_core::read_numeral;
use std::alloc::{AllocError, Global};

/// The most digits that are read after a point.
const MAX_DECIMALS: usize = 6;

/// What the value of a parameter is.
#[derive(Clone, Copy, Debug, PartialEq, Eq)]
pub(crate) enum ValueKind {
    /// A number of packets, which tc prints with `p` after it.
    Packets,
    /// A number of bytes, which tc prints with `b`, `Kb`, `Mb` or `Gb` after it, by 1,024.
    Bytes,
    /// A time, which tc prints with a decimal fraction.
    Time,
    /// Anything else.
    Other,
}

/// The words with each value in the form in which `read_params` reads it: as many, each at its place. A word that isn't
/// in a form in which tc prints such a value stays as it is.
pub fn plain_words(alloc: Global, words: &[&str]) -> Result<Vec<String>, AllocError>
    ensures { IfOk result (λ plain. map string_bytes plain.items ≡ plain_words_of (map (λ w. w.now) words.now)) }
{
    let mut plain = Vec::new(alloc);
    let mut awaited = None;
    for word in words {
        let text = plain_word(alloc, awaited, word)?;
        plain.push(text)?;
        awaited = awaited_after(awaited, word);
    }
    Ok(plain)
}

/// What value the next word is, if it is one.
fn awaited_after(awaited: Option<ValueKind>, word: &str) -> Option<ValueKind>
    ensures { result ≡ awaited_after awaited word.now }
{
    match awaited {
        Some(_) => None,
        None => kind_of(word),
    }
}

/// A word in the form in which it is read, where it may be an awaited value.
fn plain_word(alloc: Global, awaited: Option<ValueKind>, word: &str) -> Result<String, AllocError>
    ensures { IfOk result (λ text. string_bytes text ≡ word_in awaited word.now) }
{
    match awaited {
        Some(kind) => plain_value(alloc, kind, word),
        None => String::from_str(alloc, word),
    }
}

/// What the value is that a word has after it, if it has one.
#[tactic(auto, using(crate::proofs::TextLemmas::differ), unfolding(crate::specs::PlainWords::value_kind_of))]
fn kind_of(word: &str) -> Option<ValueKind>
    ensures { result ≡ value_kind_of word.now }
{
    match word {
        "limit" => Some(ValueKind::Packets),
        "drop_batch" => Some(ValueKind::Packets),
        "quantum" => Some(ValueKind::Bytes),
        "mtu" => Some(ValueKind::Bytes),
        "memory_limit" => Some(ValueKind::Bytes),
        "target" => Some(ValueKind::Time),
        "interval" => Some(ValueKind::Time),
        "ce_threshold" => Some(ValueKind::Time),
        "flows" => Some(ValueKind::Other),
        "classify" => Some(ValueKind::Other),
        _ => None,
    }
}

/// A value in the form in which it is read.
fn plain_value(alloc: Global, kind: ValueKind, word: &str) -> Result<String, AllocError>
    ensures { IfOk result (λ text. string_bytes text ≡ plain_value kind word.now) }
{
    match value(kind, word) {
        Some(number) => format!(in alloc; "{number}"),
        None => String::from_str(alloc, word),
    }
}

/// The value that a word says in a form in which tc prints it, and 2^64 - 1 where it is more than that.
fn value(kind: ValueKind, word: &str) -> Option<u64>
    ensures { result ≡ option_map (λ n. min n (2 ^ 64 - 1)) (plain_value_of kind word.now) }
{
    let (digits, unit) = split_digits(word);
    match kind {
        ValueKind::Packets => scaled(digits.as_bytes(), packet_unit(unit)),
        ValueKind::Bytes => scaled(digits.as_bytes(), byte_unit(unit)),
        ValueKind::Time => point_time(digits.as_bytes(), unit.as_bytes()),
        ValueKind::Other => None,
    }
}

/// How many packets a unit has.
#[tactic(auto, using(crate::proofs::TextLemmas::differ), unfolding(crate::specs::PlainWords::packet_unit_of))]
fn packet_unit(text: &str) -> Option<u64>
    ensures { result ≡ packet_unit_of text.now }
{
    match text {
        "p" => Some(1),
        _ => None,
    }
}

/// How many bytes a unit has.
#[tactic(auto, using(crate::proofs::TextLemmas::differ), unfolding(crate::specs::PlainWords::bytes_of_unit))]
fn byte_unit(text: &str) -> Option<u64>
    ensures { result ≡ bytes_of_unit text.now }
{
    match text {
        "b" => Some(1),
        "Kb" => Some(1_024),
        "Mb" => Some(1_048_576),
        "Gb" => Some(1_073_741_824),
        _ => None,
    }
}

/// A time in microseconds, from the digits before its point and from what follows these, where it has no part of a
/// microsecond. It is 2^64 - 1 where it is more than that.
fn point_time(whole: &[u8], rest: &[u8]) -> Option<u64>
    ensures { result ≡ option_map (λ n. min n (2 ^ 64 - 1)) (point_time_of whole.now rest.now) }
{
    let [b'.', rest @ ..] = rest else {
        return None;
    };
    let decimals = digits_in_front(rest);
    let unit = time_unit(&rest[decimals..])?;
    let part = part(&rest[..decimals], unit)?;
    Some(scaled(whole, Some(unit))?.saturating_add(part))
}

/// How many microseconds a unit has.
fn time_unit(text: &[u8]) -> Option<u64>
    ensures { result ≡ time_unit_of text.now }
{
    match text {
        b"us" => Some(1),
        b"ms" => Some(1_000),
        b"s" => Some(1_000_000),
        _ => None,
    }
}

/// The digits after a point as a part of a unit, where that is a whole number.
fn part(decimals: &[u8], unit: u64) -> Option<u64>
    requires { unit ≤ 1000000 }
    ensures { result ≡ decimal_part_of decimals.now unit }
{
    if decimals.len() > MAX_DECIMALS {
        return None;
    }
    match decimals_number(decimals) {
        Some(number) => whole_quotient(number * unit, tens(decimals.len())),
        None => None,
    }
}

/// The number of a few digits.
fn decimals_number(decimals: &[u8]) -> Option<u64>
    requires { length decimals.now ≤ MAX_DECIMALS }
    ensures value { result ≡ numeral_of decimals.now }
    ensures bound { IfSome result (λ n. n < 1000000) }
{
    read_numeral(decimals)
}

/// The quotient of two numbers, where it is whole.
fn whole_quotient(number: u64, divisor: u64) -> Option<u64>
    requires { 0 < divisor }
    ensures { result ≡ whole_quotient number divisor }
{
    if number % divisor == 0 {
        Some(number / divisor)
    } else {
        None
    }
}

/// Ten to the power of a number of digits.
fn tens(count: usize) -> u64
    requires { count ≤ MAX_DECIMALS }
    ensures value { result ≡ 10 ^ count }
    ensures positive { 0 < result }
{
    match count {
        0 => 1,
        1 => 10,
        2 => 100,
        3 => 1_000,
        4 => 10_000,
        5 => 100_000,
        6 => 1_000_000,
        _ => unreachable!(),
    }
}
