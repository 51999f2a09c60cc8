//! Times, rates and addresses as a picture writes them.

ghost use Rattle.std.specs.Prelude.{◌≡◌, ◌<◌, IfOk, string_bytes};
ghost use Rattle.link_picture.specs.Wording as Spec;

use journal_core::Memory;
use packet_core::{FiveTuple, Ip};
use std::alloc::Global;
use std::net::{Ipv4Addr, Ipv6Addr};

/// The microseconds of a millisecond.
const MILLISECOND: u64 = 1_000;

/// The microseconds of a second.
const SECOND: u64 = 1_000_000;

/// The bits of a kilobit.
const KILOBIT: u64 = 1_000;

/// The bits of a megabit.
const MEGABIT: u64 = 1_000_000;

/// The bits of a gigabit.
const GIGABIT: u64 = 1_000_000_000;

/// A time in the greatest unit in which a step is a whole number, for times that are multiples of the step.
pub(crate) fn time_text(alloc: Global, time: u64, step: u64) -> Result<String, Memory>
    ensures { IfOk result (λ text. string_bytes text ≡ Spec.time_text time step) }
{
    if time == 0 {
        return format!(in alloc; "0");
    }
    if step % SECOND == 0 {
        let seconds = time / SECOND;
        format!(in alloc; "{seconds} s")
    } else if step % MILLISECOND == 0 {
        let milliseconds = time / MILLISECOND;
        format!(in alloc; "{milliseconds} ms")
    } else {
        format!(in alloc; "{time} us")
    }
}

/// A duration as a parameter's value, in the greatest unit in which it is a whole number.
pub(crate) fn duration_text(alloc: Global, time: u64) -> Result<String, Memory>
    ensures { IfOk result (λ text. string_bytes text ≡ Spec.duration_text time) }
{
    if time % SECOND == 0 {
        let seconds = time / SECOND;
        format!(in alloc; "{seconds}s")
    } else if time % MILLISECOND == 0 {
        let milliseconds = time / MILLISECOND;
        format!(in alloc; "{milliseconds}ms")
    } else {
        format!(in alloc; "{time}us")
    }
}

/// A delay, rounded down to tenths of its unit.
pub(crate) fn wait_text(alloc: Global, wait: u64) -> Result<String, Memory>
    ensures { IfOk result (λ text. string_bytes text ≡ Spec.wait_text wait) }
{
    if wait < MILLISECOND {
        format!(in alloc; "{wait} us")
    } else if wait < SECOND {
        tenths_text(alloc, wait / (MILLISECOND / 10), "ms")
    } else {
        tenths_text(alloc, wait / (SECOND / 10), "s")
    }
}

/// So many tenths of a unit.
fn tenths_text(alloc: Global, tenths: u64, unit: &str) -> Result<String, Memory>
    ensures { IfOk result (λ text. string_bytes text ≡ Spec.tenths_text tenths unit.now) }
{
    let (whole, tenth) = (tenths / 10, tenths % 10);
    format!(in alloc; "{whole}.{tenth} {unit}")
}

/// A rate in the greatest unit in which a step is a whole number, for rates that are multiples of the step.
pub(crate) fn rate_text(alloc: Global, rate: u64, step: u64) -> Result<String, Memory>
    ensures { IfOk result (λ text. string_bytes text ≡ Spec.rate_text rate step) }
{
    if rate == 0 {
        return format!(in alloc; "0");
    }
    if step % GIGABIT == 0 {
        let gigabits = rate / GIGABIT;
        format!(in alloc; "{gigabits} Gbit/s")
    } else if step % MEGABIT == 0 {
        let megabits = rate / MEGABIT;
        format!(in alloc; "{megabits} Mbit/s")
    } else if step % KILOBIT == 0 {
        let kilobits = rate / KILOBIT;
        format!(in alloc; "{kilobits} kbit/s")
    } else {
        format!(in alloc; "{rate} bit/s")
    }
}

/// A rate in bits per second beside its mark on a scale: the prefix of its unit alone, which the scale's name has.
pub(crate) fn mark_rate_text(alloc: Global, rate: u64) -> Result<String, Memory>
    ensures { IfOk result (λ text. string_bytes text ≡ Spec.mark_rate_text rate) }
{
    if rate % GIGABIT == 0 {
        let gigabits = rate / GIGABIT;
        format!(in alloc; "{gigabits}G")
    } else if rate % MEGABIT == 0 {
        let megabits = rate / MEGABIT;
        format!(in alloc; "{megabits}M")
    } else if rate % KILOBIT == 0 {
        let kilobits = rate / KILOBIT;
        format!(in alloc; "{kilobits}k")
    } else {
        format!(in alloc; "{rate}")
    }
}

/// Where packets of a five-tuple come from, after its number.
pub(crate) fn source_text(alloc: Global, number: u64, tuple: &FiveTuple) -> Result<String, Memory>
    ensures { IfOk result (λ text. string_bytes text ≡ Spec.source_text number tuple.now) }
{
    let protocol = protocol_text(alloc, tuple.proto)?;
    let source = address_text(alloc, tuple.src)?;
    let port = tuple.sport;
    format!(in alloc; "{number}: {protocol} {source}:{port}")
}

/// Where they go.
pub(crate) fn destination_text(alloc: Global, tuple: &FiveTuple) -> Result<String, Memory>
    ensures { IfOk result (λ text. string_bytes text ≡ Spec.destination_text tuple.now) }
{
    let destination = address_text(alloc, tuple.dst)?;
    let port = tuple.dport;
    format!(in alloc; "to {destination}:{port}")
}

/// The name of a protocol.
fn protocol_text(alloc: Global, protocol: u8) -> Result<String, Memory>
    ensures { IfOk result (λ text. string_bytes text ≡ Spec.protocol_text protocol) }
{
    match protocol {
        1 => format!(in alloc; "icmp"),
        6 => format!(in alloc; "tcp"),
        17 => format!(in alloc; "udp"),
        58 => format!(in alloc; "icmpv6"),
        _ => format!(in alloc; "protocol {protocol}"),
    }
}

/// An address: one of IPv4 as four numbers with dots, and one of IPv6 in brackets, as RFC 5952 writes it.
fn address_text(alloc: Global, address: Ip) -> Result<String, Memory>
    ensures { IfOk result (λ text. string_bytes text ≡ Spec.address_label address) }
{
    match address {
        Ip::V4(octets) => {
            let address = Ipv4Addr::from_octets(octets);
            format!(in alloc; "{address}")
        }
        Ip::V6(octets) => {
            let address = Ipv6Addr::from_octets(octets);
            format!(in alloc; "[{address}]")
        }
    }
}
