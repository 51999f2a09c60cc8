//! Dissects and marks packets in hexadecimal digits from standard input, a line for each: what is asked, how many bytes
//! the link delivered, and the captured bytes. It writes a line for each, in numbers.
//!
//! `stdin` has the packets and `stdout` what is wanted: `tools/header-rows` makes both of captures, and of values that
//! other programs found.
#![tactic(auto)]

ghost use Rattle.std.specs.Prelude.{◌≤◌, length};

mod rows;

use crate::rows::{Asked, address, fragment_number, ports_number, verdict_number};
use anyhow::{Context, Result, bail};
use header_core::{
    Carried, Header, InPlaceOfPorts, Payload, dissect, find_packet, link_payload, mark,
};
use std::io::{BufRead, BufReader};

fn main(rt: HostRuntime) -> Result<()> {
    for line in BufReader::new(rt.alloc(), rt.reader())?.lines(rt.alloc()) {
        answer(&rt, line?.as_str())?;
    }
    Ok(())
}

/// Writes what is wanted of a line.
fn answer<R: Print + AllocGlobal>(rt: &R, line: &str) -> Result<()> {
    let (kind, rest) = line.split_once(' ').context("a line has no space")?;
    let (wire, digits) = rest.split_once(' ').context("a line has one space alone")?;
    let wire: usize = wire.parse().context("the second word is no number")?;
    let mut bytes = hex::decode(rt.alloc(), digits).context("the third word has no bytes")?;
    match Asked::try_new(kind) {
        Some(Asked::Frame) => answer_frame(rt, &bytes, wire),
        Some(Asked::Link(link_type)) => answer_link(rt, &bytes, wire, link_type),
        Some(Asked::Packet(instead)) => {
            answer_packet(rt, &dissect(&bytes, wire, None, instead), 0, 0)
        }
        Some(Asked::Mark) => answer_mark(rt, &mut bytes),
        None => bail!("a line asks for {kind}"),
    }
}

/// Writes what a frame of Ethernet carries.
fn answer_frame<R: Print + AllocGlobal>(rt: &R, bytes: &[u8], wire: usize) -> Result<()> {
    let Some(payload) = link_payload(bytes) else {
        println!(rt; "link\t-2\t0")?;
        return Ok(());
    };
    if payload.ethertype == 0x0800 || payload.ethertype == 0x86DD {
        answer_payload(rt, bytes, wire, payload)
    } else {
        answer_another(rt, payload)
    }
}

/// Writes what a link of some type delivered.
fn answer_link<R: Print + AllocGlobal>(
    rt: &R,
    bytes: &[u8],
    wire: usize,
    link_type: u32,
) -> Result<()> {
    match find_packet(bytes, link_type) {
        Carried::Packet(payload) => answer_payload(rt, bytes, wire, payload),
        Carried::Another(payload) => answer_another(rt, payload),
        Carried::Cut => {
            println!(rt; "link\t-2\t0")?;
            Ok(())
        }
        Carried::Unknown => {
            println!(rt; "link\t-3\t0")?;
            Ok(())
        }
    }
}

/// Writes what carries no packet of IP.
fn answer_another<R: Print + AllocGlobal>(rt: &R, payload: Payload) -> Result<()> {
    println!(rt; "link\t-1\t{}", payload.ethertype)?;
    Ok(())
}

/// Writes what the packet says that a link carries.
fn answer_payload<R: Print + AllocGlobal>(
    rt: &R,
    bytes: &[u8],
    wire: usize,
    payload: Payload,
) -> Result<()>
    requires { payload.offset ≤ length bytes.now }
{
    let header = dissect(
        &bytes[payload.offset..],
        wire.saturating_sub(payload.offset),
        (payload.ethertype != 0).then_some(payload.ethertype),
        InPlaceOfPorts {
            esp_spi: false,
            flow_label: false,
        },
    );
    answer_packet(rt, &header, payload.offset, payload.tags)
}

/// Writes what a packet says.
fn answer_packet<R: Print + AllocGlobal>(
    rt: &R,
    header: &Header,
    offset: usize,
    tags: usize,
) -> Result<()> {
    let tuple = header.tuple;
    print!(rt;
        "ip\t{}\t{}\t{}",
        verdict_number(header.verdict),
        header.version,
        tuple.proto
    )?;
    print!(rt; "\t{}\t{}", header.ecn as u8, header.len)?;
    print!(rt; "\t{}", fragment_number(header.fragment))?;
    print!(rt; "\t{}", ports_number(header.ports))?;
    print!(rt; "\t{}\t{}\t{}", tuple.sport, tuple.dport, header.transport)?;
    print!(rt; "\t{}", address(rt.alloc(), &tuple.src)?)?;
    print!(rt; "\t{}", address(rt.alloc(), &tuple.dst)?)?;
    println!(rt;
        "\t{offset}\t{tags}\t{}\t{}",
        header.flow_label, header.dscp
    )?;
    Ok(())
}

/// Writes whether a packet was marked, and its bytes.
fn answer_mark<R: Print + AllocGlobal>(rt: &R, bytes: &mut [u8]) -> Result<()> {
    let marked = mark(bytes);
    let digits = hex::encode(rt.alloc(), &*bytes)?;
    println!(rt; "mark\t{}\t{digits}", u8::from(marked))?;
    Ok(())
}
