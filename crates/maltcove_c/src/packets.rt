//! The calls that packets come and go by.

ghost use Rattle.std.specs.Prelude.{◌≡◌, ◌≢◌, ◌⊎◌, ◌↔◌, ◌+◌, ◌<◌, ◌%◌, None, drop, length};
ghost use Rattle.packet_core.specs.Packets.{PacketParts};
ghost use Rattle.packet_core.specs.declared.params.Classify.TheVariants.{Dport, Hash};
ghost use Rattle.maltcove_c.specs.Calls.{AnswersAdmitted, AreSent, Behind, IfBehind, Idles, RefusesDequeue, RefusesEnqueue, RefusesInFlow, AnswersSent, SendsAll};
ghost use Rattle.maltcove_c.specs.Records.{Says, SaysInFlow};
ghost use Rattle.maltcove_c.specs.declared.status.TheConstants.{BAD_PACKET, HASHED, IDLE, MEMORY, NOT_OPEN, OK};

use crate::records::{
    MaltcoveAdmitted, MaltcoveDropped, MaltcovePacket, MaltcoveSent, admitted_of, dropped_of,
    idle_of, packet_in_flow, packet_of, sent_of,
};
use crate::scheduler::Maltcove;
use crate::status::{BAD_PACKET, HASHED, IDLE, NOT_OPEN, OK, enqueue_code, moment_code};
use packet_core::{Classify, Packet};
use queue_disc_core::QueueDisc;

/// A packet comes.
// Merged into the calls of C, as what stands below is merged into it: handed on in memory, a packet is read in other
// pieces than it was written in, and each such read waits for the writes.
#[inline(always)]
fn accept(disc: &mut QueueDisc, moment: u64, packet: Packet, out: &mut MaltcoveAdmitted) -> i32
    ensures made { result ≡ OK → AnswersAdmitted disc.old moment packet out.new disc.new }
    ensures refused { result ≢ OK → RefusesEnqueue disc.old moment packet result }
    ensures memory { result ≢ MEMORY }
    ensures unchanged { result ≢ OK → (disc.new ≡ disc.old) × (out.new ≡ out.old) }
    ensures open { result ≢ NOT_OPEN }
{
    match disc.enqueue(moment, packet) {
        Ok(enqueued) => {
            *out = admitted_of(&enqueued);
            OK
        }
        Err(fault) => enqueue_code(fault),
    }
}

/// The packet comes that C's record says, if it says one.
#[inline(always)]
fn accept_said(
    disc: &mut QueueDisc,
    moment: u64,
    said: &MaltcovePacket,
    out: &mut MaltcoveAdmitted,
) -> i32
    ensures made { result ≡ OK
        → (packet : PacketParts) × Says said.now packet × AnswersAdmitted disc.old moment packet out.new disc.new }
    ensures refused { result ≢ OK
        → ((result ≡ BAD_PACKET) × ((packet : PacketParts) → ¬ Says said.now packet))
        ⊎ ((packet : PacketParts) × Says said.now packet × RefusesEnqueue disc.old moment packet result) }
    ensures memory { result ≢ MEMORY }
    ensures unchanged { result ≢ OK → (disc.new ≡ disc.old) × (out.new ≡ out.old) }
    ensures open { result ≢ NOT_OPEN }
{
    match packet_of(said) {
        Some(packet) => accept(disc, moment, packet, out),
        None => BAD_PACKET,
    }
}

/// Accepts a packet, whose flow the scheduler finds.
#[unsafe(no_mangle)]
pub extern "C" fn maltcove_raw_enqueue(
    m: &mut Maltcove,
    moment: u64,
    packet: &MaltcovePacket,
    out: &mut MaltcoveAdmitted,
) -> i32
    ensures none { (result ≡ NOT_OPEN) ↔ (m.old.handle.value ≡ None) }
    ensures made { result ≡ OK → Behind
        (λ a b. (p : PacketParts) × Says packet.now p × AnswersAdmitted a moment p out.new b)
        m.old.handle.value m.new.handle.value }
    ensures refused { result ≢ OK → IfBehind
        (λ a. ((result ≡ BAD_PACKET) × ((p : PacketParts) → ¬ Says packet.now p))
        ⊎ ((p : PacketParts) × Says packet.now p × RefusesEnqueue a moment p result))
        m.old.handle.value }
    ensures memory { result ≢ MEMORY }
    ensures unchanged { result ≢ OK → (m.new.handle.value ≡ m.old.handle.value) × (out.new ≡ out.old) }
{
    if !m.is_open {
        return NOT_OPEN;
    }
    accept_said(m.handle.disc(), moment, packet, out)
}

/// What is left of a number that is divided by so many flows. Most callers hand in a number below, and wait for no
/// division.
fn remainder(number: u32, flows: u32) -> u32
    requires { 0 < flows }
    ensures value { result ≡ number % flows }
    ensures below { result < flows }
{
    if number < flows {
        number
    } else {
        number % flows
    }
}

/// The number of a flow, from any number.
fn flow_number(disc: &QueueDisc, flow: u32) -> u16
    ensures { result ≡ flow % disc.now.sched.params.flows }
{
    remainder(flow, disc.params().flows()) as u16
}

/// A packet comes to the flow of that number, where the caller chooses flows.
#[inline(always)]
fn accept_in_flow(
    disc: &mut QueueDisc,
    moment: u64,
    flow: u32,
    len: u32,
    ecn: u8,
    tag: u64,
    out: &mut MaltcoveAdmitted,
) -> i32
    ensures made { result ≡ OK
        → (packet : PacketParts) × SaysInFlow (flow % disc.old.sched.params.flows) len ecn tag packet
        × AnswersAdmitted disc.old moment packet out.new disc.new }
    ensures hashed { (result ≡ HASHED) ↔ (disc.old.sched.params.classify ≡ Hash) }
    ensures refused { result ≢ OK → result ≢ HASHED → RefusesInFlow disc.old moment flow len ecn tag result }
    ensures memory { result ≢ MEMORY }
    ensures unchanged { result ≢ OK → (disc.new ≡ disc.old) × (out.new ≡ out.old) }
    ensures open { result ≢ NOT_OPEN }
{
    if disc.params().classify() == Classify::Hash {
        return HASHED;
    }
    match packet_in_flow(flow_number(disc, flow), len, ecn, tag) {
        Some(packet) => accept(disc, moment, packet, out),
        None => BAD_PACKET,
    }
}

/// Accepts a packet, whose flow the caller has chosen.
#[unsafe(no_mangle)]
pub extern "C" fn maltcove_raw_enqueue_flow(
    m: &mut Maltcove,
    moment: u64,
    flow: u32,
    len: u32,
    ecn: u8,
    tag: u64,
    out: &mut MaltcoveAdmitted,
) -> i32
    ensures none { (result ≡ NOT_OPEN) ↔ (m.old.handle.value ≡ None) }
    ensures made { result ≡ OK → Behind
        (λ a b. (p : PacketParts) × SaysInFlow (flow % a.sched.params.flows) len ecn tag p
        × AnswersAdmitted a moment p out.new b)
        m.old.handle.value m.new.handle.value }
    ensures hashed { IfBehind (λ a. (result ≡ HASHED) ↔ (a.sched.params.classify ≡ Hash)) m.old.handle.value }
    ensures refused { result ≢ OK → result ≢ HASHED
        → IfBehind (λ a. RefusesInFlow a moment flow len ecn tag result) m.old.handle.value }
    ensures memory { result ≢ MEMORY }
    ensures unchanged { result ≢ OK → (m.new.handle.value ≡ m.old.handle.value) × (out.new ≡ out.old) }
{
    if !m.is_open {
        return NOT_OPEN;
    }
    accept_in_flow(m.handle.disc(), moment, flow, len, ecn, tag, out)
}

/// The next packet goes, if one waits.
fn give(disc: &mut QueueDisc, moment: u64, out: &mut MaltcoveSent) -> i32
    ensures sent { result ≡ OK → AnswersSent disc.old moment out.new disc.new }
    ensures idle { result ≡ IDLE → Idles disc.old moment out.new disc.new }
    ensures refused { result ≢ OK → result ≢ IDLE → RefusesDequeue disc.old moment result }
    ensures unchanged { result ≢ OK → result ≢ IDLE → (disc.new ≡ disc.old) × (out.new ≡ out.old) }
    ensures open { result ≢ NOT_OPEN }
{
    match disc.dequeue(moment) {
        Ok(dequeued) => match &dequeued.sent {
            Some(sent) => {
                *out = sent_of(sent, dequeued.drops);
                OK
            }
            None => {
                *out = idle_of(dequeued.drops);
                IDLE
            }
        },
        Err(fault) => moment_code(fault),
    }
}

/// Gives the next packet.
#[unsafe(no_mangle)]
pub extern "C" fn maltcove_raw_dequeue(m: &mut Maltcove, moment: u64, out: &mut MaltcoveSent) -> i32
    ensures none { (result ≡ NOT_OPEN) ↔ (m.old.handle.value ≡ None) }
    ensures sent { result ≡ OK
        → Behind (λ a b. AnswersSent a moment out.new b) m.old.handle.value m.new.handle.value }
    ensures idle { result ≡ IDLE
        → Behind (λ a b. Idles a moment out.new b) m.old.handle.value m.new.handle.value }
    ensures refused { result ≢ OK → result ≢ IDLE
        → IfBehind (λ a. RefusesDequeue a moment result) m.old.handle.value }
    ensures unchanged { result ≢ OK → result ≢ IDLE
        → (m.new.handle.value ≡ m.old.handle.value) × (out.new ≡ out.old) }
{
    if !m.is_open {
        return NOT_OPEN;
    }
    give(m.handle.disc(), moment, out)
}

/// Packets go until none waits or the places are full, and how many went. At a moment that is refused none goes.
fn give_burst(disc: &mut QueueDisc, moment: u64, out: &mut [MaltcoveSent], given: &mut u64) -> i32
    ensures full { result ≡ OK
        → (given.new ≡ length out.old) × AreSent disc.old moment out.new disc.new }
    ensures idle { result ≡ IDLE
        → (given.new < length out.old) × SendsAll disc.old moment out.new given.new disc.new }
    ensures rest { result ≡ IDLE → drop (given.new + 1) out.new ≡ drop (given.new + 1) out.old }
    ensures refused { result ≢ OK → result ≢ IDLE → RefusesDequeue disc.old moment result }
    ensures unchanged { result ≢ OK → result ≢ IDLE
        → (disc.new ≡ disc.old) × (out.new ≡ out.old) × (given.new ≡ 0) }
    ensures open { result ≢ NOT_OPEN }
{
    for place in 0..out.len() {
        let code = give(disc, moment, &mut out[place]);
        if code != OK {
            *given = place as u64;
            return code;
        }
    }
    *given = out.len() as u64;
    OK
}

/// Gives the next packets, as many as there is room for. It answers how many, by `given`.
#[unsafe(no_mangle)]
pub extern "C" fn maltcove_raw_dequeue_burst(
    m: &mut Maltcove,
    moment: u64,
    out: &mut [MaltcoveSent],
    given: &mut u64,
) -> i32
    ensures none { (result ≡ NOT_OPEN) ↔ (m.old.handle.value ≡ None) }
    ensures full { result ≡ OK → (given.new ≡ length out.old)
        × Behind (λ a b. AreSent a moment out.new b) m.old.handle.value m.new.handle.value }
    ensures idle { result ≡ IDLE → (given.new < length out.old)
        × Behind (λ a b. SendsAll a moment out.new given.new b) m.old.handle.value m.new.handle.value }
    ensures rest { result ≡ IDLE → drop (given.new + 1) out.new ≡ drop (given.new + 1) out.old }
    ensures refused { result ≢ OK → result ≢ IDLE
        → IfBehind (λ a. RefusesDequeue a moment result) m.old.handle.value }
    ensures unchanged { result ≢ OK → result ≢ IDLE
        → (m.new.handle.value ≡ m.old.handle.value) × (out.new ≡ out.old) × (given.new ≡ 0) }
{
    if !m.is_open {
        *given = 0;
        return NOT_OPEN;
    }
    give_burst(m.handle.disc(), moment, out, given)
}
