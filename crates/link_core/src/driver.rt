//! A link over any discipline.

ghost use Rattle.std.specs.Prelude.{◌≡◌, ◌<◌, ◌≤◌, None, IfOk, OnOk, IfSome, drop, length};
ghost use Rattle.journal_core.specs.State.{refusal_of};
ghost use Rattle.journal_core.specs.declared.step.Step.TheVariants.{Dequeue};
ghost use Rattle.link_core.specs.Arrivals.{AreArrivals};
ghost use Rattle.link_core.specs.LinkLaws.{end_of};
ghost use Rattle.link_core.specs.LinkRuns.{HasRunOver};
ghost use Rattle.link_core.specs.QueueDisciplines.{no_progress};
ghost use Rattle.link_core.specs.Underway.{ComesBy, HasAsked, HasSentBy, IsOnLink, free_or};

use crate::arrival::{Arrival, MAX_ARRIVALS};
use crate::discipline::QueueDiscipline;
use crate::free_at::FreeAt;
use crate::link::Link;
use journal_core::Memory;

/// Makes the steps of a link for these arrivals with a discipline that made none before, and returns the moment at
/// which the link has sent its last packet whole, in microseconds, rounded up; it is 0 where none was sent. Each
/// packet comes in at its moment. The link asks for a packet whenever it gets free, in vain too, and whenever a packet
/// comes while it is idle. So the link is never idle while something waits. No step is refused, and it fails for want
/// of memory alone.
pub fn run_over<D: QueueDiscipline>(
    discipline: &mut D,
    link: &Link,
    arrivals: &[Arrival],
) -> Result<u64, Memory>
    requires arrivals { AreArrivals arrivals.now }
    requires new { D.so_far discipline.old ≡ no_progress (D.rules (D.kept discipline.old)) }
    ensures run { OnOk result
        (HasRunOver (D.rules (D.kept discipline.old)) link.now arrivals.now (D.so_far discipline.new)) }
    ensures end { IfOk result (λ end. end
        ≡ end_of link.now arrivals.now (D.so_far discipline.new).standing.events) }

    // It stays what it was made with.
    ensures kept { OnOk result (D.kept discipline.new ≡ D.kept discipline.old) }
{
    let mut busy = None;
    let mut done = FreeAt::at(0);
    for i in 0..arrivals.len() {
        busy = meet_next(discipline, link, arrivals, busy, &mut done, &arrivals[i..])?;
    }
    ask_before(discipline, link, arrivals, busy, &mut done, &[])?;
    Ok(done.rounded_up(link))
}

/// The link asks for packets until the next one comes, takes that in, and asks for one at once where it is idle.
/// `done` is when the link has sent the packets so far.
fn meet_next<D: QueueDiscipline>(
    discipline: &mut D,
    link: &Link,
    arrivals: &[Arrival],
    busy: Option<FreeAt>,
    done: &mut FreeAt,
    coming: &[Arrival],
) -> Result<Option<FreeAt>, Memory>
    requires few { length arrivals.now ≤ MAX_ARRIVALS }
    requires on_link { IsOnLink (D.rules (D.kept discipline.old)) link.now arrivals.now
        (D.so_far discipline.old) busy coming.now }
    requires sent { HasSentBy link.now arrivals.now
        (D.so_far discipline.old).standing.events busy coming.now done.old }
    requires some { 0 < length coming.now }
    ensures on_link { IfOk result (λ left. IsOnLink (D.rules (D.kept discipline.old)) link.now arrivals.now
        (D.so_far discipline.new) left (drop 1 coming.now)) }
    ensures sent { IfOk result (λ left. HasSentBy link.now arrivals.now
        (D.so_far discipline.new).standing.events left (drop 1 coming.now) done.new) }
    ensures kept { OnOk result (D.kept discipline.new ≡ D.kept discipline.old) }
{
    let left = ask_before(discipline, link, arrivals, busy, done, coming)?;
    let next = &coming[0];
    discipline.arrive(next.moment, next.packet)?;
    match left {
        Some(free) => Ok(Some(free)),
        None => ask(discipline, link, arrivals, FreeAt::at(next.moment), done),
    }
}

/// Asks for packets as long as the link gets free before the next one comes, or none is to come.
fn ask_before<D: QueueDiscipline>(
    discipline: &mut D,
    link: &Link,
    arrivals: &[Arrival],
    busy: Option<FreeAt>,
    done: &mut FreeAt,
    coming: &[Arrival],
) -> Result<Option<FreeAt>, Memory>
    requires few { length arrivals.now ≤ MAX_ARRIVALS }
    requires on_link { IsOnLink (D.rules (D.kept discipline.old)) link.now arrivals.now
        (D.so_far discipline.old) busy coming.now }
    requires sent { HasSentBy link.now arrivals.now
        (D.so_far discipline.old).standing.events busy coming.now done.old }
    ensures on_link { IfOk result (λ left. IsOnLink (D.rules (D.kept discipline.old)) link.now arrivals.now
        (D.so_far discipline.new) left coming.now) }
    ensures sent { IfOk result (λ left. HasSentBy link.now arrivals.now
        (D.so_far discipline.new).standing.events left coming.now done.new) }
    ensures waits { IfOk result (λ left. IfSome left (λ free. ComesBy free.moment coming.now)) }
    ensures kept { OnOk result (D.kept discipline.new ≡ D.kept discipline.old) }
{
    let mut busy = busy;
    while let Some(free) = busy {
        if Arrival::comes_by(coming, free.moment) {
            return Ok(Some(free));
        }
        busy = ask(discipline, link, arrivals, free, done)?;
    }
    Ok(None)
}

/// The link asks for a packet, and sends it if there is one: when it gets free again. That is when it has sent all
/// packets so far.
fn ask<D: QueueDiscipline>(
    discipline: &mut D,
    link: &Link,
    arrivals: &[Arrival],
    now: FreeAt,
    done: &mut FreeAt,
) -> Result<Option<FreeAt>, Memory>
    requires few { length arrivals.now ≤ MAX_ARRIVALS }
    requires fits { refusal_of (D.so_far discipline.old).standing.state (Dequeue now.moment) ≡ None }
    requires rest { now.rest ≤ link.now.rate }
    requires known { (D.so_far discipline.old).standing.state.next_id ≤ length arrivals.now }
    ensures asked { IfOk result (λ busy. HasAsked (D.rules (D.kept discipline.old)) link.now arrivals.now now
        (D.so_far discipline.old) busy (D.so_far discipline.new)) }
    ensures done { IfOk result (λ busy. done.new ≡ free_or busy done.old) }
    ensures kept { D.kept discipline.new ≡ D.kept discipline.old }
{
    let sent = discipline.serve(now.moment)?;
    Ok(match sent {
        Some(sent) => {
            *done = now.after(link, arrivals[sent.id as usize].packet.len());
            Some(*done)
        }
        None => None,
    })
}
