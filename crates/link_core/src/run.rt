//! FQ-CoDel at the head of a link.

ghost use Rattle.std.specs.Prelude.{◌≡◌, [], IfOk};
ghost use Rattle.link_core.specs.Arrivals.{AreArrivals};
ghost use Rattle.link_core.specs.LinkLaws.{end_of};
ghost use Rattle.link_core.specs.LinkRuns.{HasRunLink};
ghost use Rattle.sched_core.specs.Schedulers.{IsMadeFor};

use crate::arrival::Arrival;
use crate::discipline::QueueDiscipline;
use crate::driver::run_over;
use crate::link::Link;
use packet_core::{Packet, Params, Seed};
use sched_core::{Engine, EventList, Memory, Recorder, Refusal, Sent, StepList, StepRecorder};
use std::alloc::{AllocError, Global};

/// Makes the steps of a link for these arrivals with a new engine of those parameters and that seed. Each packet comes
/// in at its moment, by lane 0. The link asks for a packet whenever it gets free, in vain too, and whenever a packet
/// comes while it is idle. So the link is never idle while something waits. The engine has the journal and the steps.
/// No step is refused, and it fails for want of memory alone.
pub fn run_link(
    alloc: Global,
    params: Params,
    seed: Seed,
    link: &Link,
    arrivals: &[Arrival],
) -> Result<Engine, Memory>
    requires { AreArrivals arrivals.now }
    ensures { IfOk result (HasRunLink params seed link.now arrivals.now) }
{
    let (events, steps) = (EventList::new(alloc), StepList::new(alloc));
    run_link_with_recorders(alloc, params, seed, link, arrivals, events, steps)
}

/// The same as `run_link`, but over recorders of events and of steps that were told none. `NullRecorder` is for those that
/// nobody reads: a run takes less memory then. Where the one of events says for how many packets it was made, these have
/// to be `limit` and one more, or more than that.
pub fn run_link_with_recorders<K: Recorder, S: StepRecorder>(
    alloc: Global,
    params: Params,
    seed: Seed,
    link: &Link,
    arrivals: &[Arrival],
    events: K,
    steps: S,
) -> Result<Engine<K, S>, Memory>
    requires arrivals { AreArrivals arrivals.now }
    requires events { K.told events ≡ [] }
    requires none_sent { K.sent events ≡ [] }
    requires no_loss { K.lost events ≡ [] }
    requires made_for { IsMadeFor params.limit (K.made_for events) }
    requires steps { S.told steps ≡ [] }
    ensures run { IfOk result (HasRunLink params seed link.now arrivals.now) }

    // The recorder of events stays what it was made for.
    ensures made_for { IfOk result (λ engine. engine.sched.made_for ≡ K.made_for events) }
{
    let (engine, _) = run_link_to_end(alloc, params, seed, link, arrivals, events, steps)?;
    Ok(engine)
}

/// The same as `run_link_with_recorders`, and the moment at which the link has sent its last packet whole, in
/// microseconds, rounded up. It is 0 where none was sent.
pub fn run_link_to_end<K: Recorder, S: StepRecorder>(
    alloc: Global,
    params: Params,
    seed: Seed,
    link: &Link,
    arrivals: &[Arrival],
    events: K,
    steps: S,
) -> Result<(Engine<K, S>, u64), Memory>
    requires arrivals { AreArrivals arrivals.now }
    requires events { K.told events ≡ [] }
    requires none_sent { K.sent events ≡ [] }
    requires no_loss { K.lost events ≡ [] }
    requires made_for { IsMadeFor params.limit (K.made_for events) }
    requires steps { S.told steps ≡ [] }
    ensures run { IfOk result (λ ran. HasRunLink params seed link.now arrivals.now ran.0) }
    ensures end { IfOk result (λ ran. ran.1 ≡ end_of link.now arrivals.now ran.0.sched.standing.events) }
    ensures made_for { IfOk result (λ ran. ran.0.sched.made_for ≡ K.made_for events) }
{
    let mut engine = Engine::try_with_recorders(alloc, params, seed, events, steps)?;
    let end = run_over(&mut engine, link, arrivals)?;
    Ok((engine, end))
}

/// The scheduler, with the steps that it made.
impl<K: Recorder, S: StepRecorder> QueueDiscipline for Engine<K, S> {
    ghost use Rattle.fair_core.specs.FairQueues.{FairQueues};
    ghost use Rattle.fair_core.specs.FqCodel.{fq_codel};
    ghost use Rattle.link_core.specs.QueueDisciplines.{Setting};

    ghost Queues = { FairQueues };

    ghost Kept = { Setting };

    ghost rules = { λ k. fq_codel k.params k.seed };

    ghost kept = { λ e. record { params = e.sched.params; seed = e.sched.seed; made_for = e.sched.made_for } };

    ghost so_far = { λ e. record { standing = e.sched.standing; steps = e.steps } };

    #[inline]
    fn arrive(&mut self, moment: u64, packet: Packet) -> Result<(), Memory> {
        match self.enqueue(moment, 0, packet) {
            Ok(_) => Ok(()),
            Err(Refusal::Memory) => Err(AllocError),
            Err(_) => unreachable!(),
        }
    }

    #[inline]
    fn serve(&mut self, moment: u64) -> Result<Option<Sent>, Memory> {
        let sent = match self.dequeue(moment) {
            Ok(sent) => sent,
            Err(Refusal::Memory) => return Err(AllocError),
            Err(_) => unreachable!(),
        };
        self.run_of_steps();
        Ok(sent)
    }

    fn waiting(&self) -> u64 {
        self.run_of_steps();
        self.queued()
    }
}
