//! The calls that look at a scheduler and change nothing. They write nothing of the struct that C holds: the scheduler
//! stays behind its handle.

ghost use Rattle.std.specs.Prelude.{◌≡◌, ◌<◌, ◌≤◌, None};
ghost use Rattle.fair_core.specs.Shown.{flow_shown};
ghost use Rattle.sched_core.specs.Schedulers.{flows_of};
ghost use Rattle.queue_disc_core.specs.QueueDiscs.{queued_in, totals_of};
ghost use Rattle.maltcove_c.specs.Calls.{IfBehind};
ghost use Rattle.maltcove_c.specs.Records.{flow_told, params_told, totals_told};
ghost use Rattle.maltcove_c.specs.declared.status.TheConstants.{BAD_FLOW, NOT_OPEN, OK};

use crate::records::{MaltcoveFlow, MaltcoveParams, MaltcoveTotals, flow_of, params_of, totals_of};
use crate::scheduler::Maltcove;
use crate::status::{BAD_FLOW, NOT_OPEN, OK};
use queue_disc_core::QueueDisc;

/// The statistics of all packets so far.
#[unsafe(no_mangle)]
pub extern "C" fn maltcove_raw_totals(m: &mut Maltcove, out: &mut MaltcoveTotals) -> i32
    ensures none { m.old.handle.value ≡ None → (result ≡ NOT_OPEN) × (out.new ≡ out.old) }
    ensures shown { IfBehind (λ a. (result ≡ OK) × (out.new ≡ totals_told (totals_of a))) m.old.handle.value }
    ensures unchanged { m.new.handle.value ≡ m.old.handle.value }
{
    if !m.is_open {
        return NOT_OPEN;
    }
    *out = totals_of(&m.handle.disc().totals());
    OK
}

/// How many packets wait.
#[unsafe(no_mangle)]
pub extern "C" fn maltcove_raw_queued(m: &mut Maltcove, out: &mut u64) -> i32
    ensures none { m.old.handle.value ≡ None → (result ≡ NOT_OPEN) × (out.new ≡ out.old) }
    ensures shown { IfBehind (λ a. (result ≡ OK) × (out.new ≡ queued_in a)) m.old.handle.value }
    ensures unchanged { m.new.handle.value ≡ m.old.handle.value }
{
    if !m.is_open {
        return NOT_OPEN;
    }
    *out = m.handle.disc().queued();
    OK
}

/// Shows a flow, if there is one of that number.
fn show(disc: &QueueDisc, flow: u32, out: &mut MaltcoveFlow) -> i32
    ensures shown { flow < disc.now.sched.params.flows
        → (result ≡ OK) × (out.new ≡ flow_told (flow_shown (flows_of disc.now.sched) flow)) }
    ensures bad { disc.now.sched.params.flows ≤ flow → (result ≡ BAD_FLOW) × (out.new ≡ out.old) }
{
    if flow >= disc.params().flows() {
        return BAD_FLOW;
    }
    *out = flow_of(&disc.flow_view(flow));
    OK
}

/// What is kept of a flow.
#[unsafe(no_mangle)]
pub extern "C" fn maltcove_raw_flow(m: &mut Maltcove, flow: u32, out: &mut MaltcoveFlow) -> i32
    ensures none { m.old.handle.value ≡ None → (result ≡ NOT_OPEN) × (out.new ≡ out.old) }
    ensures shown { IfBehind (λ a. flow < a.sched.params.flows
        → (result ≡ OK) × (out.new ≡ flow_told (flow_shown (flows_of a.sched) flow))) m.old.handle.value }
    ensures bad { IfBehind (λ a. a.sched.params.flows ≤ flow
        → (result ≡ BAD_FLOW) × (out.new ≡ out.old)) m.old.handle.value }
    ensures unchanged { m.new.handle.value ≡ m.old.handle.value }
{
    if !m.is_open {
        return NOT_OPEN;
    }
    show(m.handle.disc(), flow, out)
}

/// The parameters.
#[unsafe(no_mangle)]
pub extern "C" fn maltcove_raw_params(m: &mut Maltcove, out: &mut MaltcoveParams) -> i32
    ensures none { m.old.handle.value ≡ None → (result ≡ NOT_OPEN) × (out.new ≡ out.old) }
    ensures shown { IfBehind (λ a. (result ≡ OK) × (out.new ≡ params_told a.sched.params)) m.old.handle.value }
    ensures unchanged { m.new.handle.value ≡ m.old.handle.value }
{
    if !m.is_open {
        return NOT_OPEN;
    }
    *out = params_of(m.handle.disc().params());
    OK
}

/// Whether there was a close.
#[unsafe(no_mangle)]
pub extern "C" fn maltcove_raw_is_closed(m: &mut Maltcove, out: &mut bool) -> i32
    ensures none { m.old.handle.value ≡ None → (result ≡ NOT_OPEN) × (out.new ≡ out.old) }
    ensures shown { IfBehind (λ a. (result ≡ OK) × (out.new ≡ a.sched.standing.state.closed)) m.old.handle.value }
    ensures unchanged { m.new.handle.value ≡ m.old.handle.value }
{
    if !m.is_open {
        return NOT_OPEN;
    }
    *out = m.handle.disc().is_closed();
    OK
}
