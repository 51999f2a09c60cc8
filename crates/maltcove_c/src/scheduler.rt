//! What C holds: a scheduler, or none.

ghost use Rattle.std.specs.Prelude.{◌≡◌, Some, None, MatchOption};
ghost use Rattle.std.specs.Option.{is_some};

use crate::handle::Handle;
use queue_disc_core::QueueDisc;
use std::alloc::Global;
use std::marker::Send;
use std::mem;

/// A scheduler, or none. C sets its 16 bytes to 0 for none, and changes none of them after.
#[repr(C)]
#[derive(Drop)]
pub struct Maltcove {
    pub(crate) handle: Handle,
    pub(crate) is_open: bool,
    ghost tied: { is_open ≡ is_some handle.value },
}

const _: () = prove!(size_of::<Maltcove>() == 16);

/// None.
pub(crate) fn none(alloc: Global) -> Maltcove
    ensures { result.handle.value ≡ None }
{
    Maltcove {
        handle: Handle::empty(alloc),
        is_open: false,
    }
}

/// Takes the scheduler out, if there is one.
pub(crate) fn take(alloc: Global, m: &mut Maltcove) -> Option<Box<QueueDisc>>
    ensures taken { MatchOption result (m.old.handle.value ≡ None) (λ b. m.old.handle.value ≡ Some b.value) }
    ensures left { m.new.handle.value ≡ None }
{
    let old = mem::replace(m, none(alloc));
    if !old.is_open {
        return None;
    }
    Some(old.handle.into_box())
}

/// Puts the scheduler in, where there was none.
pub(crate) fn put(m: &mut Maltcove, disc: Box<QueueDisc>)
    ensures { m.new.handle.value ≡ Some disc.value }
{
    *m = Maltcove {
        handle: Handle::of(disc),
        is_open: true,
    };
}

/// A scheduler may be handed to another thread, with all that it owns: one thread at a time calls it.
pub(crate) fn handed_over(m: Maltcove) -> Maltcove
    ensures { result ≡ m }
{
    sendable(m)
}

/// Only what may go to another thread is taken.
fn sendable<T: Send>(value: T) -> T
    ensures { result ≡ value }
{
    value
}
