//! A box as its pointer, or none: what C holds of a scheduler.

ghost use Rattle.std.specs.Prelude.{◌≡◌, Some, None, IsSome, Option};
ghost use Rattle.queue_disc_core.specs.QueueDiscs.{DiscState};

use crate::parts::Parts;
use queue_disc_core::QueueDisc;
use std::alloc::Global;
use std::marker::{Model, Send};
use std::ptr;

/// What C sees of a scheduler: a place.
#[repr(C)]
pub struct Opaque {
    byte: u8,
}

/// A box as its pointer, or null. The heap takes no byte of it.
#[repr(C)]
#[derive(Drop)]
pub struct Handle {
    at: *mut Opaque,
    alloc: Global,
    ghost value: { Option DiscState },
}

impl Model for Handle {
    ghost use Rattle.std_alloc.specs.Box.Ownership.{box_owns};
    ghost use Rattle.std.specs.contracts.impls.GlobalAllocator.TheImpl as global;
    ghost use Rattle.queue_disc_core.specs.contracts.queue_disc.QueueDisc as disc;
    ghost use Rattle.maltcove_c.specs.Handles.{owned_if};

    ghost also_owns = { λ h. owned_if h.value (λ x. box_owns (global.ghosts.dealloc_token h.alloc) disc.the_row h.at x) };
}

// It owns a box or nothing. A box may go to another thread where its value may, and a queue disc may.
unsafe impl Send for Handle {}

impl Handle {
    ghost use Rattle.std.specs.Borrow.{sem};
    ghost use Rattle.maltcove_c.specs.Lending.{LendsDisc};

    /// None.
    pub(crate) fn empty(alloc: Global) -> Handle
        ensures { result.value ≡ None }
    {
        Handle {
            at: ptr::null_mut(),
            alloc,
        }
    }

    /// That of a box.
    pub(crate) fn of(value: Box<QueueDisc>) -> Handle
        ensures { result.value ≡ Some value.value }
    {
        Handle::of_parts(Parts::of(value))
    }

    /// The box again.
    pub(crate) fn into_box(self) -> Box<QueueDisc>
        requires { IsSome self.value }
        ensures { self.value ≡ Some result.value }
    {
        self.into_parts().into_box()
    }

    /// What is in the box. The handle stays as it is: nothing is written to it.
    // By `&mut`, also for a caller that only looks: a struct that C holds can't say what stands behind a `&` to it.
    pub(crate) fn disc(&mut self) -> &mut QueueDisc
        requires { IsSome self.old.value }
        ensures* lends { sem 𝓛 (LendsDisc self.entry result) }
        ensures value { self.old.value ≡ Some result.now }
    {
        unsafe { &mut *(self.at as *mut QueueDisc) }
    }

    fn of_parts(parts: Parts<QueueDisc, Global>) -> Handle
        ensures { result.value ≡ Some parts.value }
    {
        let Parts { ptr, alloc } = parts;
        Handle {
            at: ptr as *mut Opaque,
            alloc,
        }
    }

    fn into_parts(self) -> Parts<QueueDisc, Global>
        requires { IsSome self.value }
        ensures { self.value ≡ Some result.value }
    {
        let Handle { at, alloc } = self;
        Parts {
            ptr: at as *mut QueueDisc,
            alloc,
        }
    }
}
