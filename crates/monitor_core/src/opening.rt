//! Opens a publisher and its monitors.

ghost use Rattle.std.specs.Prelude.{◌≡◌, ◌<◌, ◌≤◌, [], replicate, vec_capacity, IfOk, OnErr, OnOk};
ghost use Rattle.monitor_core.specs.Publishing.{nothing_published};

use crate::book::{BookBlank, BookName};
use crate::monitor::Monitor;
use crate::publisher::{Publisher, nothing_shown};
use crate::screen::{LeftRight, NoReader};
use crate::shown::Shown;
use std::alloc::{AllocError, Global};
use std::sync::Wait;

/// Why nothing was opened.
#[derive(Clone, Copy, Debug, PartialEq, Eq)]
pub enum OpenFault {
    /// A growth was refused.
    Memory,
    /// There was no place for a monitor, by `left_right`.
    NoPlace(NoReader),
}

impl From<AllocError> for OpenFault {
    ghost use Rattle.std.specs.Prelude.{◌≡◌};
    ghost use Rattle.monitor_core.specs.declared.opening.OpenFault.TheVariants as open_fault;

    ghost from_gives = { λ _ fault. fault ≡ open_fault.Memory };

    fn from(_: AllocError) -> OpenFault {
        OpenFault::Memory
    }
}

impl From<NoReader> for OpenFault {
    ghost use Rattle.std.specs.Prelude.{◌≡◌};
    ghost use Rattle.monitor_core.specs.declared.opening.OpenFault.TheVariants as open_fault;

    ghost from_gives = { λ reason fault. fault ≡ open_fault.NoPlace reason };

    fn from(reason: NoReader) -> OpenFault {
        OpenFault::NoPlace(reason)
    }
}

/// Opens a publisher that has published nothing, and so many monitors that have seen nothing. Without monitors it takes
/// no memory.
pub fn open_publisher<J: BookName, R: Wait + Drop>(
    rt: R,
    alloc: Global,
    blank: BookBlank,
    monitors: u32,
) -> Result<(Publisher<J, LeftRight<Shown<J>, R>>, Vec<Monitor<J>>), OpenFault>
    requires { blank ≡ J.book }
    ensures publisher { IfOk result (λ r. r.0 ≡ nothing_published) }
    ensures monitors { IfOk result (λ r. r.1.items ≡ replicate monitors []) }
    ensures unread { OnErr result (0 < monitors) }
{
    let (book, front) = blank.named::<J>();
    let first = nothing_shown(&front);
    if monitors == 0 {
        let (screen, shown) = LeftRight::unread(first);
        return Ok((Publisher::new(screen, book, front, shown), Vec::new(alloc)));
    }
    let mut all = Vec::with_capacity(alloc, monitors as usize)?;
    let (screen, shown) = LeftRight::new(alloc, rt, first, monitors)?;
    add_monitors(&mut all, &screen, shown.value(), monitors)?;
    Ok((Publisher::new(screen, book, front, shown), all))
}

/// Adds so many monitors that have seen nothing. It takes no memory, so a place alone may be wanting.
fn add_monitors<J: BookName, R: Wait + Drop>(
    all: &mut Vec<Monitor<J>>,
    screen: &LeftRight<Shown<J>, R>,
    shown: &Shown<J>,
    monitors: u32,
) -> Result<(), NoReader>
    requires none { all.old.items ≡ [] }
    requires room { monitors ≤ vec_capacity all.old }
    requires shown { shown.now ≡ [] }
    ensures { OnOk result (all.new.items ≡ replicate monitors []) }
{
    for _ in 0..monitors {
        all.push_reserved(Monitor::new(screen.reader()?, shown.again()));
    }
    Ok(())
}
