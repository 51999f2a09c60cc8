//! What the monitors of a run saw, told in a line for each.
ghost use Rattle.std.specs.Prelude.{◌≡◌, ℕ, All, IfOk, length, string_bytes, take};
ghost use Rattle.std.specs.Io.KnownBytes.{Appends, Keeps};
ghost use Rattle.run_core.specs.Seeing.{IsSeen};
ghost use Rattle.program_core.specs.Watched.{TellsLines, seen_line};

use crate::program_run::show;
use port_core::Seen;
use std::alloc::{AllocError, Global};
use std::io::Write;

/// Reports what each monitor saw last, a line for each by rising number from 0. Where a line can't be written there is
/// nowhere left to say so, and it is passed over: a front of it is written, and nothing where memory for it is refused.
pub(crate) fn tell_seen<F: Write>(alloc: Global, told: &mut F, seen: &[Seen])
    requires { All IsSeen seen.now }
    ensures told { TellsLines seen.now (F.contents told.old) (F.contents told.new) }
    ensures quiet { length seen.now ≡ 0 → Keeps (F.contents told.old) (F.contents told.new) }
{
    for monitor in 0..seen.len() {
        tell_one(alloc, told, monitor, &seen[monitor]);
    }
}

/// Reports what one monitor saw last.
fn tell_one<F: Write>(alloc: Global, told: &mut F, monitor: usize, seen: &Seen)
    requires { IsSeen seen.now }
    ensures { (count : ℕ)
        × Appends (F.contents told.old) (F.contents told.new) (take count (seen_line monitor seen.now)) }
{
    if let Ok(line) = line_of(alloc, monitor, *seen) {
        let _ = show(told, line.as_str());
    }
}

/// The line of a monitor. It fails where memory is refused.
fn line_of(alloc: Global, monitor: usize, seen: Seen) -> Result<String, AllocError>
    requires { IsSeen seen }
    ensures { IfOk result (λ line. string_bytes line ≡ seen_line monitor seen) }
{
    let events = seen.events;
    let totals = seen.totals;
    let (accepted, sent, queued) = (totals.accepted, totals.sent, totals.queued);
    let dropped = totals.dropped_codel + totals.dropped_overflow;
    format!(in alloc; "monitor {monitor} {events} {accepted} {sent} {dropped} {queued}\n")
}
