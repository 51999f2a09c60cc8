//! What CoDel takes packets from, and what takes the packets that it drops.

ghost use Rattle.std.specs.Prelude.{◌≡◌, Some, ℕ, ◌+◌, ◌^◌, ◌<◌, ◌≤◌, List, [], ◌∷◌, ◌++◌, length, drop, option_copied, slice_get};
ghost use Rattle.packet_core.specs.declared.packet.Waiting.{Waiting};
ghost use Rattle.codel_core.specs.Queue.{bytes_of};

use crate::limits::MAX_WAITING;
use packet_core::Waiting;

/// A line of waiting packets that CoDel takes from the head of.
pub trait Pull {
    /// The packets that wait, the head first.
    ghost items: { Self → List Waiting };

    /// That many pulls, one after another, make the second of the first.
    ghost pulled: { Self → ℕ → Self → Type 0 };

    /// Takes the head. None where nothing waits.
    fn pull(&mut self) -> Option<Waiting>
        ensures head { result ≡ slice_get (items self.old) 0 }
        ensures rest { items self.new ≡ drop 1 (items self.old) }
        ensures step { pulled self.old 1 self.new };

    /// The lengths of the packets that wait, added up.
    fn bytes_left(&self) -> u64
        requires { length (items self.now) ≤ MAX_WAITING }
        ensures { result ≡ bytes_of (items self.now) };

    ghost pulled_none: { (a : Self) → pulled a 0 a };

    ghost pulled_more: { (a b c : Self) (n : ℕ) → pulled a n b → pulled b 1 c → pulled a (n + 1) c };
}

/// A line whose head can be read where it stands.
pub trait Peek: Pull {
    /// The head. None where nothing waits.
    fn head(&self) -> Option<&Waiting>
        ensures { option_copied result ≡ slice_get (Self.items self.now) 0 };

    /// The lengths of the packets behind the head, added up. The head is handed in, since the caller has it.
    fn bytes_behind(&self, head: &Waiting) -> u64
        requires head { Some head.now ≡ slice_get (Self.items self.now) 0 }
        requires size { length (Self.items self.now) ≤ MAX_WAITING }
        ensures { result ≡ bytes_of (drop 1 (Self.items self.now)) };
}

/// What CoDel judges: a line of which the head can be looked at. It stands in the line, or was pulled and is in hand.
pub(crate) trait Judged {
    /// The packets that wait, the head first.
    ghost judged: { Self → List Waiting };

    /// So many of them were taken, one after another, which makes the second of the first.
    ghost advanced: { Self → ℕ → Self → Type 0 };

    /// The head. None where nothing waits.
    fn look(&self) -> Option<&Waiting>
        ensures { option_copied result ≡ slice_get (judged self.now) 0 };

    /// The lengths of the packets behind the head, added up. The head is handed in, since the caller has it.
    fn behind(&self, head: &Waiting) -> u64
        requires head { Some head.now ≡ slice_get (judged self.now) 0 }
        requires size { length (judged self.now) ≤ MAX_WAITING }
        ensures { result ≡ bytes_of (drop 1 (judged self.now)) };

    /// Takes the head. None where nothing waits.
    fn advance(&mut self) -> Option<Waiting>
        ensures head { result ≡ slice_get (judged self.old) 0 }
        ensures rest { judged self.new ≡ drop 1 (judged self.old) }
        ensures step { advanced self.old 1 self.new };

    ghost advanced_none: { (a : Self) → advanced a 0 a };

    ghost advanced_more: { (a b c : Self) (n : ℕ) → advanced a n b → advanced b 1 c → advanced a (n + 1) c };
}

impl<L: Peek> Judged for L {
    ghost judged = { L.items };

    ghost advanced = { L.pulled };

    ghost advanced_none = { L.pulled_none };

    ghost advanced_more = { L.pulled_more };

    #[inline(always)]
    fn look(&self) -> Option<&Waiting> {
        self.head()
    }

    #[inline(always)]
    fn behind(&self, head: &Waiting) -> u64 {
        self.bytes_behind(head)
    }

    #[inline(always)]
    fn advance(&mut self) -> Option<Waiting> {
        self.pull()
    }
}

/// Takes the head of a line that isn't empty.
// Kept out of its caller: merged into it, each packet taken is copied once more on its way.
#[inline(never)]
pub(crate) fn take_head<L: Judged>(line: &mut L) -> Waiting
    requires { 0 < length (L.judged line.old) }
    ensures head { Some result ≡ slice_get (L.judged line.old) 0 }
    ensures rest { L.judged line.new ≡ drop 1 (L.judged line.old) }
    ensures step { L.advanced line.old 1 line.new }
{
    let Some(head) = line.advance() else {
        unreachable!()
    };
    head
}

/// What takes the packets that CoDel drops.
pub trait DropSink {
    /// How many more packets it takes.
    ghost room: { Self → ℕ };

    /// Those packets, taken one after another, make the second of the first.
    ghost taken: { Self → List Waiting → Self → Type 0 };

    /// Takes a packet that is dropped.
    fn take(&mut self, dropped: Waiting)
        requires { 0 < room self.old }
        ensures room { room self.new + 1 ≡ room self.old }
        ensures step { taken self.old (dropped ∷ []) self.new };

    ghost taken_none: { (a : Self) → taken a [] a };

    ghost taken_more: { (a b c : Self) (ws : List Waiting) (w : Waiting)
        → taken a ws b → taken b (w ∷ []) c → taken a (ws ++ w ∷ []) c };
}
