//! The words of a row.

ghost use Rattle.std.specs.Prelude.{◌≡◌};
ghost use Rattle.text_core.specs.Texts as Texts;

use journal_core::{Cause, Mark};
use packet_core::Ecn;

/// The two bits of an ECN field as a number.
pub fn ecn_digit(ecn: Ecn) -> &'static [u8]
    ensures { result.now ≡ Texts.ecn_digit ecn }
{
    match ecn {
        Ecn::NotEct => b"0",
        Ecn::Ect1 => b"1",
        Ecn::Ect0 => b"2",
        Ecn::Ce => b"3",
    }
}

/// The word for a cause.
pub fn cause_name(cause: Cause) -> &'static [u8]
    ensures { result.now ≡ Texts.cause_name cause }
{
    match cause {
        Cause::Codel => b"codel",
        Cause::Overflow => b"overflow",
    }
}

/// The word for a mark, and none where there is none.
pub fn mark_name(mark: Mark) -> &'static [u8]
    ensures { result.now ≡ Texts.mark_name mark }
{
    match mark {
        Mark::NoMark => b"",
        Mark::CodelMark => b"codel",
        Mark::Threshold => b"threshold",
    }
}
