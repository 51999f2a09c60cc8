//! The moments of the device's calls.
ghost use Rattle.std.specs.Prelude.{◌≡◌, max};

/// The device's moment at a row of the trace with that moment, in microseconds. It starts at 0 and never falls.
pub fn device_moment(now: u64, row: u64) -> u64
    ensures { result ≡ max row now }
{
    row.max(now)
}
