//! The checksum of a header in which one word changes (RFC 1624).

ghost use Rattle.std.specs.Prelude.{◌≡◌};
ghost use Rattle.header_core.specs.Checksums.{ones_add, updated_checksum};

/// The sum of two words in one's complement (RFC 1071).
#[tactic(auto, unfolding(crate::specs::Checksums::ones_add))]
fn ones_add(a: u16, b: u16) -> u16
    ensures { result ≡ ones_add a b }
{
    let sum = u32::from(a) + u32::from(b);
    if sum < 65_536 {
        sum as u16
    } else {
        (sum - 65_535) as u16
    }
}

/// The checksum after a word changed from `old` to `new` (RFC 1624, section 3, equation 3).
pub(crate) fn updated_checksum(checksum: u16, old: u16, new: u16) -> u16
    ensures { result ≡ updated_checksum checksum old new }
{
    u16::MAX - ones_add(ones_add(u16::MAX - checksum, u16::MAX - old), new)
}
