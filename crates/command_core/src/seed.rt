//! The seed of the choice of flows, read from hexadecimal digits.
ghost use Rattle.std.specs.Prelude.{◌≡◌, option_map};
ghost use Rattle.command_core.specs.Seeds.{seed_of};

use hex::FromHex;
use packet_core::Seed;

/// The seed of flows where none is given.
pub const ZERO_SEED: Seed = Seed([0; 16]);

/// Reads a seed from 32 hexadecimal digits of either case. Two digits make a byte, the first of them the high one.
pub fn read_seed(text: &str) -> Option<Seed>
    ensures { option_map (λ seed. seed.0) result ≡ seed_of text.now }
{
    let bytes = <[u8; 16] as FromHex>::from_hex(text).ok()?;
    Some(Seed(bytes))
}
