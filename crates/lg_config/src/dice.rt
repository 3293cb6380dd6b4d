//! The number that the dice of a node start from if its file doesn't say it.
//!
//! Defined in: `specs/Meaning/Dice.antt`.
//! Tested in: `lg_command_tests/src/config.rt`, `cases/check.case`.
ghost use Rattle.std.specs.Prelude.{◌≡◌};
ghost use Rattle.sha2.specs.Sha256.{sha256};
ghost use Rattle.lg_config.specs.Meaning.Dice.{ip_bytes, own_bytes, own_dice};

use lg_rules::{Addr, Ip, Name};
use sha2::{Digest, Sha256};

/// The greatest number that the dice start from: 9,223,372,036,854,775,807, the greatest whole number of TOML (this
/// project's choice).
pub(crate) const MAX_DICE: u64 = i64::MAX as u64;

/// The bytes of an IP address, 4 or 16.
fn ip_bytes(ip: &Ip) -> &[u8]
    ensures { result.now ≡ ip_bytes ip.now }
{
    match ip {
        Ip::V4(octets) => octets.as_slice(),
        Ip::V6(octets) => octets.as_slice(),
    }
}

/// The SHA-256 of the name, a zero, the bytes of the address, and the two of the port.
fn digest_of(name: &Name, addr: &Addr) -> [u8; 32]
    ensures { result ≡ sha256 (own_bytes name.now addr.now) }
{
    let mut hasher = Sha256::new();
    hasher.update(name.as_bytes());
    hasher.update([0]);
    hasher.update(ip_bytes(&addr.ip));
    hasher.update(addr.port.to_be_bytes());
    hasher.finalize()
}

/// The number that the dice of a member start from if its file doesn't say it: the first eight bytes of the SHA-256 of
/// its name and its address, without the highest bit (this project's choice). Members with different names or addresses
/// have different ones, but for a chance of one in 2^63.
#[tactic(auto, unfolding(crate::specs::Meaning::Dice::own_dice))]
pub fn own_dice(name: &Name, addr: &Addr) -> u64
    ensures { result ≡ own_dice name.now addr.now }
{
    let digest = digest_of(name, addr);
    u64::from_be_bytes(digest.as_chunks::<8>().0[0]) % (MAX_DICE + 1)
}
