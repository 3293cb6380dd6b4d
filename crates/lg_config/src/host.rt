//! Names of hosts, and where a seed is: at an address or at a host.
//!
//! Defined in: `specs/Meaning/Hosts.antt`.
//! Tested in: `cases/config_hosts.case`, `lg_command_tests/src/config.rt`.
ghost use Rattle.std.specs.Prelude.{◌≡◌, nat_eq};
ghost use Rattle.std.specs.Cmp.Lexicographic.{pointwise};
ghost use Rattle.std.specs.List.{list_all, list_any};
ghost use Rattle.lg_rules.specs.Meaning.Name.{is_name_byte};
ghost use Rattle.lg_config.specs.Meaning.Hosts.{is_host, is_letter};

use lg_rules::{Addr, is_name_byte};
use lg_timing::is_within;
use std::alloc::AllocError;
use std::marker::Model;
use std::str;

/// The most bytes of the name of a host: 253, the length limit of a name in DNS (RFC 1035, section 2.3.4, without the
/// length bytes).
pub const MAX_HOST: usize = 253;

/// The name of a host: 1 to 253 bytes of `A-Z a-z 0-9 . _ -`, at least one of them a letter, so that a mistyped IPv4
/// address is none. What else it has to be is left to the resolver (this project's choice). A contract sees its bytes.
#[derive(Debug)]
pub struct HostName {
    // The bytes of the name, and then zeros.
    bytes: [u8; MAX_HOST],
    len: u8,
}

impl Model for HostName {
    ghost use Rattle.std.specs.Prelude.{ℕ, List, length, take};
    ghost use Rattle.lg_config.specs.Support.HostRows.{HoldsHost, padded_host, unpadded_host};

    ghost Value = { List ℕ };

    ghost view = { λ h. take h.len h.bytes };

    ghost invariant = { λ h. HoldsHost h.bytes h.len };

    ghost inverse = { λ text. record { bytes = padded_host text; len = length text } };

    ghost inverse_ok = { λ fields holds. unpadded_host fields holds };
}

impl Clone for HostName {
    ghost use Rattle.std.specs.Prelude.{◌≡◌, ⊤};

    ghost is_clone = { λ x y. y ≡ x };

    ghost is_infallible = { λ _. ⊤ };

    fn clone(&self) -> Result<Self, AllocError> {
        Ok(*self)
    }
}

impl Copy for HostName {}

/// The host `a`. It fills those places of arrays of fixed length that hold no seed yet.
impl Default for HostName {
    ghost use Rattle.std.specs.Prelude.{◌≡◌, ◌∷◌, []};

    ghost is_default = { λ h. h ≡ 97 ∷ [] };

    fn default() -> Self {
        HostName::from_good(b"a")
    }
}

impl PartialEq for HostName {
    ghost use Rattle.std.proofs.Common.{rules};
    ghost use Rattle.std.specs.Cmp.Rules.{comparing};

    ghost eq = { pointwise nat_eq };

    ghost laws = { Prim.search (comparing, rules) };

    fn eq(&self, other: &HostName) -> bool {
        self.as_bytes() == other.as_bytes()
    }
}

impl Eq for HostName {
    ghost use Rattle.std.proofs.Common.{rules};
    ghost use Rattle.std.specs.Cmp.Rules.{comparing};

    ghost laws = { Prim.search (comparing, rules) };
}

/// Whether a byte is a letter.
fn is_letter(byte: u8) -> bool
    ensures { result ≡ is_letter byte }
{
    matches!(byte, b'A'..=b'Z' | b'a'..=b'z')
}

/// Whether some byte of a text is a letter.
fn has_letter(text: &[u8]) -> bool
    ensures { result ≡ list_any is_letter text.now }
{
    text.iter().any(|byte| is_letter(*byte))
}

/// Whether each byte of a text may stand in the name of a host.
fn are_host_bytes(text: &[u8]) -> bool
    ensures { result ≡ list_all is_name_byte text.now }
{
    text.iter().all(|byte| is_name_byte(*byte))
}

/// Whether a text is the name of a host.
fn is_host(text: &[u8]) -> bool
    ensures { result ≡ is_host text.now }
{
    is_within(1, MAX_HOST as u64, text.len() as u64) && (are_host_bytes(text) && has_letter(text))
}

impl HostName {
    ghost use Rattle.std.specs.Prelude.{◌≡◌, IsTrue};
    ghost use Rattle.lg_config.specs.Meaning.Hosts.{host_of, is_host};

    /// The host that a text names. None if the text is no name of a host.
    pub fn of(text: &[u8]) -> Option<HostName>
        ensures { result ≡ host_of text.now }
    {
        if is_host(text) {
            Some(HostName::from_good(text))
        } else {
            None
        }
    }

    /// The name of a host, made of bytes that are one.
    fn from_good(text: &[u8]) -> HostName
        requires { IsTrue (is_host text.now) }
        ensures { result ≡ text.now }
    {
        let mut bytes = [0; MAX_HOST];
        bytes[..text.len()].copy_from_slice(text);
        HostName {
            bytes,
            len: text.len() as u8,
        }
    }

    /// The bytes of the name.
    fn as_bytes(&self) -> &[u8]
        ensures bytes { result.now ≡ self.now }
        ensures host { IsTrue (is_host self.now) }
    {
        &self.bytes[..usize::from(self.len)]
    }

    /// The text of the name. No byte of it needs an escape in JSON.
    pub fn as_str(&self) -> &str
        ensures text { result.now ≡ self.now }
        ensures host { IsTrue (is_host self.now) }
    {
        match str::from_utf8(self.as_bytes()) {
            Ok(text) => text,
            Err(_) => unreachable!(),
        }
    }
}

/// A host, and the port at which it is reached.
#[derive(Clone, Copy, Debug, Default, PartialEq, Eq)]
pub struct Host {
    /// The name of the host.
    pub name: HostName,
    /// The port.
    pub port: u16,
}

/// Where a seed is.
#[derive(Clone, Copy, Debug, PartialEq, Eq)]
pub enum Place {
    /// At an address.
    Addr(Addr),
    /// At a host, whose addresses a resolver tells.
    Host(Host),
}

/// The address 0.0.0.0 with the port 0.
impl Default for Place {
    ghost use Rattle.std.specs.Prelude.{◌≡◌, [], ◌∷◌};
    ghost use Rattle.lg_rules.specs.declared.addr.Ip.TheVariants.{V4};
    ghost use Rattle.lg_config.specs.declared.host.Place.TheVariants.{Addr};

    ghost is_default = { λ it. it ≡ Addr (record { ip = V4 (0 ∷ 0 ∷ 0 ∷ 0 ∷ []); port = 0 }) };

    fn default() -> Self {
        Place::Addr(Addr::v4([0; 4], 0))
    }
}
