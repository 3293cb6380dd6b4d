//! The hosts that a server answers to.
//!
//! Defined in: `specs/Meaning/Hosts.antt`.
//! Tested in: `lg_http_tests/src/hosts.rt`.
ghost use Rattle.std.specs.Prelude.{◌≡◌, ◌↔◌, IsTrue, option_copied};
ghost use Rattle.http_server.specs.Host.{is_bracketed};
ghost use Rattle.lg_http.specs.Meaning.Hosts.{IsLocal, AnswersTo};

use http::HeaderValue;
use lg_text::{cut_at, octets_in};

/// The hosts that a server answers to, as the field `Host` of a request names them.
#[derive(Clone, Copy, Debug, PartialEq, Eq)]
pub enum Hosts {
    /// Any host.
    Any,
    /// Addresses and `localhost` alone: four numbers as in `127.0.0.1`, an IPv6 address in brackets, or `localhost` in
    /// any case, each with or without a port. Another request, or one without `Host`, gets 421. A page in a browser may
    /// have its own name lead to this machine, and could then read the answers: its requests have that name.
    Local,
}

/// Whether the value begins with a bracket.
fn is_bracketed(host: &[u8]) -> bool
    ensures { result ≡ is_bracketed host.now }
{
    !host.is_empty() && host[0] == b'['
}

/// Whether a value of `Host` is an address or `localhost`.
fn is_local(host: &[u8]) -> bool
    ensures { IsTrue result ↔ IsLocal host.now }
{
    let (name, _port) = cut_at(host, b':');
    is_bracketed(host) || octets_in(name).is_some() || name.eq_ignore_ascii_case(b"localhost")
}

impl Hosts {
    /// Whether a request with this `Host` is answered.
    pub(crate) fn answer_to(self, host: Option<&HeaderValue>) -> bool
        ensures { IsTrue result ↔ AnswersTo self (option_copied host.entry) }
    {
        match (self, host) {
            (Hosts::Any, _) => true,
            (Hosts::Local, Some(value)) => is_local(value.as_bytes()),
            (Hosts::Local, None) => false,
        }
    }
}
