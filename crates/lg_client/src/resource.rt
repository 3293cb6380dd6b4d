//! What a node is asked, and the bytes of the request.
//!
//! Defined in: `specs/Meaning/Questions.antt`.
//! Tested in: `lg_client_tests/src/asking.rt`, `lg_client_tests/src/leaving.rt`.
ghost use Rattle.std.specs.Prelude.{◌≡◌, IfOk, string_bytes};
ghost use Rattle.lg_client.specs.Meaning.Questions.{changes_target, codes_of, leave_text, request_text, target_of};

use crate::lines::put;
use lg_rules::Name;
use std::alloc::{AllocError, Global};

/// What a node is asked once.
#[derive(Clone, Copy, Debug, PartialEq, Eq)]
pub enum Resource {
    /// Its members.
    Members,
    /// Its health.
    Health,
}

/// A question to a node, and how its answer is told.
#[derive(Clone, Copy, Debug)]
pub struct NodeQuestion<'a> {
    /// The text of the address at which the node answers: A.B.C.D:PORT, or an IPv6 address in brackets before :PORT. It
    /// may spell no address.
    pub at: &'a str,
    /// What the node is asked.
    pub resource: Resource,
    /// Whether the body of the answer is told as it came, in place of lines.
    pub json: bool,
}

impl Resource {
    /// The target of the request.
    pub(crate) fn target(self) -> &'static str
        ensures { result.now ≡ target_of self }
    {
        match self {
            Resource::Members => "/v1/members",
            Resource::Health => "/v1/health",
        }
    }

    /// The status codes that the answer may have. A node that was ousted says so with 503.
    pub(crate) fn codes(self) -> &'static [u16]
        ensures { result.now ≡ codes_of self }
    {
        match self {
            Resource::Members => &[200],
            Resource::Health => &[200, 503],
        }
    }
}

/// The target that asks for the changes behind a version. The node waits 30,000 milliseconds for one at most.
pub(crate) fn changes_target(alloc: Global, after: u64) -> Result<String, AllocError>
    ensures { IfOk result (λ target. string_bytes target ≡ changes_target after) }
{
    format!(in alloc; "/v1/changes?after={after}&wait_ms=30000")
}

/// The bytes of a request for a target, to the server at an address (RFC 9112, sections 3 and 9.6). The text of the
/// address is the field `Host` (RFC 9110, section 7.2).
#[tactic(auto, unfolding(crate::specs::Meaning::Questions::request_text))]
pub(crate) fn request_text(alloc: Global, target: &str, at: &str) -> Result<String, AllocError>
    ensures { IfOk result (λ request. string_bytes request ≡ request_text target.now at.now) }
{
    format!(in alloc; "GET {target} HTTP/1.1\r\nhost: {at}\r\nconnection: close\r\n\r\n")
}

/// The bytes of the request that asks the node with this name to leave, to the server at an address (RFC 9112,
/// sections 3, 6.3 and 9.6).
#[tactic(auto, unfolding(crate::specs::Meaning::Questions::leave_text))]
pub(crate) fn leave_text(alloc: Global, name: &Name, at: &str) -> Result<Vec<u8>, AllocError>
    ensures { IfOk result (λ request. request.items ≡ leave_text name.now at.now) }
{
    let mut request = Vec::new(alloc);
    put(b"POST /v1/leave HTTP/1.1\r\nhost: ", &mut request)?;
    put(at.as_bytes(), &mut request)?;
    put(b"\r\nlg-leave: ", &mut request)?;
    put(name.as_bytes(), &mut request)?;
    put(b"\r\nconnection: close\r\n\r\n", &mut request)?;
    Ok(request)
}
