//! What a site is given of a request whose method is neither GET nor HEAD.
//!
//! Defined in: `specs/Meaning/Asked.antt`.
//! Tested in: `lg_http_tests/src/acting.rt`.
ghost use Rattle.std.specs.Prelude.{◌≡◌, IsTrue, option_map};
ghost use Rattle.http_header.specs.FieldName.{is_header_name};
ghost use Rattle.lg_http.specs.Meaning.Asked.{asked_value};

use http::{HeaderMap, HeaderName};

/// A request whose method is neither GET nor HEAD. Its body isn't shown.
#[derive(Clone, Copy)]
pub struct OtherRequest<'r> {
    /// The method, such as `POST`. Its case counts.
    pub method: &'r str,
    /// The path as the client sent it: percent-encoding isn't undone.
    pub path: &'r [u8],
    /// Whether the client's address is loopback: in 127.0.0.0/8 or ::1.
    pub is_loopback: bool,
    pub(crate) headers: &'r HeaderMap,
}

impl OtherRequest<'_> {
    /// The first value of the header field with this name, which is in lower case. None if there is no such field.
    pub fn field(&self, name: &'static str) -> Option<&[u8]>
        requires { IsTrue (is_header_name name.now) }
        ensures { option_map (λ value. value.now) result ≡ (asked_value self.now).field name.now }
    {
        match self.headers.get(HeaderName::from_static(name)) {
            Some(value) => Some(value.as_bytes()),
            None => None,
        }
    }
}
