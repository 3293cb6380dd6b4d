//! Which route a request has.
//!
//! Defined in: `specs/Meaning/Routes.antt`, `specs/Meaning/Places.antt`, `specs/Meaning/Queries.antt`.
//! Tested in: `lg_answers_tests/src/route.rt`.
ghost use Rattle.std.specs.Prelude.{◌≡◌};
ghost use Rattle.std.specs.Option.{option_map};
ghost use Rattle.lg_answers.specs.Meaning.Routes.{changes_route, explain_route, has_kind_query, is_kind_of, kind_query};
ghost use Rattle.lg_answers.specs.Meaning.Routes.{member_route, members_route, path_route, place_route, plain_route};
ghost use Rattle.lg_answers.specs.Meaning.Routes.{route_of, targets_route, wait_of};

use crate::place::{Place, explained_name, member_name};
use crate::query::{changes_asked, port_asked};
use crate::reason::RouteFault;
use lg_http::Wait;
use lg_rules::{Name, Status};

/// A status without its accuser.
#[derive(Clone, Copy, Debug, PartialEq, Eq)]
pub enum StatusKind {
    /// Alive.
    Alive,
    /// Suspect.
    Suspect,
    /// Failed.
    Failed,
    /// Left.
    Left,
}

/// All of them.
pub(crate) const STATUS_KINDS: [StatusKind; 4] = [
    StatusKind::Alive,
    StatusKind::Suspect,
    StatusKind::Failed,
    StatusKind::Left,
];

/// What is asked for.
#[derive(Clone, Copy, Debug, PartialEq, Eq)]
pub enum Route {
    /// The page that a person reads, `/`.
    Page,
    /// The members, `/v1/members`: all, or those of one status.
    Members(Option<StatusKind>),
    /// The member with a name, `/v1/members/NAME`.
    Member(Name),
    /// The health, `/v1/health`.
    Health,
    /// The changes behind a version, `/v1/changes`, and how long to wait if there are none.
    Changes(Wait),
    /// The configuration, `/v1/config`.
    Config,
    /// The metrics, `/metrics`.
    Metrics,
    /// The members that are alive as targets of Prometheus, `/v1/prometheus`: at this port, or at that of the node's
    /// own status server.
    Targets(Option<u16>),
    /// What the recording tells of the member with a name, `/v1/explain/NAME`.
    Explain(Name),
}

impl StatusKind {
    /// The query that asks for the members of this status.
    fn query(self) -> &'static str
        ensures { result.now ≡ kind_query self }
    {
        match self {
            StatusKind::Alive => "status=alive",
            StatusKind::Suspect => "status=suspect",
            StatusKind::Failed => "status=failed",
            StatusKind::Left => "status=left",
        }
    }

    /// Whether a query is that of this status.
    fn has_query(self, query: &[u8]) -> bool
        ensures { result ≡ has_kind_query query.now self }
    {
        query == self.query().as_bytes()
    }

    /// Whether a status is this one.
    pub(crate) fn is_of(self, status: &Status) -> bool
        ensures { result ≡ is_kind_of self status.now }
    {
        match self {
            StatusKind::Alive => matches!(status, Status::Alive),
            StatusKind::Suspect => matches!(status, Status::Suspect(_)),
            StatusKind::Failed => matches!(status, Status::Failed),
            StatusKind::Left => matches!(status, Status::Left),
        }
    }
}

/// The route of a path that takes no query.
fn plain_route(route: Route, query: &[u8]) -> Result<Route, RouteFault>
    ensures { result ≡ plain_route route query.now }
{
    if query.is_empty() {
        Ok(route)
    } else {
        Err(RouteFault::NoQuery)
    }
}

/// The route of the members, or of those of one status.
fn members_route(query: &[u8]) -> Result<Route, RouteFault>
    ensures { result ≡ members_route query.now }
{
    if query.is_empty() {
        return Ok(Route::Members(None));
    }
    match STATUS_KINDS
        .iter()
        .copied()
        .find(|kind| kind.has_query(query))
    {
        Some(kind) => Ok(Route::Members(Some(kind))),
        None => Err(RouteFault::BadStatus),
    }
}

/// The route of the member whose name these bytes are.
fn member_route(name: &[u8], query: &[u8]) -> Result<Route, RouteFault>
    ensures { result ≡ member_route name.now query.now }
{
    match Name::new(name) {
        Ok(name) => plain_route(Route::Member(name), query),
        Err(_) => Err(RouteFault::NoName),
    }
}

/// The route of what the recording tells of the member whose name these bytes are.
fn explain_route(name: &[u8], query: &[u8]) -> Result<Route, RouteFault>
    ensures { result ≡ explain_route name.now query.now }
{
    match Name::new(name) {
        Ok(name) => plain_route(Route::Explain(name), query),
        Err(_) => Err(RouteFault::NoName),
    }
}

/// The route of the changes that a query asks for.
fn changes_route(query: &[u8]) -> Result<Route, RouteFault>
    ensures { result ≡ changes_route query.now }
{
    match changes_asked(query) {
        Some(wait) => Ok(Route::Changes(wait)),
        None => Err(RouteFault::BadChanges),
    }
}

/// The route of the targets, at the port that a query asks for.
fn targets_route(query: &[u8]) -> Result<Route, RouteFault>
    ensures { result ≡ targets_route query.now }
{
    if query.is_empty() {
        return Ok(Route::Targets(None));
    }
    match port_asked(query) {
        Some(port) => Ok(Route::Targets(Some(port))),
        None => Err(RouteFault::BadPort),
    }
}

/// The route of a place with a query.
fn place_route(place: Place, query: &[u8]) -> Result<Route, RouteFault>
    ensures { result ≡ place_route place query.now }
{
    match place {
        Place::Page => plain_route(Route::Page, query),
        Place::Members => members_route(query),
        Place::Health => plain_route(Route::Health, query),
        Place::Changes => changes_route(query),
        Place::Config => plain_route(Route::Config, query),
        Place::Metrics => plain_route(Route::Metrics, query),
        Place::Targets => targets_route(query),
        Place::Leave => Err(RouteFault::PostOnly),
    }
}

/// The route of a path with a query.
fn path_route(path: &[u8], query: &[u8]) -> Result<Route, RouteFault>
    ensures { result ≡ path_route path.now query.now }
{
    if let Some(name) = member_name(path) {
        return member_route(name, query);
    }
    if let Some(name) = explained_name(path) {
        return explain_route(name, query);
    }
    match Place::at(path) {
        Some(place) => place_route(place, query),
        None => Err(RouteFault::UnknownPath),
    }
}

/// Which route a request has, or why it has none, by the two parts of its target: the path, and the query behind the
/// first `?` if there is one (RFC 9112, section 3.2.1, origin form). An empty query is as none.
///
/// | Path | Query |
/// |---|---|
/// | `/`, `/v1/health`, `/v1/config`, `/metrics` | none |
/// | `/v1/members` | none, or `status=alive`, `status=suspect`, `status=failed` or `status=left` |
/// | `/v1/members/NAME`, `/v1/explain/NAME` | none; NAME is a name of 1 to 32 bytes of `A-Z a-z 0-9 . _ -` |
/// | `/v1/changes` | none, or `after=V` and `wait_ms=W`, each at most once and in any order, with an `&` between them |
/// | `/v1/prometheus` | none, or `port=P`, P a number of 1 to 65535 |
///
/// No byte of these needs percent-encoding, and none is decoded: a `%` stands in no path, name or number. Paths and
/// names differ if their cases do. The error is [`RouteFault::PostOnly`] if the path is `/v1/leave`, which takes POST
/// alone, and [`RouteFault::UnknownPath`] exactly if it is neither that nor one of these.
#[tactic(auto, unfolding(crate::specs::Meaning::Routes::route_of))]
pub fn route_of(path: &[u8], query: Option<&[u8]>) -> Result<Route, RouteFault>
    ensures { result ≡ route_of path.now (option_map (λ bytes. bytes.now) query.entry) }
{
    path_route(path, query.unwrap_or(&[]))
}

/// What a request for a path and a query waits for, if it waits: that of `/v1/changes` waits for a change behind its
/// version. None for any other request, and for one that has no route.
pub fn wait_of(path: &[u8], query: Option<&[u8]>) -> Option<Wait>
    ensures { result ≡ wait_of path.now (option_map (λ bytes. bytes.now) query.entry) }
{
    match route_of(path, query) {
        Ok(Route::Changes(wait)) => Some(wait),
        _ => None,
    }
}
