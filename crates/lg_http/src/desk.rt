//! The site as a service of `http_server`.
//!
//! Defined in: `specs/Meaning/Answers.antt`.
//! Tested in: `lg_http_tests/src/serving.rt`.
ghost use Rattle.std.specs.Prelude.{◌≡◌, ◌++◌, [], ◌∷◌, ◌↔◌, ◌||◌, OnOk, IfOk, IsTrue, codes, is_some};
ghost use Rattle.std.specs.Prelude.{option_map, option_copied};
ghost use Rattle.http.specs.Request.{head_of};
ghost use Rattle.http_header.specs.HeaderMap.{get};
ghost use Rattle.http_uri.specs.Uri.{uri_path, uri_query};
ghost use Rattle.http_server.specs.Response.{IsBlank, IsResponse, fields_of};
ghost use Rattle.lg_http.specs.declared.site.Kind.TheVariants.{Json};
ghost use Rattle.lg_http.specs.Meaning.Answers.{RepliesAmong, IsTooMany, MayWait, IsServedMethod, closing};
ghost use Rattle.lg_http.specs.Meaning.Answers.{status_number, content_type, kind_words, field_of, has_body};
ghost use Rattle.lg_http.specs.Meaning.Answers.{would_wait, method_body, crowded_body, misdirected_body};
ghost use Rattle.lg_http.specs.Meaning.Answers.{allowed, answer_fields, post_allowed, retry};
ghost use Rattle.lg_http.specs.Meaning.Asked.{asked_from};
ghost use Rattle.lg_http.specs.Meaning.Hosts.{AnswersTo};

use crate::asked::OtherRequest;
use crate::hosts::Hosts;
use crate::site::{HttpAnswer, HttpStatus, Kind, Site, Wait};
use crate::slots::MAX_PARKED;
use bytes::{BufMut, Bytes};
use http::{HeaderName, HeaderValue, Request, StatusCode, Uri, header};
use http_server::{Response, Service};
use std::alloc::{AllocError, Global};

/// Answers the requests of all connections from one site: each as the site says, and a method that is neither GET nor
/// HEAD with 405 and `allow` if the site has no answer to it. A long poll too many gets 503 and `retry-after`, and a
/// request for another host 421. Each error has a JSON body.
#[derive(Drop)]
pub struct Desk<S> {
    alloc: Global,
    pub(crate) site: S,
    pub(crate) hosts: Hosts,
    /// The version of what the site shows.
    pub(crate) version: u64,
    /// How many long polls of other connections wait.
    pub(crate) others: usize,
    /// Whether the client that asks is on loopback.
    pub(crate) is_loopback: bool,
}

impl<S: Site> Desk<S> {
    /// A desk over a site, which answers to these hosts.
    pub fn new(alloc: Global, site: S, hosts: Hosts) -> Desk<S>
        ensures site { result.site ≡ site }
        ensures hosts { result.hosts ≡ hosts }
    {
        Desk {
            alloc,
            site,
            hosts,
            version: 0,
            others: 0,
            is_loopback: false,
        }
    }

    /// Ends the desk, and gives its site.
    pub fn finish(self) -> S
        ensures { result ≡ self.site }
    {
        let Desk { site, .. } = self;
        site
    }
}

/// The code as `http` has it.
fn status_code(status: HttpStatus) -> StatusCode
    ensures { result ≡ status_number status }
{
    match status {
        HttpStatus::Fine => StatusCode::OK,
        HttpStatus::BadRequest => StatusCode::BAD_REQUEST,
        HttpStatus::Forbidden => StatusCode::FORBIDDEN,
        HttpStatus::NotFound => StatusCode::NOT_FOUND,
        HttpStatus::PostOnly => StatusCode::METHOD_NOT_ALLOWED,
        HttpStatus::Unavailable => StatusCode::SERVICE_UNAVAILABLE,
    }
}

/// The value of `content-type` as `http` has it.
fn kind_value(kind: Kind) -> HeaderValue
    ensures { result.bytes ≡ kind_words kind }
{
    match kind {
        Kind::Json => HeaderValue::from_static("application/json"),
        Kind::Html => HeaderValue::from_static("text/html; charset=utf-8"),
        Kind::Metrics => HeaderValue::from_static("text/plain; version=0.0.4; charset=utf-8"),
    }
}

/// Says which media type the body has.
fn put_kind(kind: Kind, response: &mut Response) -> Result<(), AllocError>
    ensures headers { OnOk result (fields_of response.new ≡ fields_of response.old ++ content_type kind ∷ []) }
    ensures status { response.new.status ≡ response.old.status }
    ensures body { response.new.body ≡ response.old.body }
{
    response.add_header(header::CONTENT_TYPE, kind_value(kind))
}

/// Says that the connection is closed behind this answer, if it is.
fn put_close(is_last: bool, response: &mut Response) -> Result<(), AllocError>
    ensures headers { OnOk result (fields_of response.new ≡ fields_of response.old ++ closing is_last) }
    ensures status { response.new.status ≡ response.old.status }
    ensures body { response.new.body ≡ response.old.body }
{
    if is_last {
        response.add_header(header::CONNECTION, HeaderValue::from_static("close"))
    } else {
        Ok(())
    }
}

/// Says that POST alone is served.
fn put_post(response: &mut Response) -> Result<(), AllocError>
    ensures headers { OnOk result (fields_of response.new ≡ fields_of response.old ++ post_allowed ∷ []) }
    ensures status { response.new.status ≡ response.old.status }
    ensures body { response.new.body ≡ response.old.body }
{
    response.add_header(header::ALLOW, HeaderValue::from_static("POST"))
}

/// Says what the head of a site's answer says of it.
fn put_fields(status: HttpStatus, kind: Kind, response: &mut Response) -> Result<(), AllocError>
    ensures headers { OnOk result
        (fields_of response.new ≡ fields_of response.old ++ answer_fields status kind) }
    ensures status { response.new.status ≡ response.old.status }
    ensures body { response.new.body ≡ response.old.body }
{
    match status {
        HttpStatus::PostOnly => {
            put_post(response)?;
            put_kind(kind, response)
        }
        HttpStatus::Fine
        | HttpStatus::BadRequest
        | HttpStatus::Forbidden
        | HttpStatus::NotFound
        | HttpStatus::Unavailable => put_kind(kind, response),
    }
}

/// Fills in what the site answers.
fn put_answer(answer: HttpAnswer, response: &mut Response) -> Result<(), AllocError>
    requires { response.old.body.items ≡ [] }
    ensures status { response.new.status ≡ status_number answer.status }
    ensures headers { OnOk result
        (fields_of response.new ≡ fields_of response.old ++ answer_fields answer.status answer.kind) }
    ensures body { OnOk result (response.new.body.items ≡ answer.body.items) }
{
    let HttpAnswer { status, kind, body } = answer;
    response.status = status_code(status);
    put_fields(status, kind, response)?;
    response.body.push(Bytes::from_vec(body)?)
}

/// The methods that each site answers to.
fn allow_value() -> HeaderValue
    ensures { result.bytes ≡ codes "GET, HEAD" }
{
    HeaderValue::from_static("GET, HEAD")
}

/// Says which methods each site answers to.
fn put_allow(response: &mut Response) -> Result<(), AllocError>
    ensures headers { OnOk result (fields_of response.new ≡ fields_of response.old ++ allowed ∷ []) }
    ensures status { response.new.status ≡ response.old.status }
    ensures body { response.new.body ≡ response.old.body }
{
    response.add_header(header::ALLOW, allow_value())
}

/// Turns a method away that is neither GET nor HEAD.
fn put_other(response: &mut Response) -> Result<(), AllocError>
    requires { response.old.body.items ≡ [] }
    ensures status { response.new.status ≡ 405 }
    ensures headers { OnOk result
        (fields_of response.new ≡ fields_of response.old ++ allowed ∷ content_type Json ∷ []) }
    ensures body { OnOk result (response.new.body.items ≡ method_body) }
{
    response.status = StatusCode::METHOD_NOT_ALLOWED;
    put_allow(response)?;
    put_kind(Kind::Json, response)?;
    response
        .body
        .put_slice(b"{\"error\":\"method not allowed\"}")
}

/// Turns a request away whose host isn't this server's (RFC 9110, section 15.5.20).
fn put_misdirected(response: &mut Response) -> Result<(), AllocError>
    requires { response.old.body.items ≡ [] }
    ensures status { response.new.status ≡ 421 }
    ensures headers { OnOk result (fields_of response.new ≡ fields_of response.old ++ content_type Json ∷ []) }
    ensures body { OnOk result (response.new.body.items ≡ misdirected_body) }
{
    response.status = StatusCode::MISDIRECTED_REQUEST;
    put_kind(Kind::Json, response)?;
    response
        .body
        .put_slice(b"{\"error\":\"misdirected request\"}")
}

/// Turns a long poll away, since too many wait.
fn put_crowded(response: &mut Response) -> Result<(), AllocError>
    requires { response.old.body.items ≡ [] }
    ensures status { response.new.status ≡ 503 }
    ensures headers { OnOk result
        (fields_of response.new ≡ fields_of response.old ++ retry ∷ content_type Json ∷ []) }
    ensures body { OnOk result (response.new.body.items ≡ crowded_body) }
{
    response.status = StatusCode::SERVICE_UNAVAILABLE;
    response.add_header(header::RETRY_AFTER, HeaderValue::from_static("1"))?;
    put_kind(Kind::Json, response)?;
    response
        .body
        .put_slice(b"{\"error\":\"too many requests wait\"}")
}

/// The bytes of a text, if there is one.
fn bytes_of(text: Option<&str>) -> Option<&[u8]>
    ensures { option_map (λ b. b.now) result ≡ option_copied text.entry }
{
    match text {
        Some(text) => Some(text.as_bytes()),
        None => None,
    }
}

/// Whether a method is GET or HEAD.
fn is_served(method: &str) -> bool
    ensures { IsTrue result ↔ IsServedMethod method.now }
{
    method == "GET" || method == "HEAD"
}

/// What a site answers to a target.
fn site_answer<S: Site>(site: &S, alloc: Global, uri: &Uri) -> Result<HttpAnswer, AllocError>
    ensures { IfOk result (λ a. S.answers site.now (uri_path uri.now) (uri_query uri.now) a) }
{
    let path = uri.path().as_bytes();
    let query = bytes_of(uri.query());
    site.answer(alloc, path, query)
}

/// What a site answers to a request whose method is neither GET nor HEAD.
#[tactic(auto, using(crate::proofs::ReplyLaws::asked_same))]
fn site_act<S: Site>(
    site: &S,
    alloc: Global,
    request: &Request<Bytes>,
    is_loopback: bool,
) -> Result<Option<HttpAnswer>, AllocError>
    ensures { IfOk result (λ a. S.acts site.now (asked_from is_loopback request.now) a) }
{
    let asked = OtherRequest {
        method: request.method().as_str(),
        path: request.uri().path().as_bytes(),
        is_loopback,
        headers: request.headers(),
    };
    site.act(alloc, &asked)
}

/// What a site says that a GET of a target waits for.
fn site_wait<S: Site>(site: &S, uri: &Uri) -> Option<Wait>
    ensures { S.waits (uri_path uri.now) (uri_query uri.now) result }
{
    let path = uri.path().as_bytes();
    let query = bytes_of(uri.query());
    site.wait_of(path, query)
}

/// Whether a request has a field of this name.
fn has_field(request: &Request<Bytes>, name: HeaderName) -> bool
    ensures { result ≡ is_some (field_of name request.now) }
{
    request.headers().get(name).is_some()
}

/// Whether a body follows the request's head.
fn has_body(request: &Request<Bytes>) -> bool
    ensures { result ≡ has_body request.now }
{
    has_field(request, header::CONTENT_LENGTH) || has_field(request, header::TRANSFER_ENCODING)
}

/// Whether the connection is closed behind the answer to a request.
fn is_last(is_full: bool, request: &Request<Bytes>) -> bool
    ensures { result ≡ (is_full || has_body request.now) }
{
    is_full || has_body(request)
}

/// Whether a server answers a request, by the host that it names.
fn is_answered(hosts: Hosts, request: &Request<Bytes>) -> bool
    ensures { IsTrue result ↔ AnswersTo hosts (field_of (codes "host") request.now) }
{
    hosts.answer_to(request.headers().get(header::HOST))
}

/// Whether a request is a GET without a body: no other one waits.
fn may_wait(request: &Request<Bytes>) -> bool
    ensures { IsTrue result ↔ MayWait request.now }
{
    request.method().as_str() == "GET" && !has_body(request)
}

/// Whether a request is a long poll too many.
fn is_too_many<S: Site>(desk: &Desk<S>, request: &Request<Bytes>) -> bool
    ensures { IsTooMany S.waits desk.now.version desk.now.others request.now result }
{
    if desk.others < MAX_PARKED || !may_wait(request) {
        return false;
    }
    match site_wait(&desk.site, request.uri()) {
        Some(wait) => wait.lasts_at(desk.version),
        None => false,
    }
}

impl<S: Site> Service for Desk<S> {
    // Whether a long poll is one too many goes by the version that the desk has been told. In a server it is that of
    // the site.
    ghost answers = { λ old request response new.
        (new ≡ old) × RepliesAmong S.answers S.acts (λ _. old.version) S.waits old.hosts old.others old.is_loopback
        old.site (request, response) };

    fn call(
        &mut self,
        request: &Request<Bytes>,
        response: &mut Response,
    ) -> Result<(), AllocError> {
        let is_full = is_too_many(self, request);
        put_close(is_last(is_full, request), response)?;
        if !is_answered(self.hosts, request) {
            return put_misdirected(response);
        }
        if !is_served(request.method().as_str()) {
            return match site_act(&self.site, self.alloc, request, self.is_loopback)? {
                Some(answer) => put_answer(answer, response),
                None => put_other(response),
            };
        }
        if is_full {
            return put_crowded(response);
        }
        let answer = site_answer(&self.site, self.alloc, request.uri())?;
        put_answer(answer, response)
    }
}
