//! Makes the text that a body tells.
//!
//! Defined in: `specs/Meaning/Told.antt`.
//! Tested in: `lg_client_tests/src/asking.rt`, `lg_client_tests/src/watching.rt`.
ghost use Rattle.std.specs.Prelude.{Some};
ghost use Rattle.serde_json.specs.View.{view};
ghost use Rattle.lg_client.specs.Meaning.Lines.{body_line};
ghost use Rattle.lg_client.specs.Meaning.Told.{changes_told, lines_said, news_as_text, question_told, text_shown};
ghost use Rattle.lg_client.specs.Support.Reading.{IsReadAs, news_shown, told_news_shown, told_shown};

use crate::changes::{News, news_in};
use crate::fault::AskFault;
use crate::health::health_in;
use crate::json::json_in;
use crate::lines::{put_body, put_health, put_news, put_records};
use crate::members::members_in;
use crate::resource::Resource;
use serde_json::Value;
use std::alloc::Global;

/// What an answer tells.
#[derive(Drop)]
pub(crate) struct Told {
    /// The text.
    pub(crate) text: Vec<u8>,
    /// The node says that it was ousted.
    pub(crate) is_ousted: bool,
}

/// What an answer with changes tells.
#[derive(Drop)]
pub(crate) struct ToldNews {
    /// The text.
    pub(crate) text: Vec<u8>,
    /// How many events the node's members are after.
    pub(crate) version: u64,
}

/// The lines of the members that an answer says.
fn members_lines(alloc: Global, answer: &Value) -> Result<Told, AskFault>
    ensures { IsReadAs told_shown (lines_said Resource.Members (view answer.now)) result }
{
    let members = match members_in(alloc, answer) {
        Ok(members) => members,
        Err(fault) => return Err(fault),
    };
    let mut text = Vec::new(alloc);
    match put_records(&members, &mut text) {
        Ok(()) => Ok(Told {
            text,
            is_ousted: false,
        }),
        Err(_) => Err(AskFault::Memory),
    }
}

/// The lines of the health that an answer says.
fn health_lines(alloc: Global, answer: &Value) -> Result<Told, AskFault>
    ensures { IsReadAs told_shown (lines_said Resource.Health (view answer.now)) result }
{
    let Some(health) = health_in(answer) else {
        return Err(AskFault::Bad);
    };
    let mut text = Vec::new(alloc);
    match put_health(&health, &mut text) {
        Ok(()) => Ok(Told {
            text,
            is_ousted: health.ousted,
        }),
        Err(_) => Err(AskFault::Memory),
    }
}

/// The lines that answer a question.
fn lines_of(alloc: Global, resource: Resource, answer: &Value) -> Result<Told, AskFault>
    ensures { IsReadAs told_shown (lines_said resource (view answer.now)) result }
{
    match resource {
        Resource::Members => members_lines(alloc, answer),
        Resource::Health => health_lines(alloc, answer),
    }
}

/// A body as it came, as a line.
fn line_of_body(alloc: Global, body: &[u8]) -> Result<Vec<u8>, AskFault>
    ensures { IsReadAs (λ text. text.items) (Some (body_line body.now)) result }
{
    let mut text = Vec::new(alloc);
    match put_body(body, &mut text) {
        Ok(()) => Ok(text),
        Err(_) => Err(AskFault::Memory),
    }
}

/// The same with the body as it came in place of the lines, if that is wished.
fn shown(alloc: Global, json: bool, body: &[u8], told: Told) -> Result<Told, AskFault>
    ensures { IsReadAs told_shown (Some record {
      text = text_shown json body.now told.text.items;
      ousted = told.is_ousted;
    }) result }
{
    if !json {
        return Ok(told);
    }
    match line_of_body(alloc, body) {
        Ok(text) => Ok(Told {
            text,
            is_ousted: told.is_ousted,
        }),
        Err(fault) => Err(fault),
    }
}

/// What a body tells that answers a question. A body that isn't what is documented is [`AskFault::Bad`].
///
/// Memory is allocated for the value, what is read of it, and the text.
#[tactic(auto, unfolding(crate::specs::Meaning::Told::question_told))]
pub(crate) fn told_in(
    alloc: Global,
    resource: Resource,
    json: bool,
    body: &[u8],
) -> Result<Told, AskFault>
    ensures { IsReadAs told_shown (question_told resource json body.now) result }
{
    let value = match json_in(alloc, body) {
        Ok(value) => value,
        Err(fault) => return Err(fault),
    };
    match lines_of(alloc, resource, &value) {
        Ok(told) => shown(alloc, json, body, told),
        Err(fault) => Err(fault),
    }
}

/// The text of what an answer says of changes.
fn news_lines(
    alloc: Global,
    json: bool,
    is_first: bool,
    body: &[u8],
    news: &News,
) -> Result<Vec<u8>, AskFault>
    ensures { IsReadAs (λ text. text.items) (Some (news_as_text json is_first body.now (news_shown news.now))) result }
{
    let mut text = Vec::new(alloc);
    if json && news.changes.is_empty() {
        return Ok(text);
    }
    if json {
        return line_of_body(alloc, body);
    }
    match put_news(is_first, news, &mut text) {
        Ok(()) => Ok(text),
        Err(_) => Err(AskFault::Memory),
    }
}

/// What a body with changes tells, and whether it is the first says whether `missed` is told. A body that isn't what is
/// documented is [`AskFault::Bad`].
///
/// Memory is allocated for the value, what is read of it, and the text.
#[tactic(auto, unfolding(crate::specs::Meaning::Told::changes_told))]
pub(crate) fn news_told_in(
    alloc: Global,
    json: bool,
    is_first: bool,
    body: &[u8],
) -> Result<ToldNews, AskFault>
    ensures { IsReadAs told_news_shown (changes_told json is_first body.now) result }
{
    let value = match json_in(alloc, body) {
        Ok(value) => value,
        Err(fault) => return Err(fault),
    };
    let news = match news_in(alloc, &value) {
        Ok(news) => news,
        Err(fault) => return Err(fault),
    };
    match news_lines(alloc, json, is_first, body, &news) {
        Ok(text) => Ok(ToldNews {
            text,
            version: news.version,
        }),
        Err(fault) => Err(fault),
    }
}
