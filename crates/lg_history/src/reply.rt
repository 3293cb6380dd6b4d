//! Replies, in as much memory as they need.
//!
//! Defined in: `lg_detector/specs/Meaning/Choice.antt`, `specs/Support/Stored.antt`.
//! Tested in: `lg_agent_tests/src/history/entries.rt`.
ghost use Rattle.std.specs.Prelude.{◌≡◌, ◌≤◌, length, option_copied, option_map, IfOk};
ghost use Rattle.lg_detector.specs.declared.reply.TheConstants.{MAX_SENDS};
ghost use Rattle.lg_detector.specs.Meaning.Choice.{choice_of_reply, first_body};
ghost use Rattle.lg_history.specs.Support.Stored.{reply_in, told_but_forgotten};

use crate::packet::StoredOutgoing;
use lg_detector::{Answer, MAX_SENDS, NoMemory, Outgoing, Reply, Sends, Timer, choice_by};
use lg_packet::Body;
use lg_rules::{Name, Record};
use std::alloc::Global;
use std::marker::Model;

/// A reply that forgot nobody, whose packets and records are in lists of exactly their number. A contract sees it as
/// the reply.
#[derive(Drop)]
pub(crate) struct ExactReply {
    fired: Option<Box<Timer>>,
    sends: Vec<StoredOutgoing>,
    changed: Vec<Record>,
    answer: Option<Box<Answer>>,
    ousted: bool,
    next: u64,
}

impl Model for ExactReply {
    ghost use Rattle.std.specs.Prelude.{◌≤◌, [], length, option_map};
    ghost use Rattle.lg_detector.specs.declared.reply.Reply.{Reply};
    ghost use Rattle.lg_detector.specs.declared.reply.TheConstants.{MAX_SENDS, MAX_CHANGED};

    ghost Value = { Reply };

    ghost view = { λ r. record {
      fired = option_map (λ it. it.value) r.fired;
      sends = record { items = r.sends.items };
      changed = record { items = r.changed.items };
      forgotten = record { items = [] };
      answer = option_map (λ it. it.value) r.answer;
      ousted = r.ousted;
      next = r.next;
    } };

    ghost invariant = { λ r. (length r.sends.items ≤ MAX_SENDS) × (length r.changed.items ≤ MAX_CHANGED) };
}

/// Stores a timer, if there is one.
fn store_timer(alloc: Global, timer: &Option<Timer>) -> Result<Option<Box<Timer>>, NoMemory>
    ensures { IfOk result (λ stored. option_map (λ it. it.value) stored ≡ timer.now) }
{
    match timer {
        Some(it) => Ok(Some(Box::new(alloc, *it)?)),
        None => Ok(None),
    }
}

/// The timer, if there is one.
fn timer_in(stored: &Option<Box<Timer>>) -> Option<Timer>
    ensures { result ≡ option_map (λ it. it.value) stored.now }
{
    match stored {
        Some(it) => Some(**it),
        None => None,
    }
}

/// The body of the first of some packets, if there are any.
fn first_body(sends: &[StoredOutgoing]) -> Option<&Body>
    ensures { option_copied result ≡ first_body sends.now }
{
    Some(sends.first()?.body())
}

/// Stores an answer, if there is one.
fn store_answer(alloc: Global, answer: &Option<Answer>) -> Result<Option<Box<Answer>>, NoMemory>
    ensures { IfOk result (λ stored. option_map (λ it. it.value) stored ≡ answer.now) }
{
    match answer {
        Some(it) => Ok(Some(Box::new(alloc, *it)?)),
        None => Ok(None),
    }
}

/// The answer, if there is one.
fn answer_in(stored: &Option<Box<Answer>>) -> Option<Answer>
    ensures { result ≡ option_map (λ it. it.value) stored.now }
{
    match stored {
        Some(it) => Some(**it),
        None => None,
    }
}

/// Stores the packets to be sent.
fn store_sends(alloc: Global, sends: &[Outgoing]) -> Result<Vec<StoredOutgoing>, NoMemory>
    ensures { IfOk result (λ stored. stored.items ≡ sends.now) }
{
    let mut stored = Vec::with_capacity(alloc, sends.len())?;
    for outgoing in sends {
        let one = StoredOutgoing::of(alloc, outgoing)?;
        stored.push_reserved(one);
    }
    Ok(stored)
}

/// Overwrites packets by those to be sent.
fn sends_into(stored: &[StoredOutgoing], sends: &mut Sends)
    requires { length stored.now ≤ MAX_SENDS }
    ensures { sends.new.items ≡ stored.now }
{
    sends.clear();
    for outgoing in stored {
        sends.push(outgoing.outgoing());
    }
}

impl ExactReply {
    /// Stores a reply, but for the names that it has as forgotten. Allocates memory for each part that it has.
    fn of(alloc: Global, reply: &Reply) -> Result<ExactReply, NoMemory>
        ensures { IfOk result (λ stored. stored ≡ told_but_forgotten reply.now) }
    {
        let fired = store_timer(alloc, &reply.fired)?;
        let sends = store_sends(alloc, reply.sends.as_slice())?;
        let changed = Vec::from_slice(alloc, reply.changed.as_slice())?;
        let answer = store_answer(alloc, &reply.answer)?;
        Ok(ExactReply {
            fired,
            sends,
            changed,
            answer,
            ousted: reply.ousted,
            next: reply.next,
        })
    }

    /// Whom the start of a round chose.
    fn chosen(&self) -> Option<Name>
        ensures { result ≡ choice_of_reply self.now }
    {
        choice_by(timer_in(&self.fired), first_body(self.sends.as_slice()))
    }

    /// Overwrites a reply by this one, in place: a reply is large, and has few parts.
    fn reply_into(&self, reply: &mut Reply)
        ensures { reply.new ≡ self.now }
    {
        reply.fired = timer_in(&self.fired);
        sends_into(self.sends.as_slice(), &mut reply.sends);
        reply.changed.clear();
        let copied = reply.changed.try_extend_from_slice(self.changed.as_slice());
        prove!(copied.is_ok());
        reply.forgotten.clear();
        reply.answer = answer_in(&self.answer);
        reply.ousted = self.ousted;
        reply.next = self.next;
    }
}

/// A reply that forgot somebody, which few do. A contract sees it as the reply.
#[derive(Drop)]
pub(crate) struct ForgettingReply {
    exact: ExactReply,
    forgotten: Vec<Name>,
}

impl Model for ForgettingReply {
    ghost use Rattle.std.specs.Prelude.{◌≤◌, length};
    ghost use Rattle.lg_detector.specs.declared.reply.Reply.{Reply};
    ghost use Rattle.lg_detector.specs.declared.reply.TheConstants.{MAX_FORGOTTEN};

    ghost Value = { Reply };

    ghost view = { λ r. record r.exact { forgotten = record { items = r.forgotten.items } } };

    ghost invariant = { λ r. length r.forgotten.items ≤ MAX_FORGOTTEN };
}

impl ForgettingReply {
    /// Overwrites a reply by this one, in place.
    fn reply_into(&self, reply: &mut Reply)
        ensures { reply.new ≡ self.now }
    {
        self.exact.reply_into(reply);
        reply.forgotten.clear();
        let copied = reply
            .forgotten
            .try_extend_from_slice(self.forgotten.as_slice());
        prove!(copied.is_ok());
    }
}

/// How a reply is stored.
#[derive(Drop)]
enum Form {
    /// In as much memory as it needs, if it forgot nobody.
    Exact(Box<ExactReply>),
    /// In as much memory as it needs, if it forgot somebody.
    Forgetting(Box<ForgettingReply>),
    /// In a box that any reply fits in, if memory was refused.
    Whole(Box<Reply>),
}

/// A stored reply. A contract sees it as the reply.
#[derive(Drop)]
pub(crate) struct StoredReply {
    form: Form,
}

impl Model for StoredReply {
    ghost use Rattle.lg_detector.specs.declared.reply.Reply.{Reply};
    ghost use Rattle.lg_history.specs.Support.Stored.{reply_in};

    ghost Value = { Reply };

    ghost view = { λ r. reply_in r.form };
}

/// Stores a reply in as much memory as it needs.
fn store_exactly(alloc: Global, reply: &Reply) -> Result<Form, NoMemory>
    ensures { IfOk result (λ form. reply_in form ≡ reply.now) }
{
    let exact = ExactReply::of(alloc, reply)?;
    if reply.forgotten.is_empty() {
        return Ok(Form::Exact(Box::new(alloc, exact)?));
    }
    let forgotten = Vec::from_slice(alloc, reply.forgotten.as_slice())?;
    let stored = ForgettingReply { exact, forgotten };
    Ok(Form::Forgetting(Box::new(alloc, stored)?))
}

/// Stores a reply in a box that any reply fits in. It isn't inlined: a function that copies a reply pays for its size
/// at each call, even at a call that copies none.
#[cold]
#[inline(never)]
fn store_whole(room: Box<Reply>, reply: &Reply) -> Box<Reply>
    ensures { result.value ≡ reply.now }
{
    let mut whole = room;
    *whole = reply.copy();
    whole
}

impl StoredReply {
    /// Stores a reply, and always succeeds. The box is returned, unless memory was refused and the reply is in it.
    pub(crate) fn of(
        alloc: Global,
        room: Box<Reply>,
        reply: &Reply,
    ) -> (StoredReply, Option<Box<Reply>>)
        ensures { result.0 ≡ reply.now }
    {
        match store_exactly(alloc, reply) {
            Ok(form) => (StoredReply { form }, Some(room)),
            Err(_refused) => {
                let form = Form::Whole(store_whole(room, reply));
                (StoredReply { form }, None)
            }
        }
    }

    /// Whom the start of a round chose.
    pub(crate) fn chosen(&self) -> Option<Name>
        ensures { result ≡ choice_of_reply self.now }
    {
        match &self.form {
            Form::Exact(exact) => exact.chosen(),
            Form::Forgetting(forgetting) => forgetting.exact.chosen(),
            Form::Whole(whole) => whole.chosen(),
        }
    }

    /// Overwrites a reply by this one.
    pub(crate) fn reply_into(&self, reply: &mut Reply)
        ensures { reply.new ≡ self.now }
    {
        match &self.form {
            Form::Exact(exact) => exact.reply_into(reply),
            Form::Forgetting(forgetting) => forgetting.reply_into(reply),
            Form::Whole(whole) => *reply = whole.copy(),
        }
    }
}
