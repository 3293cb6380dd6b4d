//! The history: its entries, and the entry that is prepared.
//!
//! Defined in: `specs/Meaning/History.antt`.
//! Tested in: `lg_agent_tests/src/history/entries.rt`.
ghost use Rattle.std.specs.Prelude.{◌≡◌, [], length, false, Some, None, IfOk, OnOk, OnErr};
ghost use Rattle.lg_history.specs.Meaning.History.{completed};

use crate::entry::Entry;
use crate::event::StoredEvent;
use crate::reply::StoredReply;
use lg_detector::{Event, NoMemory, Reply};
use std::alloc::Global;
use std::marker::Model;
use std::mem;

/// An entry that waits for its reply. A contract sees it as its seat and its event.
#[derive(Drop)]
struct Waiting {
    seat: usize,
    event: StoredEvent,
}

impl Model for Waiting {
    ghost use Rattle.lg_history.specs.Meaning.History.{WaitingValue};

    ghost Value = { WaitingValue };

    ghost view = { λ w. record { seat = w.seat; event = w.event } };
}

/// A box for a whole reply, which is still empty. It isn't inlined: a function that makes a reply of its own pays for
/// its size at each call, even at a call that makes none.
#[cold]
#[inline(never)]
fn reply_room(alloc: Global) -> Result<Box<Reply>, NoMemory>
    ensures { IfOk result (λ room. room.value ≡ record {
      fired = None;
      sends = record { items = [] };
      changed = record { items = [] };
      forgotten = record { items = [] };
      answer = None;
      ousted = false;
      next = 0;
    }) }
{
    Ok(Box::new(alloc, Reply::default())?)
}

/// The entries of an agent's history, in the order in which they were made.
///
/// The list grows to twice its length when it is full. A contract sees the list of the entries, and the seat and the
/// event of the entry that is prepared, if one is.
#[derive(Drop)]
pub struct History {
    entries: Vec<Entry>,
    prepared: Option<Waiting>,
    // A box that any reply fits in. The first `prepare` allocates it, and so does the next one after a reply had to
    // be stored in it.
    room: Option<Box<Reply>>,
}

impl Model for History {
    ghost use Rattle.std.specs.Prelude.{◌≡◌, ◌<◌, length, is_some, true};
    ghost use Rattle.std.specs.Vec.{vec_capacity};
    ghost use Rattle.lg_history.specs.Meaning.History.{HistoryValue};

    ghost Value = { HistoryValue };

    ghost view = { λ h. record { entries = h.entries.items; prepared = h.prepared } };

    // If an entry is prepared, the list has a free slot for it, and there is a box for its reply.
    ghost invariant = { λ h. is_some h.prepared ≡ true
        → (length h.entries.items < vec_capacity h.entries) × (is_some h.room ≡ true) };
}

impl History {
    /// A history without entries, in which nothing is prepared. Allocates nothing.
    pub fn new(alloc: Global) -> History
        ensures { result ≡ record { entries = []; prepared = None } }
    {
        History {
            entries: Vec::new(alloc),
            prepared: None,
            room: None,
        }
    }

    /// How many entries there are.
    pub fn len(&self) -> u64
        ensures { result ≡ length self.now.entries }
    {
        self.entries.len() as u64
    }

    /// The entries, the earliest first.
    pub fn entries(&self) -> &[Entry]
        ensures { result.now ≡ self.now.entries }
    {
        self.entries.as_slice()
    }

    /// The entries, the earliest first. What is prepared is dropped.
    pub fn into_entries(self) -> Vec<Entry>
        ensures { result.items ≡ self.entries }
    {
        self.entries
    }

    /// Allocates all memory that the entry of an event can need, whatever the reply: a slot in the list, the event,
    /// and a box for a whole reply. If the box isn't needed, it is kept for the next entry. What was prepared before,
    /// if anything was, is dropped. The only error is that memory was refused; then nothing has changed.
    pub fn prepare(&mut self, alloc: Global, seat: usize, event: &Event) -> Result<(), NoMemory>
        ensures prepared { OnOk result (self.new ≡ record self.old {
          prepared = Some (record { seat = seat; event = event.now });
        }) }
        ensures refused { OnErr result (self.new ≡ self.old) }
    {
        self.entries.reserve(1)?;
        if self.room.is_none() {
            self.room = Some(reply_room(alloc)?);
        }
        let event = StoredEvent::of(alloc, event)?;
        self.prepared = Some(Waiting { seat, event });
        Ok(())
    }

    /// Drops what is prepared, if anything is. The entries stay.
    pub fn withdraw(&mut self)
        ensures { self.new ≡ record self.old { prepared = None } }
    {
        self.prepared = None;
    }

    /// Drops all entries, and what is prepared, if anything is. Keeps the memory of the list.
    pub fn clear(&mut self)
        ensures { self.new ≡ record { entries = []; prepared = None } }
    {
        self.withdraw();
        self.entries.clear();
    }

    /// Exchanges the list of the entries for an empty one, which the caller hands in. The caller has then all entries,
    /// the earliest first, and there is none here. No entry is copied or dropped, and the memory of each list stays
    /// with it, so that a caller that hands the same list in again and again uses the memory of the two in turn. What
    /// is prepared is dropped, as in [`History::clear`]. Allocates nothing.
    pub fn take_into(&mut self, entries: &mut Vec<Entry>)
        requires { entries.old.items ≡ [] }
        ensures taken { entries.new.items ≡ self.old.entries }
        ensures left { self.new ≡ record { entries = []; prepared = None } }
    {
        self.withdraw();
        mem::swap(&mut self.entries, entries);
    }

    /// Adds the prepared entry, with this reply, after all others. If nothing is prepared, it changes nothing.
    ///
    /// It always succeeds. It tries to allocate the memory that the reply needs. If that is refused, the entry keeps
    /// the box for a whole reply, some 12 KB.
    pub fn complete(&mut self, alloc: Global, reply: &Reply)
        ensures { self.new ≡ completed reply.now self.old }
    {
        let Some(waiting) = self.prepared.take() else {
            return;
        };
        let room = self.room.take().unwrap();
        let (reply, room) = StoredReply::of(alloc, room, reply);
        self.room = room;
        self.entries.push_reserved(Entry {
            seat: waiting.seat,
            event: waiting.event,
            reply,
        });
    }
}
