//! The published detector: one writer advances it, and readers look at it without waiting for anybody.
//!
//! [`pair`] makes the writer, a [`Feed`], and a [`Look`] for each reader. What is published is a detector beside the
//! list of the events that it is after. The writer appends an event, and publishes it. From then on each look finds a
//! detector that is after this event. A reader knows which events it has seen. The contract of each answer says that
//! it is that of a list of events which begins with all that the reader had seen before.
//!
//! All these lists are fronts, that is prefixes, of one list, the book (`book.rt`). So a reader compares what it
//! finds with what it has seen by their lengths alone, and no list is in memory.
//!
//! Where to read on:
//! - the writer, and why it never fails to publish: `feed.rt`;
//! - the readers: `look.rt`;
//! - what is published, and how an event advances it: `published.rt` and `update.rt`.
#![tactic(auto)]

mod book;
mod feed;
mod front;
mod look;
mod overview;
mod pairing;
mod published;
mod update;

pub use book::{PairName, UnnamedBook};
pub use feed::Feed;
pub use look::{Look, MembersFault, NoView};
pub use overview::Overview;
pub use pairing::{PairFault, pair};
pub use published::Published;
pub use update::Update;
