//! How much memory an entry takes: its slot in the history's list, which can be twice as long as the entries, and its
//! boxes and lists. The bounds are this project's choice.
//!
//! Defined in: this file.
//! Tested in: nothing that runs, since the checker proves the bounds.
use crate::entry::Entry;
use crate::event::Hearing;
use crate::packet::StoredOutgoing;
use crate::reply::{ExactReply, ForgettingReply};
use lg_detector::MAX_FORGOTTEN;
use lg_rules::{Claim, MAX_CLAIMS, Name, Record};

/// The slot in the list, and the reply without packets, records, names and answer.
const LEAST: usize = 2 * size_of::<Entry>() + size_of::<ExactReply>();

/// The claims of a full packet, in a list.
const CLAIMS: usize = MAX_CLAIMS * size_of::<Claim>();

/// A tick that fires nothing: besides that, its random words.
const IDLE_TICK: usize = LEAST + size_of::<[u32; 8]>();

/// A Ping without claims, and its Ack: the packet that was heard, and a list of one that is sent.
const PING: usize = LEAST + size_of::<Hearing>() + size_of::<StoredOutgoing>();

/// A Ping of twelve claims that change twelve records, and its Ack of twelve claims.
const FULL_PING: usize = PING + 2 * CLAIMS + MAX_CLAIMS * size_of::<Record>();

/// The same, where each claim needs room, and a member is forgotten for it.
const CROWDED_PING: usize = FULL_PING
    + size_of::<ForgettingReply>()
    + MAX_FORGOTTEN * size_of::<Name>();

const _: () = prove!(IDLE_TICK <= 320);

const _: () = prove!(PING <= 576);

const _: () = prove!(FULL_PING <= 4096);

const _: () = prove!(CROWDED_PING <= 4480);
