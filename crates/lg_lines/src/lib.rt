//! Records and the replies of a detector as lines of text, and packets as hex.
//!
//! A line ends with a newline byte. The forms are this project's choice; `specs/Meaning/Records.antt` and
//! `specs/Meaning/Replies.antt` define all of them.
#![tactic(auto)]

mod packet;
mod records;
mod replies;

pub use lg_detector::NoMemory;
pub use packet::{PacketRow, put_hex};
pub use records::put_table;
pub use replies::put_reply;
