//! What a recorder is handed of a node: batch after batch of its entries, as rotations of a pass hand them out.
//!
//! An [`EntrySource`] takes the entries of a pass, and spells them and the heads of files that begin with them. A
//! [`NodeRecord`] records a node by it: it is what the start of a node takes as its recorder.
#![tactic(auto)]

mod laws;
mod node;
mod source;
mod standstill;

pub use laws::standstills_add_up;
pub use node::NodeRecord;
pub use source::{EntryParts, EntrySource, Subject};
