//! Names, addresses, incarnations and claims; which claim overrides which; the records of the other members; and what
//! a member knows of itself.
#![tactic(auto)]

mod addr;
mod claim;
mod incarnation;
mod members;
mod name;
mod overriding;
mod own;
mod random;
mod records;
mod rows;
mod slots;
mod version;

pub use addr::{Addr, Ip};
pub use claim::{Claim, MAX_CLAIMS, MAX_LAMBDA, Record, Status};
pub use incarnation::{Incarnation, MAX_INCARNATION};
pub use members::{Heard, MAX_MEMBERS, MAX_OTHERS, Members, nothing_is_forgotten};
pub use name::{MAX_NAME, Name, NameFault, is_name_byte};
pub use overriding::beats;
pub use own::{Own, OwnHeard};
pub use random::RANDOM_WORDS;
pub use rows::{Keyed, index_in_rows, index_of, put_in_rows, put_row};
pub use slots::Slot;
pub use version::Version;
