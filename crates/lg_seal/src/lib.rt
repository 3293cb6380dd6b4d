//! Keys of a group, and datagrams that are sealed with a key: a member takes only those whose tag is right under one of
//! its keys.
#![tactic(auto)]

mod fault;
mod key;
mod laws;
mod reading;
mod sealing;
mod tag;

pub use fault::{KeyFault, SealFault};
pub use key::{GroupKey, KEY_LEN, Keys};
pub use laws::{one_outcome, other_key, sealed_opens, spelled_key};
pub use reading::keys_in;
pub use sealing::{SEAL_LEN, Sealer};
pub use tag::{MAX_HMAC_KEY, Signer, TAG_LEN, Tag, hmac};
