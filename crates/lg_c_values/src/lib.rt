//! The values that cross to C: names, addresses, records and configurations as structs of C, and what each of them
//! tells.
//!
//! A struct that C fills may tell nothing, as if a name has a bad byte: then its reading gives nothing. `specs/Meaning`
//! defines what is read of a struct that C fills, and which struct C is given for a value.
#![tactic(auto)]

mod address;
mod config;
mod name;
mod record;

pub use address::LgAddress;
pub use config::{LgConfig, LgSeed};
pub use name::LgName;
pub use record::LgRecord;
