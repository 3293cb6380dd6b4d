//! The suspicion of one member: who accuses it, and when it is taken as failed.
#![tactic(auto)]

mod standing;
mod suspicion;

pub use standing::SuspicionStanding;
pub use suspicion::{
    MAX_ACCUSERS, MAX_DEADLINE, Suspicion, accusers_keep_their_names, deadlines_are_by_the_set,
};
