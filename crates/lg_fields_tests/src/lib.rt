//! Tests of the fields of recordings, over the public calls of `lg_fields`.
#![tactic(auto)]

#[cfg(test)]
mod fields;
