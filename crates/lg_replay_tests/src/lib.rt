//! Tests of replays: of lives that are told as they were recorded, of replies that were changed, of heads that
//! are faulty, of files that are missing or break off, of the entries that are told, and of folders.
#![tactic(auto)]

#[cfg(test)]
mod disk;
#[cfg(test)]
mod folders;
#[cfg(test)]
mod heads;
#[cfg(test)]
mod lives;
#[cfg(test)]
mod making;
#[cfg(test)]
mod rows;
#[cfg(test)]
mod shown;
