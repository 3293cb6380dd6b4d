//! Tests of accounts of a member: by the files of a recording, and their text, their JSON, their page and verdicts. And
//! of the files that pages are written into.
#![tactic(auto)]

#[cfg(test)]
mod explaining;
#[cfg(test)]
mod making;
#[cfg(test)]
mod pages;
#[cfg(test)]
mod paging;
#[cfg(test)]
mod texts;
#[cfg(test)]
mod verdicts;
