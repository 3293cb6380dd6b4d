//! Tests of what version 3 of the format brought to the detector b at 127.0.0.1:7000, and of versions that meet: news
//! that is gossiped, doubts that are answered, members that leave and are forgotten, addresses of two families,
//! receivers and groups.
#![tactic(auto)]

#[cfg(test)]
mod answers;
#[cfg(test)]
mod doubting;
#[cfg(test)]
mod far;
#[cfg(test)]
mod filling;
#[cfg(test)]
mod forgetting;
#[cfg(test)]
mod gossiping;
#[cfg(test)]
mod groups;
#[cfg(test)]
mod leaving;
#[cfg(test)]
mod merging;
#[cfg(test)]
mod paging;
#[cfg(test)]
mod playing;
#[cfg(test)]
mod receivers;
#[cfg(test)]
mod rooms;
#[cfg(test)]
mod sending;
#[cfg(test)]
mod slots;
#[cfg(test)]
mod slow_news;
#[cfg(test)]
mod strangers;
#[cfg(test)]
mod streams;
#[cfg(test)]
mod versions;
