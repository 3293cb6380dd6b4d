//! One thread that serves HTTP/1.1 to up to 256 clients, whose long polls wait for a change.
#![tactic(auto)]

mod asked;
mod desk;
mod gate;
mod hosts;
mod listener;
mod own;
mod peer;
mod server;
mod signal;
mod site;
mod slots;

pub use asked::OtherRequest;
pub use desk::Desk;
pub use hosts::Hosts;
pub use listener::Listener;
pub use server::{Server, ServerCounts, ServerEnd};
pub use signal::Signal;
pub use site::{HttpAnswer, HttpStatus, Kind, Site, Wait};
pub use slots::{MAX_PARKED, MAX_PEERS};
