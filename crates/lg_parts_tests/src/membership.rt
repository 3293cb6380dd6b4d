//! Worked claims of b, which is at 127.0.0.1:7000.
mod claims;
mod forgetting;
mod pages;
mod playing;
mod queue;
