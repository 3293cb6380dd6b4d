//! Histories of the member b, which hears from port 1.
mod entries;
mod rows;
