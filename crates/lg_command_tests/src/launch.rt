//! What is told of a node before it starts and at its end. Runs over writers that fail.
mod ends;
mod keys;
mod order;
mod starts;
mod told;
