//! Reads an input whole, up to a limit, and finds its lines. Cuts a text at a byte, and reads names, numbers, ports and
//! IP addresses. Writes addresses, and a text whole, or a line as far as the writer takes it.
#![tactic(auto)]

mod addresses;
mod cutting;
mod end;
mod fault;
mod input;
mod ip;
mod lines;
mod name;
mod number;
mod octets;
mod output;
mod reporting;

pub use addresses::{put_addr, put_ip};
pub use cutting::cut_at;
pub use end::RunEnd;
pub use fault::{InputFault, MAX_FAULT_TEXT, RunFault, WriteFault};
pub use input::{MAX_INPUT, read_input};
pub use ip::ip_in;
pub use lines::cut_line;
pub use name::name_in;
pub use number::{MAX_DIGITS, number_in, number_within, port_among, port_in};
pub use octets::octets_in;
pub use output::{write_text, write_whole};
pub use reporting::{FaultStream, report};
