//! The commands `answer`, `order`, `timeouts`, `sim`, `init` and `version`, over any reader and writers: what they
//! write, and their statuses. None of them uses a clock, a socket or a file. And what of a recording the commands
//! `replay` and `explain` are to tell.
//!
//! Where to read on:
//! - what `answer`, `order`, `timeouts`, `init` and `version` write: `specs/Meaning/Answering.antt`, `Choosing.antt`,
//!   `Timeouts.antt`, `Init.antt` and `Version.antt`; what `sim` writes: `lg_sim`;
//! - what `replay` is to tell: `specs/Meaning/Replaying.antt`; what is told then: `lg_replay`;
//! - what `explain` is to tell: `specs/Meaning/Explaining.antt`; what is told then: `lg_explain` and `lg_accounts`;
//! - how a run ends, and its status: `specs/Meaning/Running.antt`;
//! - which command a command line asks for: `lg_command_line`.
#![tactic(auto)]

mod answer;
mod bad_part;
mod explain;
mod init;
mod line;
mod order;
mod replay;
mod run;
mod status;
mod timeouts;
mod version;

pub use bad_part::BadPart;
pub use explain::{ExplainPart, part_to_explain};
pub use line::LineFault;
pub use order::{BadList, OrderFault};
pub use replay::{RecordingPart, part_to_replay};
pub use run::{answer_run, order_run, timeouts_run, version_run};
pub use status::{
    BAD_INPUT, FAILED, USAGE, answer_named, order_lists, simulate, timeouts_of, write_init,
    write_version,
};
pub use timeouts::Numbers;
