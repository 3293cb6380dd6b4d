//! The heads of files of recordings as bytes, and the laws by which they are read back as they were written.
//!
//! A head says whose node a file of a recording is of, and what was known before the first entry of the file.
//! [`put_head`] appends what a file begins with, and [`read_head`] reads the body of its head.
#![tactic(auto)]

mod fault;
mod head;
mod laws;
mod reading;
mod writing;

pub use fault::HeadFault;
pub use head::{Before, Head};
pub use laws::{heads_are_read_again, heads_have_one_spelling};
pub use reading::read_head;
pub use writing::put_head;
