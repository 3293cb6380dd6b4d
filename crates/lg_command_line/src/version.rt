//! What `lg --version` tells.
//!
//! Defined in: this file.
//! Tested in: `cases/command_line.case`.

/// The version of the program, and the wire versions that it reads and writes. The parser writes the program's name
/// before it, and a newline after it. Which kit proved and built it the command `version` tells.
pub(crate) const VERSION: &str = "0.9.0\n\
    reads and writes packets of versions 1 to 3";
