//! Why a file means no configuration.
//!
//! Defined in: `specs/Meaning/Faults.antt`.
//! Tested in: `lg_command_tests/src/launch/told.rt`, `cases/config.case`.
ghost use Rattle.std.specs.Prelude.{◌≡◌};
ghost use Rattle.lg_config.specs.Meaning.Faults.{fault_number};
ghost use Rattle.lg_config.specs.declared.fault.ReadFault.TheVariants.{File};

use crate::document::MAX_FILE;
use crate::file_path::MAX_PATH;
use crate::node_keys::{
    MAX_PULL_MS, MAX_RECORD_MB, MAX_RESOLVE_MS, MAX_STALL_MS, MIN_RECORD_MB, MIN_RESOLVE_MS,
};
use lg_timing::ConfigFault;
use thiserror::Error;

/// Why a file means no configuration (this project's choice).
#[derive(Clone, Copy, Debug, PartialEq, Eq, Error)]
pub enum FileFault {
    /// A number is out of its range, the seeds are too many, share a name or have this member's name, or the group is
    /// no name or has another `wire` than 3. If there are several such faults, it is the one with the least number.
    #[error(transparent)]
    Config(ConfigFault),
    /// The file has more than 65,536 bytes, isn't UTF-8 or isn't TOML.
    #[error("the file has to be TOML in UTF-8, of at most {most} bytes", most = MAX_FILE)]
    Syntax,
    /// A key is unknown, the name is missing, or a value is of another TOML type than its key wants. The values of
    /// `status`, `status_open`, `leave` and `bind` have faults of their own.
    #[error("a key is unknown or has a value of another type, or the name is missing")]
    Key,
    /// A name, an address, a port, a seed or the folder of the recording is out of its form, or the dice are negative.
    #[error("a name, an address, a port, a seed or a folder is out of its form, or the dice are negative")]
    Value,
    /// `pull_ms` isn't 0 to 3,600,000.
    #[error("pull_ms has to be 0 to {most}", most = MAX_PULL_MS)]
    Pull,
    /// `stall_ms` isn't 0 to 60,000.
    #[error("stall_ms has to be 0 to {most}", most = MAX_STALL_MS)]
    Stall,
    /// `status` is no text, or is neither `A.B.C.D:PORT` nor an IPv6 address in brackets before `:PORT`.
    #[error("status has to be A.B.C.D:PORT, or an IPv6 address in brackets before :PORT")]
    Status,
    /// `status_open` is no boolean.
    #[error("status_open has to be true or false")]
    StatusOpen,
    /// The address of `status` isn't loopback, and `status_open` isn't true.
    #[error("status has to be in 127.0.0.0/8 or ::1 if status_open isn't true")]
    StatusNotLoopback,
    /// `key_file` has no bytes, more than 255, or one that isn't printable ASCII.
    #[error("key_file has to have 1 to {most} bytes of printable ASCII", most = MAX_PATH)]
    KeyFile,
    /// `leave` is no text, or neither `on` nor `off`.
    #[error("leave has to be \"on\" or \"off\"")]
    Leave,
    /// `bind` is no text, or is neither an address nor one with its port.
    #[error("bind has to be A.B.C.D or A.B.C.D:PORT, or the same of IPv6")]
    Bind,
    /// The member's own address is one of IPv6, and `wire` isn't 3.
    #[error("a member with an IPv6 address has to have wire = 3")]
    Family,
    /// `resolve_ms` isn't 1,000 to 3,600,000.
    #[error("resolve_ms has to be {least} to {most}", least = MIN_RESOLVE_MS, most = MAX_RESOLVE_MS)]
    Resolve,
    /// The member's own address is to be found, and there is no seed by which it could be.
    #[error("a member with the address auto has to have a seed")]
    Auto,
    /// `record_mb` isn't 1 to 100,000.
    #[error("record_mb has to be {least} to {most}", least = MIN_RECORD_MB, most = MAX_RECORD_MB)]
    RecordMb,
}

impl FileFault {
    /// The number of the fault: that of [`ConfigFault::number`], or 12, 13, 14, 16 to 21 or 27 to 32 for the others.
    pub fn number(self) -> u8
        ensures { result ≡ fault_number self }
    {
        match self {
            FileFault::Config(fault) => fault.number(),
            FileFault::Syntax => 12,
            FileFault::Key => 13,
            FileFault::Value => 14,
            FileFault::Pull => 16,
            FileFault::Stall => 17,
            FileFault::Status => 18,
            FileFault::StatusOpen => 19,
            FileFault::StatusNotLoopback => 20,
            FileFault::KeyFile => 21,
            FileFault::Leave => 27,
            FileFault::Bind => 28,
            FileFault::Family => 29,
            FileFault::Resolve => 30,
            FileFault::Auto => 31,
            FileFault::RecordMb => 32,
        }
    }
}

/// Why a file wasn't read.
#[derive(Clone, Copy, Debug, PartialEq, Eq, Error)]
pub enum ReadFault {
    /// Memory was refused, so nothing is known of the file.
    #[error("memory was refused")]
    NoMemory,
    /// The file means no configuration.
    #[error(transparent)]
    File(FileFault),
}

impl From<FileFault> for ReadFault {
    ghost from_gives = { λ fault told. told ≡ File fault };

    fn from(fault: FileFault) -> ReadFault {
        ReadFault::File(fault)
    }
}
