//! What a command line asks for.
//!
//! Defined in: `specs/Meaning/Commands.antt`, `specs/Meaning/Ranges.antt`.
//! Tested in: `cases/command_line.case`, `cases/timeouts_command.case`, `cases/node_command.case`.
ghost use Rattle.std.specs.Prelude.{◌≡◌};
ghost use Rattle.lg_command_line.specs.Meaning.Commands.{has_good_numbers};
ghost use Rattle.lg_command_line.specs.Support.Requests.{request_of};

use lg_commands::Numbers;
use lg_config::Given;
use lg_timing::Moment;

/// The longest run of a node that is given an end, one day, in milliseconds (this project's choice).
pub const MAX_RUN_MS: u64 = 86_400_000;

/// The text of the address at which a running node is asked if the command line has no `--at` (this project's choice).
/// It is an IPv4 address on loopback and a port, the one that the documents give a node's status server.
pub const DEFAULT_AT: &str = "127.0.0.1:8946";

/// What a running node is asked.
#[derive(Clone, Copy, Debug)]
pub enum Question {
    /// The question of the command `members`: whom it knows.
    Members,
    /// The question of the command `status`: how it is.
    Status,
    /// The question of the command `watch`: what changes of whom it knows, again and again.
    Watch,
}

/// What the command `explain` tells of a recording, and how.
#[derive(Clone, Copy, Debug)]
pub struct ExplainWords<'a> {
    /// The text that should be the name of the member that it is told about, which may be no name.
    pub name: &'a str,
    /// The text that should be the path of the recording's folder, which may be no path.
    pub folder: &'a str,
    /// The latest moment at which the first verdict of an account may have come. It is the greatest moment if the
    /// command line has none.
    pub at: Moment,
    /// Whether each of the accounts is told, or only the last.
    pub all: bool,
    /// Whether the numbers of the entries are told too.
    pub entries: bool,
    /// Whether the accounts are written as JSON, in place of lines.
    pub json: bool,
    /// The path of the file into which the accounts are written as a page of HTML, in place of lines, if one is named.
    /// It may be that no such file can be made.
    pub html: Option<&'a str>,
}

/// What a command line asks for.
#[derive(Debug, Drop)]
pub enum Asked<'a> {
    /// The command `answer`, with the text that should be the detector's name.
    Answer {
        /// The text, which may be no name.
        name: &'a str,
    },
    /// The command `order`, with the texts that should list its names and its words.
    Order {
        /// The text of the names, which may be bad.
        names: &'a str,
        /// The text of the words, which may be bad.
        words: &'a str,
    },
    /// The command `node`, with where its configuration comes from, when it ends and whether it tells what changes.
    Node {
        /// The path of its file, if one is named. There may be no such file.
        file: Option<&'a str>,
        /// What options give for keys.
        given: Vec<Given<'a>>,
        /// For how many milliseconds it runs: 1 to [`MAX_RUN_MS`]. If it is none, the time doesn't end it.
        for_ms: Option<u64>,
        /// Whether it tells each change of a member as it happens.
        follow: bool,
        /// Whether it ends once its standard input has ended.
        until_input_ends: bool,
    },
    /// The command `check`, with where a configuration comes from.
    Check {
        /// The path of its file, if one is named. There may be no such file.
        file: Option<&'a str>,
        /// What options give for keys.
        given: Vec<Given<'a>>,
    },
    /// One of the commands `members`, `status` and `watch`, which ask a running node.
    Ask {
        /// What the node is asked, which says which of the commands it is.
        question: Question,
        /// The text that should be the address of the node's status server, which may be no address. If the command
        /// line has none, it is [`DEFAULT_AT`].
        at: &'a str,
        /// Whether the answers are written as they come.
        json: bool,
    },
    /// The command `init`.
    Init,
    /// The command `leave`, which tells a running node to leave its group.
    Leave {
        /// The text that should be the address of the node's status server, which may be no address. If the command
        /// line has none, it is [`DEFAULT_AT`].
        at: &'a str,
        /// The text that should be the node's name, which may be no name. It is empty if the command line has none.
        name: &'a str,
    },
    /// The command `replay`, with what of a recording it tells.
    Replay {
        /// The text that should be the path of the recording's folder, which may be no path.
        folder: &'a str,
        /// The first moment of what is told. It is 0 if the command line has none.
        from: Moment,
        /// The last moment of what is told. It is the greatest moment if the command line has none.
        to: Moment,
        /// The text that should be the name of the member of which is told, which may be no name. It is none if the
        /// command line has none, and then all is told.
        only: Option<&'a str>,
    },
    /// The command `explain`, which tells why a member was suspected, or taken as failed or left.
    Explain {
        /// Its member, the recording, and what of it is told.
        words: ExplainWords<'a>,
    },
    /// The command `sim`.
    Sim,
    /// The command `version`.
    Version,
    /// The command `timeouts`.
    Timeouts {
        /// Its numbers.
        numbers: Numbers,
    },
}

impl Asked<'_> {
    /// Whether each of its numbers is in its range.
    pub(crate) fn has_good_numbers(&self) -> bool
        ensures { result ≡ has_good_numbers (request_of self.now) }
    {
        match self {
            Asked::Node {
                for_ms: Some(for_ms),
                ..
            } => (1..=MAX_RUN_MS).contains(for_ms),
            Asked::Timeouts { numbers } => numbers.are_good(),
            Asked::Node { for_ms: None, .. }
            | Asked::Answer { .. }
            | Asked::Order { .. }
            | Asked::Check { .. }
            | Asked::Ask { .. }
            | Asked::Init
            | Asked::Leave { .. }
            | Asked::Replay { .. }
            | Asked::Explain { .. }
            | Asked::Sim
            | Asked::Version => true,
        }
    }
}
