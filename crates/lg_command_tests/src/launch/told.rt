//! The status and the line of everything that may be told.
use lg_agent::Refusal;
use lg_config::FileFault;
use lg_node::NodeFault;
use lg_packet::Fault;
use lg_run::Told;
use lg_text::{InputFault, RunFault, WriteFault};
use lg_timing::ConfigFault;
use std::io::ErrorKind;

/// What is told, or what it is told of: a refusal, a fault of a run, or a fault of a node without loops.
#[derive(Clone, Copy, Debug)]
enum Of {
    End(Told),
    Refusal(Refusal),
    Run(RunFault),
    Node(NodeFault),
}

/// What is told of it.
fn told_of(of: Of) -> Told {
    match of {
        Of::End(told) => told,
        Of::Refusal(refusal) => Told::from(refusal),
        Of::Run(fault) => Told::from(fault),
        Of::Node(fault) => Told::of(&Err(fault), Ok(())),
    }
}

/// An output whose reader has gone, and what is told of it.
const CLOSED: WriteFault = WriteFault {
    kind: ErrorKind::BrokenPipe,
};

const UNREAD: &str = "lg: write\nstandard output can't be written: nobody reads it\n";

/// Each with its status and its line. No two things that may be told have the same line.
const ENDS: [(Of, u8, &str); 25] = [
    (Of::End(Told::Done), 0, ""),
    (Of::End(Told::Memory), 1, "lg: memory\n"),
    (Of::End(Told::Read), 1, "lg: read\n"),
    (Of::End(Told::Write(CLOSED)), 1, UNREAD),
    (Of::End(Told::History), 1, "lg: history\n"),
    (Of::End(Told::Turns), 1, "lg: turns\n"),
    (Of::End(Told::Refused), 1, "lg: refused\n"),
    (Of::End(Told::Close), 1, "lg: close\n"),
    (Of::End(Told::Ousted), 4, "lg: ousted\n"),
    (Of::End(Told::Link), 5, "lg: link\n"),
    (Of::End(Told::Key), 9, "lg: key\n"),
    (Of::Refusal(Refusal::NoMemory), 1, "lg: memory\n"),
    (Of::Refusal(Refusal::HistoryFull(2)), 1, "lg: history\n"),
    (
        Of::Refusal(Refusal::BadPacket(Fault::Short)),
        1,
        "lg: refused\n",
    ),
    (
        Of::Refusal(Refusal::Behind { seen: 2, here: 1 }),
        1,
        "lg: refused\n",
    ),
    (Of::Refusal(Refusal::NoPlace), 1, "lg: refused\n"),
    (Of::Refusal(Refusal::NoView), 1, "lg: refused\n"),
    (Of::Run(RunFault::Memory), 1, "lg: memory\n"),
    (
        Of::Run(RunFault::Read(InputFault::TooLong)),
        1,
        "lg: read\n",
    ),
    (Of::Run(RunFault::Write(CLOSED)), 1, UNREAD),
    (
        Of::Node(NodeFault::Socket(ErrorKind::AddrInUse)),
        5,
        "lg: link\n",
    ),
    (Of::Node(NodeFault::Clock), 1, "lg: refused\n"),
    (
        Of::Node(NodeFault::Refused(Refusal::NoMemory)),
        1,
        "lg: memory\n",
    ),
    (
        Of::Node(NodeFault::Refused(Refusal::HistoryFull(2))),
        1,
        "lg: history\n",
    ),
    (
        Of::Node(NodeFault::Refused(Refusal::NoPlace)),
        1,
        "lg: refused\n",
    ),
];

/// Each fault of a file with its number and its line.
const FAULTS: [(FileFault, u8, &str); 32] = [
    (
        FileFault::Config(ConfigFault::Interval),
        1,
        "lg: config 1\n",
    ),
    (FileFault::Config(ConfigFault::Timeout), 2, "lg: config 2\n"),
    (
        FileFault::Config(ConfigFault::Indirect),
        3,
        "lg: config 3\n",
    ),
    (
        FileFault::Config(ConfigFault::MaxScore),
        4,
        "lg: config 4\n",
    ),
    (FileFault::Config(ConfigFault::Alpha), 5, "lg: config 5\n"),
    (FileFault::Config(ConfigFault::Beta), 6, "lg: config 6\n"),
    (
        FileFault::Config(ConfigFault::Confirmations),
        7,
        "lg: config 7\n",
    ),
    (FileFault::Config(ConfigFault::Lambda), 8, "lg: config 8\n"),
    (FileFault::Config(ConfigFault::Nack), 9, "lg: config 9\n"),
    (
        FileFault::Config(ConfigFault::History),
        10,
        "lg: config 10\n",
    ),
    (FileFault::Config(ConfigFault::Seeds), 11, "lg: config 11\n"),
    (FileFault::Syntax, 12, "lg: config 12\n"),
    (FileFault::Key, 13, "lg: config 13\n"),
    (FileFault::Value, 14, "lg: config 14\n"),
    (FileFault::Config(ConfigFault::Wire), 15, "lg: config 15\n"),
    (FileFault::Pull, 16, "lg: config 16\n"),
    (FileFault::Stall, 17, "lg: config 17\n"),
    (FileFault::Status, 18, "lg: config 18\n"),
    (FileFault::StatusOpen, 19, "lg: config 19\n"),
    (FileFault::StatusNotLoopback, 20, "lg: config 20\n"),
    (FileFault::KeyFile, 21, "lg: config 21\n"),
    (
        FileFault::Config(ConfigFault::Forget),
        22,
        "lg: config 22\n",
    ),
    (
        FileFault::Config(ConfigFault::GossipMs),
        23,
        "lg: config 23\n",
    ),
    (
        FileFault::Config(ConfigFault::GossipTo),
        24,
        "lg: config 24\n",
    ),
    (FileFault::Config(ConfigFault::First), 25, "lg: config 25\n"),
    (FileFault::Config(ConfigFault::Group), 26, "lg: config 26\n"),
    (FileFault::Leave, 27, "lg: config 27\n"),
    (FileFault::Bind, 28, "lg: config 28\n"),
    (FileFault::Family, 29, "lg: config 29\n"),
    (FileFault::Resolve, 30, "lg: config 30\n"),
    (FileFault::Auto, 31, "lg: config 31\n"),
    (FileFault::RecordMb, 32, "lg: config 32\n"),
];

/// Each end has its status and its line, and each fault of a file its number, the status 3 and its line.
#[test]
fn statuses_and_lines(rt: HostRuntime) {
    for (of, status, line) in ENDS {
        let told = told_of(of);
        assert!(rt;
            told.status() == status && told.line().as_str() == line,
            "{of:?}"
        );
    }
    for (fault, number, line) in FAULTS {
        let told = Told::Config(fault);
        let met = fault.number() == number && told.status() == 3 && told.line().as_str() == line;
        assert!(rt; met, "{fault:?}");
    }
}
