//! What faults tell a person: the message of each, with what is allowed and the value at hand.
use lg_agent::{CloseFault, Refusal};
use lg_commands::{BadList, BadPart, LineFault, OrderFault};
use lg_config::{FileFault, ReadFault};
use lg_node::{NodeFault, Why};
use lg_packet::Fault;
use lg_rules::NameFault;
use lg_script::ScriptFault;
use lg_text::{InputFault, RunFault, WriteFault};
use lg_timing::ConfigFault;
use lg_view::{MembersFault, NoView, PairFault};
use std::alloc::Global;
use std::error::Error;
use std::io::ErrorKind;

const NAMES: &[(NameFault, &str)] = &[
    (NameFault::Empty, "a name is empty; it has 1 to 32 bytes"),
    (
        NameFault::TooLong,
        "a name is too long; it has 1 to 32 bytes",
    ),
    (
        NameFault::BadByte(b' '),
        "the byte 32 stands in a name; allowed are A-Z a-z 0-9 . _ -",
    ),
];

const CONFIGS: &[(ConfigFault, &str)] = &[
    (ConfigFault::Interval, "interval_ms has to be 10 to 60000"),
    (
        ConfigFault::Timeout,
        "timeout_ms has to be at least 1 and less than interval_ms",
    ),
    (ConfigFault::Indirect, "indirect has to be 0 to 8"),
    (ConfigFault::MaxScore, "max_score has to be 0 to 20"),
    (ConfigFault::Alpha, "alpha has to be 1 to 20"),
    (ConfigFault::Beta, "beta has to be 1 to 20"),
    (ConfigFault::Confirmations, "confirmations has to be 0 to 5"),
    (ConfigFault::Lambda, "lambda has to be 1 to 10"),
    (ConfigFault::Nack, "nack_thousandths has to be 1 to 999"),
    (ConfigFault::History, "history_limit has to be 2 to 1000000"),
    (
        ConfigFault::Seeds,
        "seeds may be at most 16, with different names, none of them the member's own",
    ),
    (ConfigFault::Wire, "wire has to be 1 to 3"),
    (
        ConfigFault::Forget,
        "forget_ms has to be 0 or 1000 to 2592000000",
    ),
    (
        ConfigFault::GossipMs,
        "gossip_ms has to be 0 or 10 to 60000",
    ),
    (ConfigFault::GossipTo, "gossip_to has to be 1 to 8"),
    (ConfigFault::First, "first has to be 1 to 4294967295"),
    (
        ConfigFault::Group,
        "a member of a group has to have wire = 3",
    ),
];

const PACKETS: &[(Fault, &str)] = &[
    (Fault::Short, "the bytes end before the packet does"),
    (Fault::Magic, "a packet begins with the bytes 53 4c"),
    (Fault::Version, "the version has to be 1, 2 or 3"),
    (
        Fault::Kind,
        "the kind of a packet has to be 1 to 6, or 7 in version 3",
    ),
    (
        Fault::Name,
        "a name has to be 1 to 32 bytes of A-Z a-z 0-9 . _ -",
    ),
    (
        Fault::Count,
        "a packet has at most 6 claims, or 12 in version 3",
    ),
    (
        Fault::ClaimKind,
        "the kind of a claim has to be 1 to 3, or 4 in version 3",
    ),
    (Fault::Incarnation, "an incarnation is at most 1000000000"),
    (Fault::Trailing, "bytes follow the packet's end"),
    (Fault::Family, "the family of an address has to be 4 or 6"),
];

const SCRIPTS: &[(ScriptFault, &str)] = &[
    (
        ScriptFault::Command,
        "a line begins with set, open, tick, deliver, ask, health, pull, leave or table",
    ),
    (
        ScriptFault::Words,
        "one space stands between two words, and each command takes words of its own",
    ),
    (ScriptFault::Value, "a word is out of its form or its range"),
    (
        ScriptFault::Double,
        "a member with this name or port is open already",
    ),
    (ScriptFault::Full, "at most 16 members can be opened"),
    (ScriptFault::Member, "no member of this name is open"),
    (ScriptFault::Packet, "no packet of this number was sent"),
];

const FULL_DISK: WriteFault = WriteFault {
    kind: ErrorKind::StorageFull,
};

const RUNS: &[(RunFault, &str)] = &[
    (RunFault::Memory, "memory was refused"),
    (
        RunFault::Read(InputFault::TooLong),
        "the input can't be read, or has more than 1048576 bytes",
    ),
    (RunFault::Write(FULL_DISK), "the output can't be written"),
];

const LINES: &[(LineFault, &str)] = &[
    (LineFault::NotHex, "a line has to be pairs of hex digits"),
    (
        LineFault::Refused(Fault::Version),
        "the version has to be 1, 2 or 3",
    ),
];

const ORDERS: &[(OrderFault, &str)] = &[
    (
        OrderFault::Bad(BadList::Names),
        "the names have to be 1 to 255 different ones between commas",
    ),
    (
        OrderFault::Bad(BadList::Words),
        "the words have to be numbers from 0 to 4294967295 between commas",
    ),
    (
        OrderFault::Run(RunFault::Write(FULL_DISK)),
        "the output can't be written",
    ),
];

const PARTS: &[(BadPart, &str)] = &[
    (
        BadPart::Folder,
        "the folder has to have 1 to 255 bytes of printable ASCII",
    ),
    (
        BadPart::Name,
        "the name has to have 1 to 32 bytes of A-Z a-z 0-9 . _ -",
    ),
];

const FILES: &[(FileFault, &str)] = &[
    (
        FileFault::Config(ConfigFault::Alpha),
        "alpha has to be 1 to 20",
    ),
    (
        FileFault::Syntax,
        "the file has to be TOML in UTF-8, of at most 65536 bytes",
    ),
    (
        FileFault::Key,
        "a key is unknown or has a value of another type, or the name is missing",
    ),
    (
        FileFault::Value,
        "a name, an address, a port, a seed or a folder is out of its form, or the dice are negative",
    ),
    (FileFault::Pull, "pull_ms has to be 0 to 3600000"),
    (FileFault::Stall, "stall_ms has to be 0 to 60000"),
    (
        FileFault::Status,
        "status has to be A.B.C.D:PORT, or an IPv6 address in brackets before :PORT",
    ),
    (FileFault::StatusOpen, "status_open has to be true or false"),
    (
        FileFault::StatusNotLoopback,
        "status has to be in 127.0.0.0/8 or ::1 if status_open isn't true",
    ),
    (
        FileFault::KeyFile,
        "key_file has to have 1 to 255 bytes of printable ASCII",
    ),
    (FileFault::Leave, "leave has to be \"on\" or \"off\""),
    (
        FileFault::Bind,
        "bind has to be A.B.C.D or A.B.C.D:PORT, or the same of IPv6",
    ),
    (
        FileFault::Family,
        "a member with an IPv6 address has to have wire = 3",
    ),
    (FileFault::Resolve, "resolve_ms has to be 1000 to 3600000"),
    (
        FileFault::Auto,
        "a member with the address auto has to have a seed",
    ),
    (FileFault::RecordMb, "record_mb has to be 1 to 100000"),
];

const READS: &[(ReadFault, &str)] = &[
    (ReadFault::NoMemory, "memory was refused"),
    (
        ReadFault::File(FileFault::Config(ConfigFault::Beta)),
        "beta has to be 1 to 20",
    ),
];

const PAIRS: &[(PairFault, &str)] = &[
    (PairFault::NoMemory, "memory was refused"),
    (PairFault::NoPlace, "no reader was given for a place"),
];

const VIEWS: &[(NoView, &str)] = &[(NoView, "the published members weren't handed out")];

const LOOKS: &[(MembersFault, &str)] = &[
    (
        MembersFault::NoView,
        "the published members weren't handed out",
    ),
    (MembersFault::NoMemory, "memory was refused"),
];

const REFUSALS: &[(Refusal, &str)] = &[
    (
        Refusal::BadPacket(Fault::Count),
        "the bytes are no packet: a packet has at most 6 claims, or 12 in version 3",
    ),
    (Refusal::NoMemory, "memory was refused"),
    (
        Refusal::HistoryFull(20_000),
        "the history is full: 20000 entries are its limit",
    ),
    (
        Refusal::Behind { seen: 7, here: 6 },
        "the pass has seen 7 events, and 6 are published",
    ),
    (
        Refusal::NoPlace,
        "there is no such place, or no reader for one",
    ),
    (Refusal::NoView, "the published members weren't handed out"),
];

const CLOSINGS: &[(CloseFault, &str)] = &[
    (CloseFault::Missing, "a place has no Spent"),
    (
        CloseFault::Foreign,
        "a Spent is another agent's, or has a place that isn't there, or that another Spent has",
    ),
    (
        CloseFault::Differs { seat: 2, index: 5 },
        "the calls of place 2 aren't those of the history, from call 5 on",
    ),
];

const ENDS: &[(Why, &str)] = &[
    (
        Why::Stopped,
        "the loop was told to stop, or its time was over",
    ),
    (
        Why::Ousted,
        "the member was ousted: a claim about it came that nothing can refute",
    ),
    (Why::LinkFailed, "receiving failed"),
    (Why::Refused(Refusal::NoMemory), "memory was refused"),
    (Why::ReadBound, "the loop made as many turns as it may"),
];

const NODES: &[(NodeFault, &str)] = &[
    (
        NodeFault::Socket(ErrorKind::AddrInUse),
        "the socket can't be bound to its address",
    ),
    (NodeFault::Clock, "the machine's clock can't be read"),
    (NodeFault::Refused(Refusal::NoMemory), "memory was refused"),
];

/// The place of the first of these faults whose message isn't this one.
fn first_other<E: Error>(alloc: Global, rows: &[(E, &str)]) -> Option<usize> {
    rows.iter().position(|(fault, want)| {
        let told = format!(in alloc; "{fault}");
        !told.is_ok_and(|told| told.as_str() == *want)
    })
}

/// Each fault is an error, and its message is this.
#[test]
fn faults_have_messages(rt: HostRuntime) {
    let alloc = rt.alloc();
    let others = [
        ("names", first_other(alloc, NAMES)),
        ("configurations", first_other(alloc, CONFIGS)),
        ("packets", first_other(alloc, PACKETS)),
        ("scripts", first_other(alloc, SCRIPTS)),
        ("runs", first_other(alloc, RUNS)),
        ("lines", first_other(alloc, LINES)),
        ("lists", first_other(alloc, ORDERS)),
        ("parts of recordings", first_other(alloc, PARTS)),
        ("files", first_other(alloc, FILES)),
        ("readings of files", first_other(alloc, READS)),
        ("pairs", first_other(alloc, PAIRS)),
        ("views", first_other(alloc, VIEWS)),
        ("looks", first_other(alloc, LOOKS)),
        ("refusals", first_other(alloc, REFUSALS)),
        ("closings", first_other(alloc, CLOSINGS)),
        ("ends", first_other(alloc, ENDS)),
        ("nodes", first_other(alloc, NODES)),
    ];
    for (faults, other) in others {
        assert_eq!(rt; other, None, "{faults}");
    }
}
