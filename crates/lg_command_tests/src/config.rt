//! What configuration files mean, value by value. The cases of the program show which files are faulty, and how.
use crate::seed_rows::{Known, KnownAt, has_places, has_seeds};
use lg_config::{
    DEFAULT_ADDRESS, DEFAULT_PORT, FileFault, Given, KNOWN_KEYS, MAX_FILE, NodeConfig, reason,
};
use lg_rules::Addr;
use lg_testing::name;

/// A file of a member b and options, and what they mean together.
#[derive(Clone, Copy, Debug)]
struct Row {
    text: &'static str,
    given: &'static [Given<'static>],
    octets: [u8; 4],
    port: u16,
    dice: u64,
    /// `pull_ms`, `stall_ms`, `resolve_ms` and `record_mb`.
    own: [u64; 4],
    /// The folder of the recording.
    record_folder: Option<&'static str>,
    /// The numbers, in the order of the keys: from `interval_ms` to `history_limit`, `wire`, `forget_ms`, `gossip_ms`,
    /// `gossip_to`.
    numbers: [u64; 14],
    /// The seeds at addresses, and those at hosts, which come behind them.
    seeds: &'static [Known],
    hosts: &'static [KnownAt],
    /// The seeds that the member knows from the start.
    known: &'static [Known],
    /// Whom the node asks for a table.
    asked: &'static [([u8; 4], u16)],
    /// Where the status server listens, and `status_open`.
    status: (Option<Addr>, bool),
    /// The path of the key file.
    key_file: Option<&'static str>,
    /// The name of the group.
    group: Option<&'static [u8]>,
    /// Whether a request may end the node.
    leave: bool,
    /// Where the socket is bound, if the file says it.
    bind: Option<Addr>,
    /// Whether the address is to be found.
    auto: bool,
}

/// The numbers of a file that gives none.
const USUAL: [u64; 14] = [1000, 500, 3, 8, 5, 6, 3, 4, 800, 20_000, 1, 0, 200, 3];

/// A file with all keys.
const ALL: &str = "\
name = \"b\"
address = \"10.1.2.3\"
port = 7001
dice = 42
interval_ms = 200
timeout_ms = 50
indirect = 0
max_score = 1
alpha = 2
beta = 3
confirmations = 4
lambda = 5
nack_thousandths = 6
history_limit = 7
wire = 3
forget_ms = 86400000
gossip_ms = 0
gossip_to = 8
pull_ms = 3600000
stall_ms = 0
resolve_ms = 1000
record_mb = 100000
record = \"/var/lib/lg\"
status = \"10.1.2.3:8946\"
status_open = true
key_file = \"/etc/lg/group.key\"
group = \"grn\"
leave = \"off\"
bind = \"0.0.0.0\"
seeds = [\"c@127.0.0.1:7002\", \"10.1.2.4\", \"10.1.2.3:7001\", \"a@1.2.3.4:5\", \"d@db.example:1\", \"DB-2\"]
";

/// Options that give what the file with all keys says.
const ALL_GIVEN: &[Given<'static>] = &[
    Given {
        key: "name",
        text: "b",
    },
    Given {
        key: "address",
        text: "10.1.2.3",
    },
    Given {
        key: "port",
        text: "7001",
    },
    Given {
        key: "dice",
        text: "42",
    },
    Given {
        key: "interval_ms",
        text: "200",
    },
    Given {
        key: "timeout_ms",
        text: "50",
    },
    Given {
        key: "indirect",
        text: "0",
    },
    Given {
        key: "max_score",
        text: "1",
    },
    Given {
        key: "alpha",
        text: "2",
    },
    Given {
        key: "beta",
        text: "3",
    },
    Given {
        key: "confirmations",
        text: "4",
    },
    Given {
        key: "lambda",
        text: "5",
    },
    Given {
        key: "nack_thousandths",
        text: "6",
    },
    Given {
        key: "history_limit",
        text: "7",
    },
    Given {
        key: "wire",
        text: "3",
    },
    Given {
        key: "forget_ms",
        text: "86400000",
    },
    Given {
        key: "gossip_ms",
        text: "0",
    },
    Given {
        key: "gossip_to",
        text: "8",
    },
    Given {
        key: "pull_ms",
        text: "3600000",
    },
    Given {
        key: "stall_ms",
        text: "0",
    },
    Given {
        key: "resolve_ms",
        text: "1000",
    },
    Given {
        key: "record_mb",
        text: "100000",
    },
    Given {
        key: "record",
        text: "/var/lib/lg",
    },
    Given {
        key: "status",
        text: "10.1.2.3:8946",
    },
    Given {
        key: "status_open",
        text: "true",
    },
    Given {
        key: "key_file",
        text: "/etc/lg/group.key",
    },
    Given {
        key: "group",
        text: "grn",
    },
    Given {
        key: "leave",
        text: "off",
    },
    Given {
        key: "bind",
        text: "0.0.0.0",
    },
    Given {
        key: "seeds",
        text: "c@127.0.0.1:7002",
    },
    Given {
        key: "seeds",
        text: "10.1.2.4",
    },
    Given {
        key: "seeds",
        text: "10.1.2.3:7001",
    },
    Given {
        key: "seeds",
        text: "a@1.2.3.4:5",
    },
    Given {
        key: "seeds",
        text: "d@db.example:1",
    },
    Given {
        key: "seeds",
        text: "DB-2",
    },
];

/// Whether a configuration is that of a row.
fn is_of(node: &NodeConfig, row: &Row) -> bool {
    let config = &node.config;
    let own = [node.pull_ms, node.stall_ms, node.resolve_ms, node.record_mb];
    let numbers = [
        config.interval_ms,
        config.timeout_ms,
        config.indirect,
        config.max_score,
        config.alpha,
        config.beta,
        config.confirmations,
        config.lambda,
        config.nack_thousandths,
        config.history_limit,
        config.wire,
        config.forget_ms,
        config.gossip_ms,
        config.gossip_to,
    ];
    config.name == name(b"b")
        && (config.addr, node.dice) == (Addr::v4(row.octets, row.port), row.dice)
        && numbers == row.numbers
        && own == row.own
        && node.record_folder.as_ref().map(|path| path.as_str()) == row.record_folder
        && (node.status, node.status_open) == row.status
        && node.key_file.as_ref().map(|path| path.as_str()) == row.key_file
        && config.group == row.group.map(|letters| name(letters))
        && (node.leave, node.bind, node.auto) == (row.leave, row.bind, row.auto)
        && node.bound_at() == row.bind.unwrap_or(config.addr)
        && config.first == 1
        && has_places(node, row.seeds, row.hosts)
        && has_seeds(node, row.known, row.asked)
}

/// Each value of some files: one with only its name, one with all keys, an empty one beside options of all keys, one
/// whose values are wrong beside these, one whose seed an option replaces, one that writes the defaults, one at the
/// other edges of the node's own numbers, one with the last address of loopback for its status server, one that would
/// allow any but has no such server, one that lets a request end the node, one with seeds at the member's own address,
/// one whose socket is bound elsewhere, one whose address is to be found, and one whose address and port the program
/// can't have.
#[test]
fn each_value(rt: HostRuntime) {
    let alone = Row {
        text: "name = \"b\"",
        given: &[],
        octets: [127, 0, 0, 1],
        port: 7946,
        dice: 2_189_494_717_179_526_441,
        own: [30_000, 100, 60_000, 64],
        record_folder: None,
        numbers: USUAL,
        seeds: &[],
        hosts: &[],
        known: &[],
        asked: &[],
        status: (None, false),
        key_file: None,
        group: None,
        leave: true,
        bind: None,
        auto: false,
    };
    let all = Row {
        text: ALL,
        octets: [10, 1, 2, 3],
        port: 7001,
        dice: 42,
        own: [3_600_000, 0, 1000, 100_000],
        record_folder: Some("/var/lib/lg"),
        numbers: [200, 50, 0, 1, 2, 3, 4, 5, 6, 7, 3, 86_400_000, 0, 8],
        seeds: &[
            (b"c", [127, 0, 0, 1], 7002),
            (b"", [10, 1, 2, 4], 7946),
            (b"", [10, 1, 2, 3], 7001),
            (b"a", [1, 2, 3, 4], 5),
        ],
        hosts: &[(b"d", "db.example", 1), (b"", "DB-2", 7946)],
        known: &[(b"c", [127, 0, 0, 1], 7002), (b"a", [1, 2, 3, 4], 5)],
        asked: &[
            ([127, 0, 0, 1], 7002),
            ([10, 1, 2, 4], 7946),
            ([1, 2, 3, 4], 5),
        ],
        status: (Some(Addr::v4([10, 1, 2, 3], 8946)), true),
        key_file: Some("/etc/lg/group.key"),
        group: Some(b"grn"),
        leave: false,
        bind: Some(Addr::v4([0, 0, 0, 0], 7001)),
        ..alone
    };
    let rows = [
        alone,
        all,
        Row {
            text: "",
            given: ALL_GIVEN,
            ..all
        },
        Row {
            text: "name = \"c\"\nport = 0\nseeds = [\"d@1.2.3.4:5\"]\nleave = 1",
            given: ALL_GIVEN,
            ..all
        },
        Row {
            text: "name = \"b\"\nseeds = [\"a@127.0.0.1:7946\"]",
            given: &[Given {
                key: "seeds",
                text: "127.0.0.1:7947",
            }],
            seeds: &[(b"", [127, 0, 0, 1], 7947)],
            asked: &[([127, 0, 0, 1], 7947)],
            ..alone
        },
        Row {
            text: "name = \"b\"\naddress = \"127.0.0.1\"\nport = 7946\ndice = 1\nstall_ms = 100\nresolve_ms = 60000\n\
                record_mb = 64",
            dice: 1,
            ..alone
        },
        Row {
            text: "name = \"b\"\npull_ms = 0\nstall_ms = 60000\nresolve_ms = 3600000\nrecord_mb = 1",
            own: [0, 60_000, 3_600_000, 1],
            ..alone
        },
        Row {
            text: "name = \"b\"\nstatus = \"127.255.255.255:65535\"",
            status: (Some(Addr::v4([127, 255, 255, 255], 65_535)), false),
            ..alone
        },
        Row {
            text: "name = \"b\"\nstatus_open = true",
            status: (None, true),
            ..alone
        },
        Row {
            text: "name = \"b\"\nleave = \"on\"",
            ..alone
        },
        Row {
            text: "name = \"b\"\nseeds = [\"a@127.0.0.1:7946\", \"127.0.0.1\", \"127.0.0.1:7947\", \"127.0.0.1:7947\"]",
            seeds: &[
                (b"a", [127, 0, 0, 1], 7946),
                (b"", [127, 0, 0, 1], 7946),
                (b"", [127, 0, 0, 1], 7947),
                (b"", [127, 0, 0, 1], 7947),
            ],
            known: &[(b"a", [127, 0, 0, 1], 7946)],
            asked: &[([127, 0, 0, 1], 7947), ([127, 0, 0, 1], 7947)],
            ..alone
        },
        Row {
            text: "name = \"b\"\nbind = \"192.168.1.2:8000\"",
            bind: Some(Addr::v4([192, 168, 1, 2], 8000)),
            ..alone
        },
        Row {
            text: "name = \"b\"\naddress = \"auto\"\nport = 7001\nseeds = [\"db.example:7001\"]",
            octets: [0, 0, 0, 0],
            port: 7001,
            dice: 816_382_846_399_997_258,
            hosts: &[(b"", "db.example", 7001)],
            auto: true,
            ..alone
        },
        Row {
            text: "name = \"b\"\naddress = \"1.2.3.4\"\nport = 0x10\ndice = 9223372036854775807",
            octets: [1, 2, 3, 4],
            port: 16,
            dice: 9_223_372_036_854_775_807,
            ..alone
        },
    ];
    for row in rows {
        let node = NodeConfig::read(rt.alloc(), row.text.as_bytes(), row.given);
        assert!(rt;
            node.as_ref().is_ok_and(|node| is_of(node, &row)),
            "{row:?}"
        );
    }
    let usual = (DEFAULT_ADDRESS, DEFAULT_PORT, MAX_FILE);
    assert!(rt; usual == ("127.0.0.1", 7946, 65_536));
}

/// The options that give all keys leave none out.
#[test]
fn all_keys_given(rt: HostRuntime) {
    for key in KNOWN_KEYS {
        let is_given = ALL_GIVEN.iter().any(|given| given.key == key);
        assert!(rt; is_given, "{key}");
    }
}

/// A file that is no TOML is told with the line of its first fault, and what is wrong there. No contract says which.
#[test]
fn reasons(rt: HostRuntime) {
    let rows = [
        ("name = \"b", "line 1 is no TOML: invalid string\n"),
        (
            "name = \"b\"\nname = \"c\"\n",
            "line 2 is no TOML: duplicate key\n",
        ),
        (
            "name = \"b\"\n\n# c\nport = 9223372036854775808",
            "line 4 is no TOML: number out of range\n",
        ),
        ("name = \"b\"", "the file is TOML\n"),
    ];
    for row in rows {
        let (text, wanted) = row;
        let line = reason(rt.alloc(), text.as_bytes(), &[], FileFault::Syntax);
        let is_wanted = line.as_ref().is_ok_and(|line| line.as_str() == wanted);
        assert!(rt; is_wanted, "{row:?}");
    }
}
