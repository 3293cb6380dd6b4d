//! Bodies of answers, as docs/FORMATS.md describes them, and the texts that the commands write of them.

/// A member that is suspected.
pub(crate) const SUSPECT: &str =
    "{\"version\":41,\"moment_ms\":5120,\"name\":\"b\",\"members\":[{\"name\":\"a\",\"status\":\"suspect\",\
    \"incarnation\":0,\"address\":\"127.0.0.1\",\"port\":7101,\"accuser\":\"c\"}]}";

pub(crate) const SUSPECT_TEXT: &str = "record a suspect 0 127.0.0.1:7101 by c\n";

/// A member that is alive.
pub(crate) const ALIVE: &str =
    "{\"version\":41,\"moment_ms\":5120,\"name\":\"b\",\"members\":[{\"name\":\"b\",\"status\":\"alive\",\
    \"incarnation\":4,\"address\":\"127.0.0.1\",\"port\":7102,\"accuser\":null}]}";

pub(crate) const ALIVE_TEXT: &str = "record b alive 4 127.0.0.1:7102\n";

/// A member that has failed.
pub(crate) const FAILED: &str =
    "{\"version\":41,\"moment_ms\":5120,\"name\":\"b\",\"members\":[{\"name\":\"c\",\"status\":\"failed\",\
    \"incarnation\":2,\"address\":\"127.0.0.1\",\"port\":7103,\"accuser\":null}]}";

pub(crate) const FAILED_TEXT: &str = "record c failed 2 127.0.0.1:7103\n";

/// A member that left, and is reached over IPv6.
pub(crate) const LEFT: &str =
    "{\"version\":41,\"moment_ms\":5120,\"name\":\"b\",\"members\":[{\"name\":\"d\",\"status\":\"left\",\
    \"incarnation\":3,\"address\":\"2001:db8::1\",\"port\":7104,\"accuser\":null}]}";

pub(crate) const LEFT_TEXT: &str = "record d left 3 [2001:db8::1]:7104\n";

/// A member of each status but Left.
pub(crate) const ALL: &str = "{\"version\":41,\"moment_ms\":5120,\"name\":\"b\",\"members\":[\
    {\"name\":\"a\",\"status\":\"suspect\",\"incarnation\":0,\
    \"address\":\"127.0.0.1\",\"port\":7101,\"accuser\":\"c\"},\
    {\"name\":\"b\",\"status\":\"alive\",\"incarnation\":4,\
    \"address\":\"127.0.0.1\",\"port\":7102,\"accuser\":null},\
    {\"name\":\"c\",\"status\":\"failed\",\"incarnation\":2,\
    \"address\":\"127.0.0.1\",\"port\":7103,\"accuser\":null}]}";

pub(crate) const ALL_TEXT: &str =
    "record a suspect 0 127.0.0.1:7101 by c\nrecord b alive 4 127.0.0.1:7102\nrecord c failed 2 127.0.0.1:7103\n";

/// No members.
pub(crate) const NONE: &str = "{\"members\":[]}";

/// The least and the greatest values.
pub(crate) const EDGES: &str =
    "{\"version\":9999999999999999,\"moment_ms\":0,\"name\":\"b\",\"members\":[\
    {\"name\":\"-\",\"status\":\"alive\",\"incarnation\":0,\
    \"address\":\"0.0.0.0\",\"port\":1,\"accuser\":null},\
    {\"name\":\"ABCDEFGHIJKLMNOPQRSTUVWXYZ._-019\",\"status\":\"suspect\",\"incarnation\":1000000000,\
    \"address\":\"255.255.255.255\",\"port\":65535,\"accuser\":\"abcdefghijklmnopqrstuvwxyz.23456\"}]}";

pub(crate) const EDGES_TEXT: &str = "record - alive 0 0.0.0.0:1\n\
    record ABCDEFGHIJKLMNOPQRSTUVWXYZ._-019 suspect 1000000000 255.255.255.255:65535 by \
    abcdefghijklmnopqrstuvwxyz.23456\n";

/// A member that is suspected, in another order, with fields that nobody knows, with blanks and an escape.
pub(crate) const OTHERWISE: &str = " {\"more\":{\"members\":[7]},\"members\" : [\n\
    {\"accuser\":\"\\u0063\",\"port\":7101,\"since\":[null,1.5e3,{}],\"address\":\"127.0.0.1\",\t\"incarnation\":0,\
    \"status\":\"suspect\",\"zone\":\"\u{fc}\",\"name\":\"a\"}\r\n],\"other\":true} ";

/// A health.
pub(crate) const HEALTH: &str =
    "{\"name\":\"b\",\"score\":0,\"incarnation\":0,\"live\":3,\"known\":3,\"ousted\":false,\
    \"uptime_ms\":5120,\"stood_still_ms\":0}";

pub(crate) const HEALTH_TEXT: &str =
    "name b\nscore 0\nincarnation 0\nlive 3\nknown 3\nousted false\nuptime_ms 5120\nstood_still_ms 0\n";

/// Another health, with different numbers, in another order, and with fields that nobody knows.
pub(crate) const ILL: &str =
    "{\"stood_still_ms\":250,\"zone\":null,\"uptime_ms\":86400000,\"ousted\":false,\"known\":7,\
    \"live\":2,\"incarnation\":1000000000,\"score\":8,\"scores\":[1,2],\"name\":\"node-9.example_com\"}";

pub(crate) const ILL_TEXT: &str =
    "name node-9.example_com\nscore 8\nincarnation 1000000000\nlive 2\nknown 7\nousted false\n\
    uptime_ms 86400000\nstood_still_ms 250\n";

/// The health of a node that was ousted.
pub(crate) const OUSTED: &str =
    "{\"name\":\"b\",\"score\":2,\"incarnation\":1000000000,\"live\":1,\"known\":3,\"ousted\":true,\
    \"uptime_ms\":5370,\"stood_still_ms\":250}";

pub(crate) const OUSTED_TEXT: &str =
    "name b\nscore 2\nincarnation 1000000000\nlive 1\nknown 3\nousted true\nuptime_ms 5370\nstood_still_ms 250\n";

/// One change.
pub(crate) const CHANGE: &str =
    "{\"version\":41,\"missed\":false,\"changes\":[{\"version\":41,\"moment_ms\":5120,\"name\":\"a\",\
    \"status\":\"alive\",\"incarnation\":1,\"address\":\"127.0.0.1\",\"port\":7101,\"accuser\":null}]}";

pub(crate) const CHANGE_TEXT: &str = "5120 record a alive 1 127.0.0.1:7101\n";

/// A member that was forgotten.
pub(crate) const FORGOTTEN: &str =
    "{\"version\":90,\"missed\":false,\"changes\":[{\"version\":90,\"moment_ms\":90000,\"name\":\"c\",\
    \"status\":\"forgotten\",\"incarnation\":null,\"address\":null,\"port\":null,\"accuser\":null}]}";

pub(crate) const FORGOTTEN_TEXT: &str = "90000 forgotten c\n";

/// The node `b` says that it leaves.
pub(crate) const LEAVING: &str = "{\"leaving\":\"b\"}";
