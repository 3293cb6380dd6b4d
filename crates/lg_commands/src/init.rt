//! The command `init`: a configuration of a node to begin with.
//!
//! Defined in: `specs/Meaning/Init.antt`.
//! Tested in: `cases/init.case`, `cases/initial.py`.
ghost use Rattle.std.specs.Prelude.{◌≡◌};
ghost use Rattle.lg_commands.specs.Meaning.Init.{init_text};

/// The file. Each key is in force, or stands in a comment.
const INIT_TEXT: &str = "\
    # The configuration of a node, which is one member of a group. Save it to a file, and edit it.\n\
    # This writes what the file means: lg check --config FILE\n\
    # This runs the node: lg node --config FILE\n\
    # A key behind a # has its default here, or an example if that is said. To set it, take the # away.\n\
    \n\
    # The name by which all others know this member. Each member needs a name of its own.\n\
    # It has 1 to 32 bytes of A-Z a-z 0-9 . _ -\n\
    name = \"a\"\n\
    # The address of this member, and its UDP port. The others are told both, and send to them.\n\
    # With \"auto\" the address is found when the node starts, by its seeds.\n\
    # address = \"127.0.0.1\"\n\
    # port = 7946\n\
    # Where the socket is bound, if that isn't the address that the others are told. An example:\n\
    # bind = \"0.0.0.0\"\n\
    # The members that this one asks when it starts, at most 16, each as \"10.0.0.8\" or \"b@10.0.0.8:7946\".\n\
    # The name of a host may stand in place of the address, as \"b.example\".\n\
    # seeds = []\n\
    # In which version packets are written. Members that don't read version 3 drop those of version 3.\n\
    wire = 3\n\
    # How long a member that failed or left is kept, in milliseconds: a day here. 0 is for good.\n\
    forget_ms = 86400000\n\
    # The most entries that the history of the node stores.\n\
    history_limit = 1000\n\
    \n\
    # The name of the group, if there are several on one network. There is none by default. An example:\n\
    # group = \"blue\"\n\
    # The file that has the key of the group. The group has no key by default. An example:\n\
    # key_file = \"group.key\"\n\
    \n\
    # Where the node answers over HTTP who is alive.\n\
    status = \"127.0.0.1:8946\"\n\
    # Whether that may be an address which isn't loopback. Whoever reaches it gets the answers.\n\
    # status_open = false\n\
    # Whether the command \"lg leave\" may end the node: \"on\" or \"off\".\n\
    # leave = \"on\"\n\
    \n\
    # The time from one round to the next, in milliseconds. Each round probes one member.\n\
    # interval_ms = 1000\n\
    # How many milliseconds a probe waits for its Ack before other members are asked to probe too.\n\
    # timeout_ms = 500\n\
    # How many other members are asked then.\n\
    # indirect = 3\n\
    # When one that was asked says that it has no Ack, in thousandths of timeout_ms.\n\
    # nack_thousandths = 800\n\
    # The greatest health score. A member that is slow has a greater score, and waits longer for others.\n\
    # max_score = 8\n\
    # The factor of the least time that a suspicion lasts.\n\
    # alpha = 5\n\
    # The greatest time that a suspicion lasts, as a multiple of the least.\n\
    # beta = 6\n\
    # How many members have to confirm a suspicion until it lasts the least time.\n\
    # confirmations = 3\n\
    # How often a member sends a claim, for each decimal digit of the number of live members.\n\
    # lambda = 4\n\
    # For how many milliseconds news waits until the node gossips it in packets of its own. 0 is never.\n\
    # gossip_ms = 200\n\
    # To how many members it then goes at most.\n\
    # gossip_to = 3\n\
    \n\
    # How many milliseconds pass from one question for a table to the next. 0 is never.\n\
    # pull_ms = 30000\n\
    # By how many milliseconds the clock may pass the last turn of either loop. 0 turns this off.\n\
    # stall_ms = 100\n\
    # How many milliseconds pass from one resolving of the hosts among the seeds to the next.\n\
    # resolve_ms = 60000\n\
    # The folder in which the node records what happens to it. It records nothing by default. An example:\n\
    # record = \"/var/lib/lg\"\n\
    # The most that a recording takes, in units of 1000000 bytes.\n\
    # record_mb = 64\n\
    # Where the random choices start. By default it is made of name, address and port. An example:\n\
    # dice = 7\n";

/// What the command `init` writes: a configuration file with a comment on each key (this project's choice).
#[tactic(auto, unfolding(crate::specs::Meaning::Init::init_text))]
pub(crate) fn init_text() -> &'static str
    ensures { result.now ≡ init_text }
{
    INIT_TEXT
}
