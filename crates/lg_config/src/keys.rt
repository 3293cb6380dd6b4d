//! The keys of a file, and the TOML type of each key's value.
//!
//! Defined in: `specs/Meaning/Keys.antt`, `lg_timing/specs/Meaning/Keys.antt`.
//! Tested in: `cases/config.case`, `cases/config_types.case`.
ghost use Rattle.std.specs.Prelude.{◌≡◌};
ghost use Rattle.std.specs.List.{list_all};
ghost use Rattle.toml.specs.View.{view, items_view, table_view};
ghost use Rattle.lg_config.specs.Meaning.Keys.{are_right_keys, are_texts, file_key_named, is_of_kind, kind_of_key};
ghost use Rattle.lg_timing.specs.Meaning.Keys.{has_key_name};

use crate::node_keys::NodeKey;
use lg_timing::Key;
use toml::{Table, Value};

/// The kind of a key's value.
#[derive(Clone, Copy, Debug, PartialEq, Eq)]
pub(crate) enum Kind {
    /// A text.
    Text,
    /// A whole number.
    Number,
    /// An array of texts.
    Texts,
    /// Anything. A value of another type than the key wants is a fault of its own.
    Any,
}

/// The key of this member's name.
pub(crate) const NAME: &str = "name";

/// The key of the members that it knows from the start.
pub(crate) const SEEDS: &str = "seeds";

/// The key of the folder of the recording.
pub(crate) const RECORD: &str = "record";

/// The key of the path of the key file.
pub(crate) const KEY_FILE: &str = "key_file";

/// The key of the group of members.
pub(crate) const GROUP: &str = "group";

/// The key of the status server's address.
pub(crate) const STATUS: &str = "status";

/// The key of whether the status server may listen at an address that isn't loopback.
pub(crate) const STATUS_OPEN: &str = "status_open";

/// The key of whether a request may end the node.
pub(crate) const LEAVE: &str = "leave";

/// The key of where the socket for datagrams is bound.
pub(crate) const BIND: &str = "bind";

/// The keys of the numbers of the member's that a file may give, in the order in which they are judged: all but
/// [`Key::First`].
pub const FILE_KEYS: [Key; 14] = [
    Key::IntervalMs,
    Key::TimeoutMs,
    Key::Indirect,
    Key::MaxScore,
    Key::Alpha,
    Key::Beta,
    Key::Confirmations,
    Key::Lambda,
    Key::NackThousandths,
    Key::HistoryLimit,
    Key::Wire,
    Key::ForgetMs,
    Key::GossipMs,
    Key::GossipTo,
];

/// Whether a word is the name of a key.
fn has_name(key: Key, word: &[u8]) -> bool
    ensures { result ≡ has_key_name word.now key }
{
    word == key.name().as_bytes()
}

/// The key with a name of a number of the member's that a file may give. None if no such key has it.
#[tactic(auto, unfolding(crate::specs::Meaning::Keys::file_key_named))]
fn file_key_named(word: &[u8]) -> Option<Key>
    ensures { result ≡ file_key_named word.now }
{
    FILE_KEYS.iter().copied().find(|key| has_name(*key, word))
}

/// The kind of a key's value. None if the key is unknown.
#[tactic(auto, unfolding(crate::specs::Meaning::Keys::kind_of_key))]
pub(crate) fn kind_of(key: &str) -> Option<Kind>
    ensures { result ≡ kind_of_key key.now }
{
    match key {
        "name" | "address" | "record" | "key_file" | "group" => Some(Kind::Text),
        "port" | "dice" => Some(Kind::Number),
        "seeds" => Some(Kind::Texts),
        "status" | "status_open" | "leave" | "bind" => Some(Kind::Any),
        _ if file_key_named(key.as_bytes()).is_some() => Some(Kind::Number),
        _ if NodeKey::named(key.as_bytes()).is_some() => Some(Kind::Number),
        _ => None,
    }
}

/// Whether each of some values is a text.
fn are_texts(values: &[Value]) -> bool
    ensures { result ≡ are_texts (items_view values.now) }
{
    values.iter().all(|value| value.is_str())
}

/// Whether a value is of the kind that its key wants.
pub(crate) fn is_of_kind(kind: Option<Kind>, value: &Value) -> bool
    ensures { result ≡ is_of_kind kind (view value.now) }
{
    match kind {
        Some(Kind::Text) => value.is_str(),
        Some(Kind::Number) => value.is_integer(),
        Some(Kind::Texts) => match value.as_array() {
            Some(values) => are_texts(values),
            None => false,
        },
        Some(Kind::Any) => true,
        None => false,
    }
}

/// Whether each key is known and has a value of its kind, and the name isn't missing.
pub(crate) fn are_right_keys(table: &Table) -> bool
    ensures { result ≡ are_right_keys (table_view table.now) }
{
    table.contains_key(NAME)
        && table
            .iter()
            .all(|(key, value)| is_of_kind(kind_of(key.as_str()), value))
}
