//! Looks up the values of a JSON object by their keys. If a key occurs twice, its last value counts: `serde_json` keeps
//! that one.
//!
//! Defined in: `specs/Meaning/Fields.antt`.
//! Tested in: `lg_client_tests/src/damaged.rt`, `lg_client_tests/src/edits.rt`.
ghost use Rattle.std.specs.Prelude.{◌≡◌};
ghost use Rattle.std.specs.Option.{option_map};
ghost use Rattle.serde_json.specs.View.{items_view, view};
ghost use Rattle.lg_client.specs.Meaning.Fields.{name_at_key, natural_at_key, rows_at_key, text_at_key, truth_at_key};

use lg_rules::Name;
use lg_text::name_in;
use serde_json::Value;

/// The string at a key. None if the key is missing or its value isn't a string.
pub(crate) fn text_at<'a>(object: &'a Value, key: &str) -> Option<&'a str>
    ensures { option_map (λ text. text.now) result ≡ text_at_key key.now (view object.now) }
{
    object.get(key)?.as_str()
}

/// The name at a key. None if the key is missing or its value isn't a string that is a name.
pub(crate) fn name_at(object: &Value, key: &str) -> Option<Name>
    ensures { result ≡ name_at_key key.now (view object.now) }
{
    name_in(text_at(object, key)?.as_bytes())
}

/// The integer at a key, if it is 0 to 2^64 - 1. None if the key is missing or its value is anything else.
pub(crate) fn natural_at(object: &Value, key: &str) -> Option<u64>
    ensures { result ≡ natural_at_key key.now (view object.now) }
{
    object.get(key)?.as_u64()
}

/// The truth value at a key. None if the key is missing or its value isn't one.
pub(crate) fn truth_at(object: &Value, key: &str) -> Option<bool>
    ensures { result ≡ truth_at_key key.now (view object.now) }
{
    object.get(key)?.as_bool()
}

/// The elements of the array at a key. None if the key is missing or its value isn't an array.
pub(crate) fn rows_at<'a>(object: &'a Value, key: &str) -> Option<&'a [Value]>
    ensures { option_map (λ rows. items_view rows.now) result ≡ rows_at_key key.now (view object.now) }
{
    Some(object.get(key)?.as_array()?.as_slice())
}
