//! Reads a body as JSON.
//!
//! Defined in: `specs/Meaning/Fields.antt`.
//! Tested in: `lg_client_tests/src/damaged.rt`.
ghost use Rattle.serde_json.specs.View.{view};
ghost use Rattle.lg_client.specs.Meaning.Fields.{json_of};
ghost use Rattle.lg_client.specs.Support.Reading.{IsReadAs, IsTextOf};

use crate::fault::AskFault;
use serde_json::Value;
use std::alloc::Global;
use std::str;

/// The text that bytes spell, if they are UTF-8.
fn text_in(bytes: &[u8]) -> Result<&str, AskFault>
    ensures { IsTextOf bytes.now result }
{
    match str::from_utf8(bytes) {
        Ok(text) => Ok(text),
        Err(_) => Err(AskFault::Bad),
    }
}

/// What a body spells as JSON. Any other body is [`AskFault::Bad`]. The memory that is allocated is that of the value.
pub(crate) fn json_in(alloc: Global, body: &[u8]) -> Result<Value, AskFault>
    ensures { IsReadAs view (json_of body.now) result }
{
    let text = match text_in(body) {
        Ok(text) => text,
        Err(fault) => return Err(fault),
    };
    match Value::from_str(alloc, text) {
        Ok(value) => Ok(value),
        Err(error) if error.is_memory() => Err(AskFault::Memory),
        Err(_) => Err(AskFault::Bad),
    }
}
