//! What the table of a file says of the keys of its group: the path of the key file, which has them.
//!
//! Defined in: `specs/Meaning/KeyFiles.antt`.
//! Tested in: `cases/config_key_file.case`, `lg_command_tests/src/config.rt`.
ghost use Rattle.std.specs.Prelude.{◌≡◌};
ghost use Rattle.toml.specs.View.{table_view};
ghost use Rattle.lg_config.specs.Meaning.KeyFiles.{key_file_in, with_key_file};

use crate::fault::FileFault;
use crate::file_path::FilePath;
use crate::keys::KEY_FILE;
use crate::lookup::text_at;
use crate::node::NodeConfig;
use toml::Table;

/// The path of the key file. None if the table lacks the key.
fn key_file_at(table: &Table) -> Result<Option<FilePath>, FileFault>
    ensures { result ≡ key_file_in (table_view table.now) }
{
    let Some(text) = text_at(table, KEY_FILE) else {
        return Ok(None);
    };
    match FilePath::of(text) {
        Some(path) => Ok(Some(path)),
        None => Err(FileFault::KeyFile),
    }
}

/// Settings with the path of the key file that their table gives, or the fault of that path.
pub(crate) fn with_key_file(table: &Table, node: NodeConfig) -> Result<NodeConfig, FileFault>
    ensures { result ≡ with_key_file node (key_file_in (table_view table.now)) }
{
    let key_file = key_file_at(table)?;
    Ok(NodeConfig { key_file, ..node })
}
