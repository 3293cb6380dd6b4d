//! The recorder of a node, as its configuration asks for it, and the folders of the machine for recordings.
//!
//! Defined in: this file, `lg_batches/specs/Meaning/Sources.antt`.
//! Tested in: `cases/recordings`.
ghost use Rattle.std.specs.Prelude.{◌≡◌, is_some, IfOk};

use lg_batches::{NodeRecord, Subject};
use lg_config::{MAX_RECORD_MB, NodeConfig};
use lg_recorder::{DiskFolder, RecordFolder, Recorder};
use lg_resolve::FaultStreams;
use std::alloc::{AllocError, Global};

/// The version of the program, as recordings have it.
const VERSION: &[u8] = b"0.9.0";

/// A machine that has folders for recordings.
pub trait RecordFolders {
    /// Such a folder.
    type Folder: RecordFolder + Send + Drop + 'static;

    /// The folder at a path. Nothing is done in it yet.
    fn record_folder(&self, alloc: Global, path: String) -> Self::Folder;
}

impl RecordFolders for HostRuntime {
    type Folder = DiskFolder<HostRuntime>;

    /// A folder of its file systems.
    fn record_folder(&self, alloc: Global, path: String) -> DiskFolder<HostRuntime> {
        DiskFolder::new(*self, alloc, path)
    }
}

/// A recorder that writes to a folder of the machine, and tells its faults on a stream of its own.
pub(crate) type DiskRecord<'n, R> = NodeRecord<
    'n,
    <R as RecordFolders>::Folder,
    <R as FaultStreams>::Stream,
>;

/// What records a node to the folder that its configuration names, if it names one. This is the text of its
/// configuration file. Memory is allocated for the path. The error is that it was refused.
pub(crate) fn recorder_of<'n, R: RecordFolders + FaultStreams>(
    rt: &'n R,
    alloc: Global,
    node: &'n NodeConfig,
    text: &'n [u8],
) -> Result<Option<DiskRecord<'n, R>>, AllocError>
    ensures { IfOk result (λ recorder. is_some recorder ≡ is_some node.now.record_folder) }
{
    let Some(folder) = &node.record_folder else {
        return Ok(None);
    };
    let path = folder.as_str();
    let path = format!(in alloc; "{path}")?;
    Ok(Some(NodeRecord {
        folder: rt.record_folder(alloc, path),
        // A configuration has no greater one.
        recorder: Recorder::new(alloc, node.record_mb.min(MAX_RECORD_MB)),
        subject: Subject {
            config: &node.config,
            text,
            program: VERSION,
        },
        faults: rt.fault_stream(),
    }))
}
