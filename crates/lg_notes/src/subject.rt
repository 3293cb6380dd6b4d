//! Of whom is told, and by which node.

use lg_rules::Name;

/// The member of whom is told, and the node whose recording it is.
#[derive(Clone, Copy, Debug)]
pub struct NoteSubject {
    /// The member.
    pub name: Name,
    /// The node's own name.
    pub me: Name,
    /// The node's group by its configuration, if it has one.
    pub group: Option<Name>,
}
