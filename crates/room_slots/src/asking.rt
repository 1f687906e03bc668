//! What is asked of a client.

/// What is asked of a client. A question changes nothing.
#[derive(Clone, Copy, Debug, PartialEq, Eq)]
pub enum Question {
    /// The updates that it took, its batches that aren't acknowledged, and the tree that it shows.
    Show,
    /// The same with the number of nodes in place of the tree.
    Brief,
    /// Its own presence, and that of the others.
    Others,
    /// How much can be undone and redone.
    History,
    /// The last notices that it was told.
    Notices,
}
