//! What the number of an operation says.
/// What a created node is.
#[derive(Clone, Copy, Debug, PartialEq, Eq)]
pub(crate) enum Shape {
    Object,
    List,
    Map,
    Register,
}

/// What an operation does, by its `type`.
#[derive(Clone, Copy, Debug, PartialEq, Eq)]
pub(crate) enum Code {
    SetKey,
    Create(Shape),
    Update,
    Delete,
    DeleteKey,
}
