//! What is noted of a clash.

/// What is noted of the clash at which a wish stopped.
#[derive(Drop)]
pub(crate) enum Note {
    /// No wish has stopped.
    Nothing,
    /// The clash's text.
    Text(String),
    /// Memory was refused for it.
    Lacking,
}
