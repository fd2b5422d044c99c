use c_graph::Map;

/// What a witness of a verdict tells of.
#[derive(Drop)]
pub enum Found {
    Nothing,
    /// The map whose certificate was made.
    OfMap(Map),
    /// The offset of the error that was reached.
    AtOffset(u32),
}
