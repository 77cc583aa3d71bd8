use kern_model::DevName;

/// The id of a name in a graph: its place among the names.
#[derive(Clone, Copy)]
pub struct DevId(pub usize);

/// A port that a radio gives to a bridge.
#[derive(Clone, Copy)]
pub struct RadioPort {
    pub bridge: DevName,
    pub port: DevName,
}
