use plane_io::Text;
use thiserror::Error;

/// What a hub tells of its clients. It names a client by a number.
#[derive(Drop)]
pub enum HubEvent {
    /// A client came, with the names of its user and its group.
    Accepted {
        client: u32,
        user: Text,
        group: Text,
    },
    /// A client sent bytes, 1 to 65,536 of them.
    Bytes {
        client: u32,
        bytes: Text,
    },
    /// A client left.
    Closed {
        client: u32,
    },
    /// There is nothing now.
    Idle,
}

/// Why a hub told nothing.
#[derive(Clone, Copy, Debug, Error)]
pub enum HubError {
    /// The hub failed.
    #[error("hub failed")]
    Failed,
    /// There was not enough memory.
    #[error("out of memory")]
    Memory,
}

/// Bytes that were sent to a client.
#[derive(Drop)]
pub struct Sent {
    pub client: u32,
    pub bytes: Text,
}
