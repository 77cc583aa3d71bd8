use plane_io::Text;

/// The words of a line that calls a method: for a session or for none, the path of the object, the
/// method, and the arguments as JSON.
#[derive(Drop)]
pub struct CallWords {
    pub session: Option<u128>,
    pub path: Text,
    pub method: Text,
    pub json: Text,
}

/// A line of a script that calls a method of a local object, or one of a client of the message bus.
#[derive(Drop)]
pub enum CallerLine {
    /// A method is called.
    Call(CallWords),
    /// A client opens, as this user and group.
    Open {
        client: u32,
        user: Text,
        group: Text,
    },
    /// A client sends these bytes.
    Bytes {
        client: u32,
        bytes: Text,
    },
    /// A client leaves.
    Close {
        client: u32,
    },
}
