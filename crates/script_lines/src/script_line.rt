use kern_model::DevEvent;
use plane_io::{Items, Text};

/// What a line of a script asks for. JSON is kept as its text.
#[derive(Drop)]
pub enum ScriptLine {
    /// The moment becomes this one, in seconds.
    At {
        moment: u64,
    },
    /// A device comes, leaves, or changes its carrier.
    Device(DevEvent),
    /// The handler of an interface answers a request.
    Answer {
        interface: Text,
        number: u64,
        json: Text,
    },
    /// The handler of a radio answers a request.
    Radio {
        radio: Text,
        number: u64,
        json: Text,
    },
    /// An interface is brought up or down by hand.
    Operator {
        interface: Text,
        up: bool,
    },
    /// The committed files are read anew.
    Reload,
    /// The words of a `uci` command.
    Uci {
        words: Items<Text>,
    },
    /// A method of a local object is called, for a session or for none.
    Call {
        session: Option<u128>,
        object: Text,
        method: Text,
        json: Text,
    },
    /// A client opens, as this user and group.
    OpenClient {
        client: u32,
        user: Text,
        group: Text,
    },
    /// A client sends these bytes.
    ClientBytes {
        client: u32,
        bytes: Text,
    },
    /// A client leaves.
    CloseClient {
        client: u32,
    },
    /// The status of all interfaces.
    Dump,
    /// The status of an interface.
    InterfaceStatus {
        name: Text,
    },
    /// The status of a device.
    DeviceStatus {
        name: Text,
    },
    /// The status of a radio.
    RadioStatus {
        name: Text,
    },
}
