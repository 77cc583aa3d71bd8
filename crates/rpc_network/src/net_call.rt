use kern_model::{DevEvent, DevName};
use net_rules::Answer;
use plane_io::{Items, Text};
use thiserror::Error;

/// What a call of an object of the network asks for.
#[derive(Drop)]
pub enum NetCall {
    /// The committed files are read anew.
    Reload,
    /// The status of all interfaces.
    Dump,
    /// The status of an interface.
    InterfaceStatus {
        name: Text,
    },
    /// An interface is brought up or down by hand.
    Operator {
        interface: Text,
        up: bool,
    },
    /// The handler of an interface answers a request.
    Answer {
        interface: Text,
        number: u64,
        answer: Answer,
    },
    /// The status of a device.
    DeviceStatus {
        name: Text,
    },
    /// A device comes, leaves, or changes its carrier.
    Device(DevEvent),
    /// The status of a radio.
    RadioStatus {
        name: Text,
    },
    /// The handler of a radio answers a request.
    Radio {
        radio: Text,
        number: u64,
        ports: Items<Option<DevName>>,
    },
}

/// Why a call asks for nothing.
#[derive(Clone, Copy, Debug, Error)]
pub enum NetCallError {
    /// The object has no method of that name.
    #[error("method not found")]
    NoMethod,
    /// An argument is missing, or of another form.
    #[error("invalid argument")]
    Argument,
    /// There was not enough memory.
    #[error("out of memory")]
    Memory,
}
