use crate::answer::Answer;
use kern_model::{DevEvent, DevName};
use net_rows::Conf;
use plane_io::{Items, Text};

/// What changes the inputs.
#[derive(Drop)]
pub enum Event {
    Load(Conf),
    Device(DevEvent),
    /// An interface is brought up or down by hand.
    Operator {
        interface: Text,
        up: bool,
    },
    /// An answer to the request of an interface that has this number.
    Answer {
        interface: Text,
        number: u64,
        answer: Answer,
    },
    /// An answer to the request of a radio that has this number.
    Radio {
        radio: Text,
        number: u64,
        ports: Items<Option<DevName>>,
    },
}

/// What is told of requests after an event.
#[derive(Clone, Copy)]
pub enum Notice {
    /// The ask of this number is no longer open.
    Dropped {
        number: u64,
    },
    /// An ask of the interface at this place of the rows was opened.
    Interface {
        number: u64,
        row: usize,
        device: Option<DevName>,
    },
    /// An ask of the radio at this place of the rows was opened.
    Radio {
        number: u64,
        row: usize,
    },
}
