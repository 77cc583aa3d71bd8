use crate::answer::Answer;
use crate::request::{InterfaceRequest, RadioRequest};
use kern_model::{DevName, Device};
use net_rows::Conf;
use plane_io::{Items, Text};

/// The last operator operator state for an interface.
#[derive(Drop)]
pub struct OperatorState {
    pub interface: Text,
    pub up: bool,
}

/// An open request of an interface, with its latest answer.
#[derive(Drop)]
pub struct OpenInterface {
    pub number: u64,
    pub request: InterfaceRequest,
    pub answer: Option<Answer>,
}

/// An open request of a radio, with its latest answer: for each of its rows the port, where there
/// is one.
#[derive(Drop)]
pub struct OpenRadio {
    pub number: u64,
    pub request: RadioRequest,
    pub ports: Option<Items<Option<DevName>>>,
}

/// All that decides what is wanted of the kernel, and the numbers of the requests.
#[derive(Drop)]
pub struct Inputs {
    pub conf: Conf,
    /// The present devices by name, each name once.
    pub devices: Items<(DevName, Device)>,
    /// One operator state for an interface at most.
    pub operator_states: Items<OperatorState>,
    /// By rising number.
    pub interfaces: Items<OpenInterface>,
    /// By rising number.
    pub radios: Items<OpenRadio>,
    /// The number of the next request, from 1. The definitions count without end; `AreCountable` is
    /// the premise that it is below 2^63.
    pub next: u64,
}
