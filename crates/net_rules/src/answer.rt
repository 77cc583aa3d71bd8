use kern_model::DevName;
use net_addr::{Addr, Cidr};
use plane_io::Items;

/// A route of an answer.
#[derive(Clone, Copy)]
pub struct AnswerRoute {
    /// Its host bits are kept.
    pub target: Cidr,
    pub via: Option<Addr>,
    pub metric: u32,
}

/// What the handler of a protocol tells of an interface.
#[derive(Drop)]
pub struct Answer {
    pub up: bool,
    /// The layer-3 device; without one it is the interface's own device.
    pub device: Option<DevName>,
    pub addresses: Items<Cidr>,
    pub routes: Items<AnswerRoute>,
}
