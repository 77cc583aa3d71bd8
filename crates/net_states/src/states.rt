use net_reach::Reach;
use net_rules::{InterfaceRequest, InterfaceState};

/// What each interface is as of the last look, and what reaches what. Lists are by the place of an
/// interface among the rows.
#[derive(Drop)]
pub struct States {
    pub reach: Reach,
    pub list: Vec<InterfaceState>,
    /// The ask of each row that has a handler, while it is not open.
    pub spare: Vec<Option<InterfaceRequest>>,
    /// Room for the numbers of the requests that one event loses.
    pub lost: Vec<u64>,
}
