//! What each interface is, kept beside the inputs of a network: its state, its open request, and
//! the ask that waits to be opened. The claims of the graph of devices and the givers of addresses
//! and routes are counted over it.
#![tactic(auto)]

mod becoming;
mod load;
mod states;

pub use claim_moves::forget_claims;
pub use graph_settle::GraphSettling;
pub use net_looks::Look;
pub use states::States;
