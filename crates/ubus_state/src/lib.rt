//! What the message bus knows, as one struct over lists with their indexes, what a message changes
//! of it, and what comes of objects that leave.
#![tactic(auto)]

mod bus;
mod call_rows;
mod calls;
mod change;
mod client_rows;
mod drops;
mod leaving;
mod numbers;
mod object_rows;
mod objects;
mod own_objects;
mod pairs;
mod paths;
mod rows;
mod subscription_rows;
mod subscriptions;

pub use bus::Bus;
pub use call_rows::CallRows;
pub use calls::{OpenCall, call_on, drop_calls_on, forget_calls, is_of};
pub use change::Change;
pub use client_rows::ClientRows;
pub use drops::{drop_registered, drop_registered_among, is_among};
pub use leaving::{Leaving, told};
pub use numbers::ordered_numbers;
pub use object_rows::ObjectRows;
pub use own_objects::OwnObjects;
pub use rows::{EVENT_OBJECT, NO_CLIENT, find_of_type, has_path, has_type, is_local, path_of};
pub use subscription_rows::SubscriptionRows;
