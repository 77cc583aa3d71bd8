//! What each request of a client comes to: a change of what the bus knows, and frames to send.
#![tactic(auto)]

mod asked;
mod calls;
mod conditions;
mod events;
mod invoked;
mod objects;
mod plan;
mod refusing;
mod subscriptions;

pub use asked::{look_up, ping};
pub use calls::{notify, pass_data, pass_status};
pub use conditions::{
    is_anothers, is_clients, is_event_object, is_no_clients, is_open_for, is_opened,
    is_taken_sequence, is_too_long,
};
pub use invoked::invoke;
pub use objects::{MOST_OBJECTS, add, remove};
pub use plan::{Plan, says};
pub use refusing::{deny, deny_if_asked, refuse, refuse_if_asked};
pub use subscriptions::{subscribe, unsubscribe};
