//! The frames that the message bus sends, in order, each where it fits; refusals; the arguments of
//! its event object.
#![tactic(auto)]

mod arguments;
mod calls;
mod fitting;
mod frames_in_order;
mod kinds;
mod notices;
mod outbox;
mod refusals;
mod replies;

pub use arguments::{number_argument, table_argument, text_argument};
pub use calls::{call_data, call_status, event_frame, is_set, local_args, passed_on};
pub use fitting::{does_fit, fits_tells};
pub use frames_in_order::put_frame;
pub use kinds::{
    ADD_OBJECT, DATA, HELLO, INVOKE, LOOKUP, NOTIFY, PING, REMOVE_OBJECT, STATUS, SUBSCRIBE,
    UNSUBSCRIBE,
};
pub use notices::{active, gone, hello};
pub use outbox::{
    Outgoing, answered, one_frame, send_answer, send_if_fits, send_to, send_with_data,
};
pub use refusals::{denied, denied_if_asked, refusal, refusal_if_asked};
pub use replies::{denial_data, description, object_data, pong, status_reply, subscribers_told};
